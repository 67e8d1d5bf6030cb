//! Laws of covering: a system covers itself, and covers chain.
ghost use Rattle.std.specs.Prelude.{ℕ, ◌≤◌};
ghost use Rattle.mem_model.specs.declared.step.End.{End};
ghost use Rattle.mem_model.specs.Launching.{Outcome};
ghost use Rattle.mem_model.specs.Runs.{Covers};

/// A system: what its schedules come to.
pub trait Behaves {
    ghost comes: { ℕ → End → Outcome → Type 0 };
}

/// A system covers itself, with no more steps than it has.
pub fn covers_itself<A: Behaves>()
    ensures { Covers A.comes A.comes (λ m. m) }
{}

/// Where a new system covers a middle one with a bound that never falls as its argument grows, and that covers an old one,
/// the new one covers the old one with the bounds put one into the other.
pub fn covers_chain<A: Behaves, B: Behaves, C: Behaves>()
    ensures { (f g : ℕ → ℕ) → ((m n : ℕ) → m ≤ n → f m ≤ f n) → Covers A.comes B.comes f → Covers B.comes C.comes g → Covers A.comes C.comes (λ m. f (g m)) }
{}
