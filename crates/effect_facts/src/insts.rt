//! What one instruction does: whether it has an effect, and which function it calls.
ghost use Rattle.std.specs.Prelude.{◌≡◌, ◌↔◌, true, None, Some, MatchOption, option_copied};
ghost use Rattle.shapes.specs.Facts.{insts_of};
ghost use Rattle.ir_core.specs.Places.{inst_at as inst_of};
ghost use Rattle.value_facts.specs.Effects.{AccessesOther, HasEffect};
ghost use Rattle.effect_facts.specs.Marks.{accessed as pointer_of, called_place as place_of, OneHasEffect};

use ir_core::{Function, Inst, Kind, Module, Rtl, Typed};
use ir_tables::Indexed;
use pointer_facts::Pointers;
use register_hops::defined_place;
use shape_facts::is_call_of;

/// The pointer of a store, or of an atomic access; none of another instruction.
pub fn accessed(kind: &Kind) -> Option<&Typed>
    ensures { MatchOption result (pointer_of kind.now ≡ None) (λ p. pointer_of kind.now ≡ Some p.now) }
{
    match kind {
        Kind::Store { at, .. } => Some(at),
        Kind::Load {
            at,
            order: Some(_),
            ..
        } => Some(at),
        Kind::Rmw { at, .. } => Some(at),
        _ => None,
    }
}

/// Whether an instruction of the function at a place stores, or accesses atomically, through a pointer that may point elsewhere than into
/// a stack.
fn accesses_other(pointers: &Pointers, at: usize, inst: &Inst) -> bool
    ensures { (result ≡ true) ↔ AccessesOther pointers.now at inst.now }
{
    match accessed(&inst.kind) {
        Some(pointer) => pointers.may_be_other(at, &pointer.value),
        None => false,
    }
}

/// Whether an instruction of the function at a place has an effect that other threads can see: it prints, allocates, releases or accesses.
pub(crate) fn has_effect(pointers: &Pointers, at: usize, inst: &Inst) -> bool
    ensures { (result ≡ true) ↔ HasEffect pointers.now at inst.now }
{
    is_call_of(Rtl::Print, inst)
        || is_call_of(Rtl::AllocShared, inst)
        || is_call_of(Rtl::FreeShared, inst)
        || accesses_other(pointers, at, inst)
}

/// Whether one of these instructions, of the function at a place, has an effect.
fn one_has_effect(pointers: &Pointers, at: usize, insts: &[Inst]) -> bool
    ensures { (result ≡ true) ↔ OneHasEffect pointers.now at insts.now }
{
    for inst in insts {
        if has_effect(pointers, at, inst) {
            return true;
        }
    }
    false
}

/// Whether an instruction of a function, which stands at this place, has an effect.
pub(crate) fn has_own_effect(pointers: &Pointers, at: usize, f: &Function) -> bool
    ensures { (result ≡ true) ↔ OneHasEffect pointers.now at (insts_of f.now) }
{
    for block in f.blocks.as_slice() {
        if one_has_effect(pointers, at, block.insts.as_slice()) {
            return true;
        }
    }
    false
}

/// The place of the defined function that an instruction calls.
pub(crate) fn called_place(m: &Indexed, inst: &Inst) -> Option<usize>
    ensures { result ≡ place_of m.now inst.now.kind }
{
    match &inst.kind {
        Kind::Call { callee, .. } => defined_place(m, callee),
        _ => None,
    }
}

/// The instruction at a place: of its function, its block and itself, each from 0.
pub fn inst_at(m: &Module, function: usize, block: usize, index: usize) -> Option<&Inst>
    ensures { option_copied result ≡ inst_of m.now (record { function = function; block = block; index = index }) }
{
    let f = m.functions.get(function)?;
    let b = f.blocks.get(block)?;
    b.insts.get(index)
}
