//! Calls that make and release heap blocks.
ghost use Rattle.std.specs.Prelude.{◌≡◌, ℕ, IfOk};
ghost use Rattle.mem_model.specs.Entries.{releases};
ghost use Rattle.mem_model.specs.Thread.{Answers, where_is};
ghost use Rattle.thread_state.specs.declared.state.ThreadState.{ThreadState as ThreadData};
ghost use Rattle.ir_core.specs.declared.module.Module.{Module};
ghost use Rattle.thread_state.specs.Seen.{IsThread};
ghost use Rattle.interp_local.specs.Actions.{IsAction, known_action};
ghost use Rattle.interp_local.specs.Runs.{Tells};
ghost use Rattle.interp_local.specs.Steps.{IsOwn};

use crate::actions::{Action, Words};
use crate::steps::{Own, Part, Stepped, part_of};
use ir_core::Rtl;
use mem_model::{Ptr, Trap, Word};

/// Makes a heap block: the operand is its size in bytes.
pub(crate) fn make(words: Words) -> Result<Action, Trap>
    ensures value { (own : ℕ) (answers : Answers) → result ≡ known_action own answers Rtl.AllocShared words }
    ensures is { IfOk result IsAction }
{
    match words {
        Words::One(Word::Int(size)) => Ok(Action::Makes(size)),
        _ => Err(Trap::Unreachable),
    }
}

/// Releases a heap block: the operands are its address and its size in bytes.
pub(crate) fn release(words: Words) -> Result<Action, Trap>
    ensures value { (own : ℕ) (answers : Answers) → result ≡ known_action own answers Rtl.FreeShared words }
    ensures is { IfOk result IsAction }
{
    match words {
        Words::Two(Word::Ptr(at), Word::Int(size)) => Ok(Action::Releases(at, size)),
        _ => Err(Trap::Unreachable),
    }
}

/// Whether a release is an event: an address in a stack is of no heap block.
pub(crate) fn look_release(at: Ptr) -> Stepped
    ensures own { (m : Module) (s : ThreadData) (size : ℕ) → IsThread m s → IsOwn m s s (releases size (where_is at)) result }
    ensures tells { (size : ℕ) → Tells (releases size (where_is at)) result }
{
    match part_of(at) {
        Part::Stack(_) => Err(Trap::NoBlock),
        Part::Elsewhere => Ok(Own::Event),
    }
}
