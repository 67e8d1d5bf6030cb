//! Answers to questions for published work.
ghost use Rattle.std.specs.Prelude.{◌≡◌, ℕ, ◌+◌, ◌<◌, ◌^◌, List, [], ◌∷◌, Option, Some, is_some};
ghost use Rattle.ir_core.specs.declared.module.Module.{Module};
ghost use Rattle.ir_core.specs.Places.{Name};
ghost use Rattle.mem_model.specs.Entries as entries;
ghost use Rattle.mem_model.specs.Thread.{Frame};
ghost use Rattle.mem_model.specs.Work.{answers_with, stores_work, given_work};
ghost use Rattle.mem_model.specs.declared.memory.Word.TheVariants.{Ptr as Address};
ghost use Rattle.thread_state.specs.Seen.{thread_seen, IsThread, IsSeen};
ghost use Rattle.thread_state.specs.Moves.{index_of};
ghost use Rattle.interp_local.specs.Operands.{AreFew};
ghost use Rattle.interp_local.specs.Actions as spec;
ghost use Rattle.mem_model.specs.declared.phase.Phase.TheVariants.{Begins};
ghost use Rattle.interp_local.specs.Steps.{IsAnswered, Knows, inst_of, phase_of};

use crate::actions::{Words, given};
use crate::steps::{Part, part_of, result_place};
use ir_core::{Inst, Kind};
use ir_tables::Indexed;
use mem_model::{BlockName, Cell, Ptr, Trap, Word};
use thread_state::ThreadState;

/// The word of published work: the code of its wrapper, or null.
fn work_word(work: Option<u32>) -> Word
    ensures { result ≡ entries.work_word work }
{
    match work {
        None => Word::Ptr(Ptr::Num(0)),
        Some(wrapper) => Word::Ptr(Ptr::At(BlockName::Code(wrapper), 0)),
    }
}

/// The word that tells whether there is work.
fn truth_word(work: Option<u32>) -> Word
    ensures { result ≡ entries.truth_word (is_some work) }
{
    match work {
        None => Word::Int(0),
        Some(_) => Word::Int(1),
    }
}

/// Lets a thread with work be in a region.
fn enter(s: &mut ThreadState, work: Option<u32>)
    ensures { (m : Module) → IsThread m s.old → IsSeen m s.new (record (thread_seen m s.old) { answers = answers_with work (thread_seen m s.old) }) }
{
    if let Some(_) = work {
        s.answers.number = s.own;
        s.answers.count = s.size;
        s.answers.level = 1;
    }
}

/// The pointer that a call's only operand is.
fn only_pointer(words: Words) -> Result<Ptr, Trap>
    ensures { result ≡ spec.only_pointer words }
{
    match words {
        Words::One(Word::Ptr(at)) => Ok(at),
        _ => Err(Trap::Unreachable),
    }
}

/// Stores the work where a pointer points to in the own stack, and goes on with whether there is some.
fn store_work(
    s: &mut ThreadState,
    register: Option<usize>,
    at: Ptr,
    work: Option<u32>,
) -> Result<(), Trap>
    requires { index_of s.old + 1 < 2 ^ 64 }
    ensures { (m : Module) (x : Option Name) (f : Frame) (rest : List Frame) → Knows m s.old x register f rest → IsAnswered m s.old s.new (stores_work (thread_seen m s.old) f rest x work (Address at ∷ [])) result }
{
    let Part::Stack(spot) = part_of(at) else {
        return Err(Trap::NotStack);
    };
    if spot.thread != s.own {
        return Err(Trap::NoBlock);
    }
    s.store(spot.number, spot.offset, Cell::Ptr, work_word(work))?;
    s.go_on(register, truth_word(work));
    enter(s, work);
    Ok(())
}

/// Answers a thread that asks for the published work: the place of the wrapper among the module's functions, or none. The work is
/// stored where the operand points to in the own stack, and the thread goes on with 1 where there is some, in a region, or else
/// with 0.
///
/// # Errors
///
/// The trap of the operand; `NotStack` where it points to no stack, `NoBlock` where to no block of the own one that has not ended,
/// and `OutOfBlock` where the pointer doesn't lie whole in it. Then nothing changes.
pub fn take_work(
    m: &Indexed,
    s: &mut ThreadState,
    inst: &Inst,
    work: Option<u32>,
) -> Result<(), Trap>
    requires thread { IsThread m.now s.old }
    requires few { AreFew m.now }
    requires begins { phase_of s.old ≡ Begins }
    requires stands { inst_of m.now s.old ≡ Some inst.now }
    requires within { index_of s.old + 1 < 2 ^ 64 }
    ensures { IsAnswered m.now s.old s.new (given_work m.now (thread_seen m.now s.old) work) result }
{
    let Kind::Call { args, .. } = &inst.kind else {
        return Err(Trap::Unreachable);
    };
    let words = given(m, s, args.as_slice())?;
    let at = only_pointer(words)?;
    let register = result_place(m, s, inst);
    store_work(s, register, at, work)
}
