//! Steps in the midst of an instruction that takes several: of forks, and of the runtime's own loop.
ghost use Rattle.std.specs.Prelude.{◌≡◌, ℕ, ◌+◌, ◌<◌, ◌^◌, List as Listed, [], ◌∷◌, Option, Some, None, Ok, MatchResult};
ghost use Rattle.ir_core.specs.declared.module.Module.{Module};
ghost use Rattle.ir_core.specs.declared.instructions.Inst.{Inst as SpecInst};
ghost use Rattle.mem_model.specs.declared.phase.Phase.TheVariants.{Loops};
ghost use Rattle.mem_model.specs.declared.phase.LoopPoint.TheVariants.{Considers, Works};
ghost use Rattle.mem_model.specs.Thread.{Frame, ThreadState as SpecThread, inside_region, outside_region};
ghost use Rattle.mem_model.specs.Next.{next_in, with_frames};
ghost use Rattle.mem_model.specs.Steps.{in_phase};
ghost use Rattle.mem_model.specs.Work.{wrapper_frame, next_loop};
ghost use Rattle.thread_state.specs.Seen.{thread_seen, IsThread, IsSeen, StandsAtLong};
ghost use Rattle.thread_state.specs.Moves.{index_of};
ghost use Rattle.interp_local.specs.Phases as spec;
ghost use Rattle.interp_local.specs.Phases.{IsInMidst, Turns};
ghost use Rattle.interp_local.specs.Steps.{IsOwn, IsTried, TakesIn, inst_of, phase_of};
ghost use Rattle.interp_local.specs.Runs.{Tells};

use crate::calls::{no_values, param_count, put_word, room_for};
use crate::steps::{Own, Stepped, result_place};
use ir_core::{Inst, Or, OutOfMemory};
use ir_tables::Indexed;
use mem_model::{LoopPoint, Phase, Trap, Word};
use std::alloc::Global;
use thread_state::ThreadState;

/// How far the innermost call has come in its instruction.
pub fn phase(s: &ThreadState) -> Phase
    ensures { result ≡ phase_of s.now }
{
    match s.frames.last() {
        None => Phase::Begins,
        Some(frame) => frame.phase,
    }
}

/// What the step in a phase is, where there is memory.
pub(crate) fn look_in(phase: Phase) -> Stepped
    requires { IsInMidst phase }
    ensures { (m : Module) (t : SpecThread) (f : Frame) (rest : Listed Frame) (inst : SpecInst) → Tells (next_in m t f rest (Some inst) phase) result }
{
    match phase {
        Phase::Published | Phase::Woken | Phase::HasLeft => Ok(Own::Event),
        Phase::Loops(LoopPoint::Sleeps | LoopPoint::Asks | LoopPoint::Rests) => Ok(Own::Event),
        Phase::InRegion | Phase::Loops(LoopPoint::Works) => Err(Trap::Unreachable),
        Phase::Loops(_) => Ok(Own::Went),
        Phase::Begins | Phase::Gathered => unreachable!(),
    }
}

/// Ends the region for a thread: what it is answered is now that outside of one.
pub fn end_region(s: &mut ThreadState)
    ensures { (m : Module) → IsThread m s.old → IsSeen m s.new (record (thread_seen m s.old) { answers = outside_region (thread_seen m s.old) }) }
{
    s.answers.number = 0;
    s.answers.count = 1;
    s.answers.level = 0;
}

/// Puts a thread into a region: what it is answered is now its number, their number and the level 1.
pub fn begin_region(s: &mut ThreadState)
    ensures { (m : Module) → IsThread m s.old → IsSeen m s.new (record (thread_seen m s.old) { answers = inside_region (thread_seen m s.old) }) }
{
    s.answers.number = s.own;
    s.answers.count = s.size;
    s.answers.level = 1;
}

/// The wrapper that the step here calls.
fn wrapper_called(point: LoopPoint) -> Option<u32>
    ensures { result ≡ spec.wrapper_called point }
{
    match point {
        LoopPoint::Considers(left, work) => { if left == 0 { work } else { None } }
        _ => None,
    }
}

/// Calls the published wrapper with 0 and the thread's number, from the runtime's own loop.
fn call_wrapper(
    alloc: Global,
    m: &Indexed,
    s: &mut ThreadState,
    wrapper: u32,
) -> Result<(), OutOfMemory>
    requires thread { IsThread m.now s.old }
    requires long { StandsAtLong m.now s.old }
    requires phase { phase_of s.old ≡ Loops (Considers 0 (Some wrapper)) }
    ensures { (f : Frame) (rest : Listed Frame) → (thread_seen m.now s.old).frames ≡ f ∷ rest
        → MatchResult result
        (λ u. IsSeen m.now s.new (with_frames (thread_seen m.now s.old) (wrapper_frame m.now (thread_seen m.now s.old) wrapper ∷ in_phase (Loops Works) f ∷ rest)))
        (λ e. IsSeen m.now s.new (thread_seen m.now s.old)) }
{
    let place = wrapper as usize;
    let count = m.register_count(place);
    let mut values = no_values(alloc, count)?;
    let params = param_count(m, place);
    put_word(&mut values, params, 0, Word::Int(0));
    put_word(&mut values, params, 1, Word::Int(u64::from(s.answers.init)));
    let room = room_for(alloc, count)?;
    s.stay(Phase::Loops(LoopPoint::Works));
    match s.enter(place, values, room) {
        Ok(()) => Ok(()),
        Err(OutOfMemory) => {
            s.stay(Phase::Loops(LoopPoint::Considers(0, Some(wrapper))));
            Err(OutOfMemory)
        }
    }
}

/// Comes nearer to the step that acts on what the runtime's own loop was told, or leaves it, since there is no work.
fn consider(m: &Indexed, s: &mut ThreadState, inst: &Inst, left: u32, work: Option<u32>)
    requires thread { IsThread m.now s.old }
    requires stands { inst_of m.now s.old ≡ Some inst.now }
    requires long { StandsAtLong m.now s.old }
    requires within { index_of s.old + 1 < 2 ^ 64 }
    requires own { Turns (Considers left work) }
    ensures { (f : Frame) (rest : Listed Frame) → (thread_seen m.now s.old).frames ≡ f ∷ rest → IsOwn m.now s.old s.new (next_loop m.now (thread_seen m.now s.old) f rest inst.now.result (Considers left work)) (Ok (Own.Went)) }
{
    match left.checked_sub(1) {
        Some(left) => s.stay(Phase::Loops(LoopPoint::Considers(left, work))),
        None => {
            let register = result_place(m, s, inst);
            s.go_on(register, Word::Int(u64::from(s.answers.init)));
        }
    }
}

/// Makes a step in the runtime's own loop that is no event and calls no wrapper.
fn turn(m: &Indexed, s: &mut ThreadState, inst: &Inst, point: LoopPoint)
    requires thread { IsThread m.now s.old }
    requires stands { inst_of m.now s.old ≡ Some inst.now }
    requires long { StandsAtLong m.now s.old }
    requires within { index_of s.old + 1 < 2 ^ 64 }
    requires own { Turns point }
    ensures { (f : Frame) (rest : Listed Frame) → (thread_seen m.now s.old).frames ≡ f ∷ rest → IsOwn m.now s.old s.new (next_loop m.now (thread_seen m.now s.old) f rest inst.now.result point) (Ok (Own.Went)) }
{
    match point {
        LoopPoint::Considers(left, work) => consider(m, s, inst, left, work),
        LoopPoint::HasWorked => s.stay(Phase::Loops(LoopPoint::EndsRegion)),
        LoopPoint::EndsRegion => {
            s.stay(Phase::Loops(LoopPoint::HasEnded));
            end_region(s);
        }
        LoopPoint::HasEnded => s.stay(Phase::Loops(LoopPoint::Rests)),
        LoopPoint::HasRested => s.stay(Phase::Loops(LoopPoint::Sleeps)),
        LoopPoint::Sleeps | LoopPoint::Asks | LoopPoint::Works | LoopPoint::Rests => unreachable!(),
    }
}

/// Makes the next step in the midst of an instruction, unless it is an event.
pub(crate) fn continue_in(
    alloc: Global,
    m: &Indexed,
    s: &mut ThreadState,
    inst: &Inst,
    phase: Phase,
) -> Result<Own, Or<Trap>>
    requires thread { IsThread m.now s.old }
    requires stands { inst_of m.now s.old ≡ Some inst.now }
    requires long { StandsAtLong m.now s.old }
    requires within { index_of s.old + 1 < 2 ^ 64 }
    requires phase { phase_of s.old ≡ phase }
    requires midst { IsInMidst phase }
    ensures { (f : Frame) (rest : Listed Frame) → (thread_seen m.now s.old).frames ≡ f ∷ rest → IsTried (TakesIn m.now (Some inst.now) phase) m.now s.old s.new (next_in m.now (thread_seen m.now s.old) f rest (Some inst.now) phase) result }
{
    match look_in(phase) {
        Ok(Own::Went) => {}
        Ok(own) => return Ok(own),
        Err(trap) => return Err(Or::Refused(trap)),
    }
    let Phase::Loops(point) = phase else {
        unreachable!()
    };
    match wrapper_called(point) {
        Some(wrapper) => call_wrapper(alloc, m, s, wrapper)?,
        None => turn(m, s, inst, point),
    }
    Ok(Own::Went)
}
