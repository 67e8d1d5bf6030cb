//! A thread's own steps one after another, up to its next event.
ghost use Rattle.std.specs.Prelude.{◌≡◌, ℕ, IsSome, List, [], ◌∷◌, Option, Some, Ok, Err, MatchResult};
ghost use Rattle.ir_core.specs.declared.instructions.Typed.{Typed};
ghost use Rattle.ir_core.specs.declared.module.Module.{Module};
ghost use Rattle.ir_core.specs.Places.{Name};
ghost use Rattle.mem_model.specs.Answers.{IsCell};
ghost use Rattle.mem_model.specs.declared.memory.Word.{Word as SpecWord};
ghost use Rattle.mem_model.specs.Thread.{Frame, InStack, where_is};
ghost use Rattle.mem_model.specs.Entries.{gets_shared};
ghost use Rattle.mem_model.specs.Next.{Next, loads, stores, updates, returns};
ghost use Rattle.thread_state.specs.Seen.{thread_seen, IsThread};
ghost use Rattle.interp_local.specs.Operands.{AreFew};
ghost use Rattle.interp_local.specs.Actions.{IsAction, IsChange, arguments, acted};
ghost use Rattle.interp_local.specs.Steps.{AreServed, inst_of};
ghost use Rattle.interp_local.specs.Runs.{Tells, IsRan, HasRunShort, is_went, pause_seen, tried};

use crate::actions::{Action, Change, decide};
use crate::calls::look_call;
use crate::heap::look_release;
use crate::phases::{look_in, phase};
use crate::phis::look_jump;
use crate::steps::{Own, Part, Spot, Stepped, inst_at, look_fork, next, part_of};
use ir_core::{Inst, Or, OutOfMemory};
use ir_tables::Indexed;
use mem_model::{Cell, Phase, Ptr, Trap, Word};
use std::alloc::Global;
use thread_state::ThreadState;

/// Why a run of own steps has paused.
#[derive(Clone, Copy)]
pub enum Pause {
    /// The next step is an event.
    Event,
    /// The next step is the thread's own, and so many have been made as were allowed.
    Limit,
    /// The thread has ended.
    Done,
    /// The next step traps.
    Trapped(Trap),
}

/// How many own steps were made, and why there are no more.
#[derive(Clone, Copy)]
pub struct Ran {
    pub steps: u32,
    pub pause: Pause,
}

/// Whether a load from a block of a stack goes.
fn look_load_own(s: &ThreadState, spot: Spot, cell: Cell) -> Stepped
    requires { IsCell cell }
    ensures { (m : Module) (x : Option Name) (f : Frame) (rest : List Frame) → IsThread m s.now → (thread_seen m s.now).frames ≡ f ∷ rest → Tells (loads (thread_seen m s.now) f rest x cell (InStack (spot.thread, spot.number) spot.offset)) result }
{
    if spot.thread != s.own {
        return Err(Trap::NoBlock);
    }
    let _word = s.load(spot.number, spot.offset, cell)?;
    Ok(Own::Went)
}

/// Whether a load goes.
fn look_load(s: &ThreadState, at: Ptr, cell: Cell) -> Stepped
    requires { IsCell cell }
    ensures { (m : Module) (x : Option Name) (f : Frame) (rest : List Frame) → IsThread m s.now → (thread_seen m s.now).frames ≡ f ∷ rest → Tells (loads (thread_seen m s.now) f rest x cell (where_is at)) result }
{
    match part_of(at) {
        Part::Stack(spot) => look_load_own(s, spot, cell),
        Part::Elsewhere => Ok(Own::Event),
    }
}

/// Whether a store in a block of a stack goes.
fn look_store_own(s: &ThreadState, spot: Spot, cell: Cell) -> Stepped
    ensures { (m : Module) (word : SpecWord) (f : Frame) (rest : List Frame) → IsThread m s.now → (thread_seen m s.now).frames ≡ f ∷ rest → Tells (stores (thread_seen m s.now) f rest cell word (InStack (spot.thread, spot.number) spot.offset)) result }
{
    if spot.thread != s.own {
        return Err(Trap::NoBlock);
    }
    s.reaches(spot.number, spot.offset, cell)?;
    Ok(Own::Went)
}

/// Whether a store goes.
fn look_store(s: &ThreadState, at: Ptr, cell: Cell) -> Stepped
    ensures { (m : Module) (word : SpecWord) (f : Frame) (rest : List Frame) → IsThread m s.now → (thread_seen m s.now).frames ≡ f ∷ rest → Tells (stores (thread_seen m s.now) f rest cell word (where_is at)) result }
{
    match part_of(at) {
        Part::Stack(spot) => look_store_own(s, spot, cell),
        Part::Elsewhere => Ok(Own::Event),
    }
}

/// Whether the address of the capture area can be stored.
fn look_share(s: &ThreadState, at: Ptr) -> Stepped
    ensures { (m : Module) (f : Frame) (rest : List Frame) → IsThread m s.now → (thread_seen m s.now).frames ≡ f ∷ rest → Tells (gets_shared (thread_seen m s.now) f rest at) result }
{
    match part_of(at) {
        Part::Stack(spot) => look_store_own(s, spot, Cell::Ptr),
        Part::Elsewhere => Err(Trap::NotStack),
    }
}

/// Whether an atomic change in a block of a stack goes.
fn look_update_own(s: &ThreadState, spot: Spot, change: Change) -> Stepped
    requires { IsChange change }
    ensures { (m : Module) (x : Option Name) (f : Frame) (rest : List Frame) → IsThread m s.now → (thread_seen m s.now).frames ≡ f ∷ rest → Tells (updates (thread_seen m s.now) f rest x change.width change.op change.number (InStack (spot.thread, spot.number) spot.offset)) result }
{
    if spot.thread != s.own {
        return Err(Trap::NoBlock);
    }
    let cell = Cell::Int(change.width);
    let Word::Int(_) = s.load(spot.number, spot.offset, cell)? else {
        return Err(Trap::Unreachable);
    };
    s.reaches(spot.number, spot.offset, cell)?;
    Ok(Own::Went)
}

/// Whether an atomic change goes.
fn look_update(s: &ThreadState, at: Ptr, change: Change) -> Stepped
    requires { IsChange change }
    ensures { (m : Module) (x : Option Name) (f : Frame) (rest : List Frame) → IsThread m s.now → (thread_seen m s.now).frames ≡ f ∷ rest → Tells (updates (thread_seen m s.now) f rest x change.width change.op change.number (where_is at)) result }
{
    match part_of(at) {
        Part::Stack(spot) => look_update_own(s, spot, change),
        Part::Elsewhere => Ok(Own::Event),
    }
}

/// Whether a return is the thread's own step.
fn look_return(s: &ThreadState) -> Own
    ensures { (m : Module) (word : Option SpecWord) (f : Frame) (rest : List Frame) → (thread_seen m s.now).frames ≡ f ∷ rest → Tells (returns (thread_seen m s.now) rest f.code.back word) (Ok result) }
{
    if s.frames.len() < 2 {
        Own::Event
    } else {
        Own::Went
    }
}

/// What an action would be, where there is memory.
fn look_at(alloc: Global, m: &Indexed, s: &ThreadState, inst: &Inst, action: Action) -> Stepped
    requires thread { IsThread m.now s.now }
    requires few { AreFew m.now }
    requires stands { inst_of m.now s.now ≡ Some inst.now }
    requires action { IsAction action }
    ensures { (f : Frame) (rest : List Frame) → (thread_seen m.now s.now).frames ≡ f ∷ rest → Tells (acted m.now (thread_seen m.now s.now) f rest inst.now.result (arguments inst.now.kind) action) result }
{
    match action {
        Action::Gives(_) | Action::Passes | Action::Allocates(_) | Action::Outside => Ok(Own::Went),
        Action::StartsLoop => Ok(Own::Went),
        Action::Loads(at, cell) => look_load(s, at, cell),
        Action::Stores(at, cell, _) => look_store(s, at, cell),
        Action::Shares(at) => look_share(s, at),
        Action::Deinit | Action::Arrives(_) | Action::Prints(_) | Action::Makes(_) | Action::Asks =>
            Ok(Own::Event),
        Action::Forks(fork, words) => look_fork(alloc, s, fork, words),
        Action::Releases(at, _) => look_release(at),
        Action::Jumps(block) => look_jump(m, s, block),
        Action::Returns(_) => Ok(look_return(s)),
        Action::Updates(at, change) => look_update(s, at, change),
        Action::Calls(place) => look_call(m, s, inst, place),
    }
}

/// What the next step of a thread would be, where there is memory for it; nothing changes.
///
/// # Errors
///
/// The trap of the step.
pub fn look(alloc: Global, m: &Indexed, s: &ThreadState) -> Result<Own, Trap>
    requires thread { IsThread m.now s.now }
    requires few { AreFew m.now }
    requires served { AreServed m.now }
    ensures { Tells (Next m.now (thread_seen m.now s.now)) result }
{
    if s.frames.is_empty() {
        return Ok(Own::Done);
    }
    let Some(inst) = inst_at(m, s) else {
        return Err(Trap::Unreachable);
    };
    match phase(s) {
        Phase::Begins => look_at(alloc, m, s, inst, decide(m, s, &inst.kind)?),
        phase => look_in(phase),
    }
}

/// Whether a step was made.
fn went(own: Result<Own, Trap>) -> bool
    ensures { result ≡ is_went own }
{
    matches!(own, Ok(Own::Went))
}

/// Why a run pauses where its next step is this one.
fn pause_of(own: Result<Own, Trap>) -> Pause
    ensures { result ≡ pause_seen own }
{
    match own {
        Ok(Own::Went) => Pause::Limit,
        Ok(Own::Event) => Pause::Event,
        Ok(Own::Done) => Pause::Done,
        Err(trap) => Pause::Trapped(trap),
    }
}

/// What a step has answered, but for want of memory.
fn answered(own: Result<Own, Or<Trap>>) -> Result<Result<Own, Trap>, OutOfMemory>
    ensures { MatchResult result (λ answer. own ≡ tried answer) (λ e. own ≡ Err (Or.Memory)) }
{
    match own {
        Ok(own) => Ok(Ok(own)),
        Err(Or::Refused(trap)) => Ok(Err(trap)),
        Err(Or::Memory) => Err(OutOfMemory),
    }
}

/// Makes own steps of a thread, `limit` of them at most, until its next step is an event or a trap, or it has ended.
///
/// Only a call of a function with blocks and a new block of the stack take memory.
///
/// # Errors
///
/// For want of memory: the thread then stands behind some of its steps, at an instruction that takes memory.
pub fn local_run(
    alloc: Global,
    m: &Indexed,
    s: &mut ThreadState,
    limit: u32,
) -> Result<Ran, OutOfMemory>
    requires thread { IsThread m.now s.old }
    requires few { AreFew m.now }
    requires served { AreServed m.now }
    ensures { MatchResult result (IsRan m.now s.old s.new limit) (λ e. HasRunShort m.now s.old s.new limit) }
{
    let mut steps = 0;
    while steps < limit {
        let own = answered(next(alloc, m, s))?;
        if !went(own) {
            return Ok(Ran {
                steps,
                pause: pause_of(own),
            });
        }
        steps += 1;
    }
    Ok(Ran {
        steps,
        pause: pause_of(look(alloc, m, s)),
    })
}
