//! A thread's pending event.
ghost use Rattle.std.specs.Prelude.{◌≡◌, ℕ, ◌+◌, ◌<◌, ◌≤◌, ◌^◌, List, ◌∷◌, Option, Some, None, length, slice_get, slice_set, MatchResult};
ghost use Rattle.ir_core.specs.declared.module.Module.{Module};
ghost use Rattle.ir_core.specs.declared.instructions.Typed.{Typed};
ghost use Rattle.ir_core.specs.Places.{Name};
ghost use Rattle.mem_model.specs.declared.memory.Cell.TheVariants.{Int as IntCell};
ghost use Rattle.mem_model.specs.Answers.{IsCell, IsOf};
ghost use Rattle.mem_model.specs.Values.{updated};
ghost use Rattle.mem_model.specs.Update.{Update};
ghost use Rattle.mem_model.specs.Thread.{Frame, given_of};
ghost use Rattle.mem_model.specs.Next.{Event, Does, Deinit, Arrives, AsksForWork, Prints, Leaves, Loads, Stores, Updates, Pending, next_in, Next};
ghost use Rattle.mem_model.specs.declared.phase.Phase.TheVariants.{Begins, Loops};
ghost use Rattle.mem_model.specs.declared.phase.LoopPoint.TheVariants.{Asks};
ghost use Rattle.ir_core.specs.declared.instructions.Inst.{Inst};
ghost use Rattle.team_model.specs.Team.{opened};
ghost use Rattle.mem_model.specs.Work.{next_loop};
ghost use Rattle.interp_local.specs.Phases.{IsInMidst};
ghost use Rattle.thread_state.specs.declared.state.ThreadState.{ThreadState as ThreadData};
ghost use Rattle.thread_state.specs.Seen.{thread_seen, IsThread, StandsAtLong, Occurs};
ghost use Rattle.thread_state.specs.Moves.{index_of};
ghost use Rattle.interp_local.specs.Operands.{AreFew};
ghost use Rattle.captures.specs.Published.{IsArea};
ghost use Rattle.interp_local.specs.declared.actions.Action.TheVariants.{Forks as ForksAction};
ghost use Rattle.interp_local.specs.Actions.{IsAction, IsChange, IsFork, IsLong, acted};
ghost use Rattle.interp_local.specs.Steps.{AreServed, inst_of, phase_of};
ghost use Rattle.interp.specs.Events.{IsHere, IsPending, IsUpdated, Makes, WantsMemory, IsMadeOrSame, HasHappened, answer_of};

use crate::barriers::open;
use crate::heaps::{make, release};
use crate::shared::{Answer, TeamShared};
use crate::work::ask;
use captures::{Fork, captured, publish};
use interp_local::{Action, Change, begin_region, decide, inst_at, phase, result_place};
use ir_core::{Inst, OutOfMemory};
use ir_tables::Indexed;
use mem_model::{Cell, LoopPoint, Memory, Phase, Ptr, Trap, Word, updated};
use std::alloc::Global;
use team_model::{Barrier, Pair, Stand, Trapping};
use thread_state::ThreadState;

/// Which thread makes an event, the line of its instruction, and the register that takes a result.
#[derive(Clone, Copy)]
pub(crate) struct Here {
    pub(crate) thread: u32,
    pub(crate) line: u32,
    pub(crate) register: Option<usize>,
}

/// Ends the run by a trap.
pub(crate) fn traps(sh: &mut TeamShared, here: Here, trap: Trap)
    ensures { sh.new ≡ record sh.old { trapped = Some (record { thread = here.thread; line = here.line; trap = trap }) } }
{
    sh.trapped = Some(Trapping {
        thread: here.thread,
        line: here.line,
        trap,
    });
}

/// Loads from shared memory.
fn load(sh: &mut TeamShared, s: &mut ThreadState, here: Here, at: Ptr, cell: Cell)
    requires cell { IsCell cell }
    requires within { index_of s.old + 1 < 2 ^ 64 }
    requires runs { sh.old.trapped ≡ None }
    ensures { (m : Module) (x : Option Name) (f : Frame) (rest : List Frame) → IsHere m s.old x here f rest → Makes m here.thread sh.old sh.new s.old s.new (Does (Loads at cell)) }
{
    match sh.memory.read(&at, cell) {
        Ok(word) => {
            s.go_on(here.register, word);
        }
        Err(trap) => traps(sh, here, trap),
    }
}

/// Stores in shared memory.
fn store(sh: &mut TeamShared, s: &mut ThreadState, here: Here, at: Ptr, cell: Cell, word: Word)
    requires cell { IsCell cell }
    requires word { IsOf cell word }
    requires within { index_of s.old + 1 < 2 ^ 64 }
    requires runs { sh.old.trapped ≡ None }
    ensures { (m : Module) (x : Option Name) (f : Frame) (rest : List Frame) → IsHere m s.old x here f rest → Makes m here.thread sh.old sh.new s.old s.new (Does (Stores at cell (given_of word))) }
{
    match sh.memory.write(&at, cell, word) {
        Ok(()) => s.go_past(),
        Err(trap) => traps(sh, here, trap),
    }
}

/// Changes a number in shared memory atomically, and tells the number that stood there.
fn change_at(memory: &mut Memory, at: Ptr, change: Change) -> Result<u64, Trap>
    requires { IsChange change }
    ensures { IsUpdated (Update memory.old at (IntCell change.width) (λ old. updated change.op change.width old change.number)) memory.old memory.new result }
{
    let cell = Cell::Int(change.width);
    memory.reaches(&at, cell)?;
    let Word::Int(old) = memory.read(&at, cell)? else {
        return Err(Trap::NotNumber);
    };
    let new = updated(change.op, change.width, old, change.number);
    memory.write(&at, cell, Word::Int(new))?;
    Ok(old)
}

/// Changes a number in shared memory atomically, and goes on with the number that stood there.
fn update(sh: &mut TeamShared, s: &mut ThreadState, here: Here, at: Ptr, change: Change)
    requires change { IsChange change }
    requires within { index_of s.old + 1 < 2 ^ 64 }
    requires runs { sh.old.trapped ≡ None }
    ensures { (m : Module) (x : Option Name) (f : Frame) (rest : List Frame) → IsHere m s.old x here f rest → Makes m here.thread sh.old sh.new s.old s.new (Does (Updates at change.width change.op change.number)) }
{
    match change_at(&mut sh.memory, at, change) {
        Ok(old) => {
            s.go_on(here.register, Word::Int(old));
        }
        Err(trap) => traps(sh, here, trap),
    }
}

/// How many steps the runtime's own loop makes before the one that acts on what it was told: with work, and without.
const STEPS_WITH_WORK: u32 = 4;

const STEPS_WITHOUT: u32 = 2;

/// Ends the work of a generic kernel's team; in SPMD mode it does nothing.
fn deinit(sh: &mut TeamShared, s: &mut ThreadState)
    requires within { index_of s.old + 1 < 2 ^ 64 }
    requires runs { sh.old.trapped ≡ None }
    ensures { (m : Module) (n : ℕ) (x : Option Name) (f : Frame) (rest : List Frame) → IsThread m s.old → (thread_seen m s.old).frames ≡ f ∷ rest → Makes m n sh.old sh.new s.old s.new Deinit }
{
    if s.answers.spmd != 1 {
        sh.slot = None;
    }
    s.go_past();
}

/// Ends a thread, which may complete the team's barrier.
fn leave(sh: &mut TeamShared, thread: u32)
    requires there { thread < length sh.old.stands }
    requires runs { sh.old.trapped ≡ None }
    ensures { (m : Module) (s : ThreadData) → IsThread m s → Makes m thread sh.old sh.new s s Leaves }
{
    sh.stands.set(thread as usize, Stand::Ended);
    open(&mut sh.stands, Barrier::Team, 0);
}

/// Lets a thread wait at a barrier, which opens if it is now complete.
fn wait(sh: &mut TeamShared, s: &ThreadState, thread: u32, kind: Barrier)
    requires there { thread < length sh.old.stands }
    ensures { sh.new ≡ record sh.old { stands = opened kind s.now.answers.count (slice_set sh.old.stands thread (Stand.Waits kind)) } }
{
    sh.stands.set(thread as usize, Stand::Waits(kind));
    open(&mut sh.stands, kind, s.answers.count);
}

/// Lets a thread wait at a barrier, behind which it goes past its instruction.
fn arrive(sh: &mut TeamShared, s: &mut ThreadState, thread: u32, kind: Barrier)
    requires there { thread < length sh.old.stands }
    requires within { index_of s.old + 1 < 2 ^ 64 }
    ensures { (m : Module) (f : Frame) (rest : List Frame) → IsThread m s.old → (thread_seen m s.old).frames ≡ f ∷ rest → Makes m thread sh.old sh.new s.old s.new (Arrives kind None) }
{
    wait(sh, s, thread, kind);
    s.go_past();
}

/// Lets a thread wait at the team's barrier, behind which it stands in its instruction in a further phase.
fn arrive_in(sh: &mut TeamShared, s: &mut ThreadState, thread: u32, phase: Phase)
    requires there { thread < length sh.old.stands }
    ensures { (m : Module) (f : Frame) (rest : List Frame) → IsThread m s.old → StandsAtLong m s.old → Occurs m phase → (thread_seen m s.old).frames ≡ f ∷ rest → Makes m thread sh.old sh.new s.old s.new (Arrives Barrier.Team (Some phase)) }
{
    wait(sh, s, thread, Barrier::Team);
    s.stay(phase);
}

/// Tells the runtime's own loop the published work.
fn tell(sh: &TeamShared, s: &mut ThreadState)
    ensures { (m : Module) (n : ℕ) (f : Frame) (rest : List Frame) → IsThread m s.old → StandsAtLong m s.old → phase_of s.old ≡ Loops Asks → (thread_seen m s.old).frames ≡ f ∷ rest → Makes m n sh.now sh.now s.old s.new AsksForWork }
{
    let steps = if sh.slot.is_some() {
        STEPS_WITH_WORK
    } else {
        STEPS_WITHOUT
    };
    s.stay(Phase::Loops(LoopPoint::Considers(steps, sh.slot)));
    if sh.slot.is_some() {
        begin_region(s);
    }
}

/// Makes the event of the runtime's own loop.
fn change_in_loop(sh: &mut TeamShared, s: &mut ThreadState, thread: u32, point: LoopPoint)
    requires there { thread < length sh.old.stands }
    requires phase { phase_of s.old ≡ Loops point }
    ensures { (m : Module) (f : Frame) (rest : List Frame) (x : Option Name) (e : Event) → IsThread m s.old → StandsAtLong m s.old → (thread_seen m s.old).frames ≡ f ∷ rest → next_loop m (thread_seen m s.old) f rest x point ≡ Pending e → Makes m thread sh.old sh.new s.old s.new e }
{
    match point {
        LoopPoint::Sleeps => arrive_in(sh, s, thread, Phase::Loops(LoopPoint::Asks)),
        LoopPoint::Asks => tell(sh, s),
        LoopPoint::Rests => arrive_in(sh, s, thread, Phase::Loops(LoopPoint::HasRested)),
        _ => {}
    }
}

/// Makes the event in the midst of an instruction that takes several steps.
fn change_in(sh: &mut TeamShared, s: &mut ThreadState, thread: u32, phase: Phase)
    requires there { thread < length sh.old.stands }
    requires within { index_of s.old + 1 < 2 ^ 64 }
    requires phase { phase_of s.old ≡ phase }
    ensures { (m : Module) (f : Frame) (rest : List Frame) (i : Inst) (e : Event) → IsThread m s.old → StandsAtLong m s.old → (thread_seen m s.old).frames ≡ f ∷ rest → next_in m (thread_seen m s.old) f rest (Some i) phase ≡ Pending e → IsInMidst phase → Makes m thread sh.old sh.new s.old s.new e }
{
    match phase {
        Phase::Published => arrive_in(sh, s, thread, Phase::Woken),
        Phase::Woken => arrive(sh, s, thread, Barrier::Team),
        Phase::HasLeft => arrive(sh, s, thread, Barrier::Join),
        Phase::Loops(point) => change_in_loop(sh, s, thread, point),
        _ => {}
    }
}

/// Publishes the work of a fork; a thread that enters regions itself first waits for all others.
fn fork(
    alloc: Global,
    sh: &mut TeamShared,
    s: &mut ThreadState,
    thread: u32,
    fork: Fork,
    words: Option<Word>,
)
    requires area { IsArea sh.old.memory }
    requires fits { (fork.count ≤ 64) × (fork.wrapper < 2 ^ 32) }
    requires there { thread < length sh.old.stands }
    ensures { (m : Module) (x : Option Name) (f : Frame) (rest : List Frame) (args : List Typed) (e : Event) → IsThread m s.old → StandsAtLong m s.old → (thread_seen m s.old).frames ≡ f ∷ rest
        → acted m (thread_seen m s.old) f rest x args (ForksAction fork words) ≡ Pending e → Makes m thread sh.old sh.new s.old s.new e }
{
    if s.enters {
        arrive_in(sh, s, thread, Phase::Gathered);
        return;
    }
    let Ok(words) = captured(alloc, s, words, fork.count) else {
        return;
    };
    publish(&mut sh.memory, &words);
    sh.slot = Some(fork.wrapper as u32);
    s.stay(Phase::Published);
}

/// Prints a number.
fn print(sh: &mut TeamShared, s: &mut ThreadState, number: u64) -> Result<(), OutOfMemory>
    requires within { index_of s.old + 1 < 2 ^ 64 }
    requires runs { sh.old.trapped ≡ None }
    ensures { (m : Module) (n : ℕ) (f : Frame) (rest : List Frame) → IsThread m s.old → (thread_seen m s.old).frames ≡ f ∷ rest → IsMadeOrSame m n sh.old sh.new s.old s.new (Does (Prints number)) result }
{
    sh.prints.push(number)?;
    s.go_past();
    Ok(())
}

/// Makes the event that an action is, which takes no memory and is no question for published work.
fn change(sh: &mut TeamShared, s: &mut ThreadState, here: Here, action: Action)
    requires action { IsAction action }
    requires other { WantsMemory action → ⊥ }
    requires told { action ≡ Action.Asks → ⊥ }
    requires fork { IsFork action → ⊥ }
    requires within { index_of s.old + 1 < 2 ^ 64 }
    requires runs { sh.old.trapped ≡ None }
    requires there { here.thread < length sh.old.stands }
    ensures { (m : Module) (x : Option Name) (f : Frame) (rest : List Frame) (args : List Typed) (e : Event) → IsHere m s.old x here f rest → acted m (thread_seen m s.old) f rest x args action ≡ Pending e → Makes m here.thread sh.old sh.new s.old s.new e }
{
    match action {
        Action::Loads(at, cell) => load(sh, s, here, at, cell),
        Action::Stores(at, cell, word) => store(sh, s, here, at, cell, word),
        Action::Updates(at, change) => update(sh, s, here, at, change),
        Action::Deinit => deinit(sh, s),
        Action::Arrives(kind) => arrive(sh, s, here.thread, kind),
        Action::Returns(_) => leave(sh, here.thread),
        Action::Releases(at, size) => release(sh, s, here, at, size),
        Action::Prints(_) | Action::Makes(_) | Action::Asks | Action::Forks(_, _) => unreachable!(),
        _ => {}
    }
}

/// Makes the event that an action is. `OutOfMemory` where no memory was left for a printed number or a heap
/// block; then all is as it was.
fn happen(
    alloc: Global,
    m: &Indexed,
    sh: &mut TeamShared,
    s: &mut ThreadState,
    here: Here,
    inst: &Inst,
    action: Action,
) -> Result<(), OutOfMemory>
    requires few { AreFew m.now }
    requires begins { phase_of s.old ≡ Begins }
    requires stands { inst_of m.now s.old ≡ Some inst.now }
    requires thread { IsThread m.now s.old }
    requires action { IsAction action }
    requires within { index_of s.old + 1 < 2 ^ 64 }
    requires runs { sh.old.trapped ≡ None }
    requires there { here.thread < length sh.old.stands }
    requires area { IsArea sh.old.memory }
    ensures { (x : Option Name) (f : Frame) (rest : List Frame) (args : List Typed) (e : Event) → IsHere m.now s.old x here f rest → (IsLong action → StandsAtLong m.now s.old) → acted m.now (thread_seen m.now s.old) f rest x args action ≡ Pending e → IsMadeOrSame m.now here.thread sh.old sh.new s.old s.new e result }
{
    match action {
        Action::Prints(number) => print(sh, s, number),
        Action::Makes(size) => make(sh, s, here, size),
        Action::Forks(forked, words) => {
            fork(alloc, sh, s, here.thread, forked, words);
            Ok(())
        }
        Action::Asks => {
            ask(m, sh, s, here, inst);
            Ok(())
        }
        _ => {
            change(sh, s, here, action);
            Ok(())
        }
    }
}

/// Makes the pending event of a thread where it begins an instruction.
fn begin(
    alloc: Global,
    m: &Indexed,
    sh: &mut TeamShared,
    s: &mut ThreadState,
    thread: u32,
) -> Result<(), OutOfMemory>
    requires state { IsThread m.now s.old }
    requires few { AreFew m.now }
    requires served { AreServed m.now }
    requires pending { IsPending (Next m.now (thread_seen m.now s.old)) }
    requires runs { sh.old.trapped ≡ None }
    requires there { thread < length sh.old.stands }
    requires area { IsArea sh.old.memory }
    requires begins { phase_of s.old ≡ Begins }
    ensures { (e : Event) → Next m.now (thread_seen m.now s.old) ≡ Pending e → IsMadeOrSame m.now thread sh.old sh.new s.old s.new e result }
{
    let Some(inst) = inst_at(m, s) else {
        unreachable!()
    };
    let Ok(action) = decide(m, s, &inst.kind) else {
        unreachable!()
    };
    let here = Here {
        thread,
        line: inst.line,
        register: result_place(m, s, inst),
    };
    happen(alloc, m, sh, s, here, inst, action)
}

/// Makes the pending event of a thread. `OutOfMemory` where no memory was left for a printed number; then all is as it was.
fn make_pending(
    alloc: Global,
    m: &Indexed,
    sh: &mut TeamShared,
    s: &mut ThreadState,
    thread: u32,
) -> Result<(), OutOfMemory>
    requires state { IsThread m.now s.old }
    requires few { AreFew m.now }
    requires served { AreServed m.now }
    requires pending { IsPending (Next m.now (thread_seen m.now s.old)) }
    requires runs { sh.old.trapped ≡ None }
    requires there { thread < length sh.old.stands }
    requires area { IsArea sh.old.memory }
    ensures { (e : Event) → Next m.now (thread_seen m.now s.old) ≡ Pending e → IsMadeOrSame m.now thread sh.old sh.new s.old s.new e result }
{
    match phase(s) {
        Phase::Begins => begin(alloc, m, sh, s, thread),
        phase => {
            let Some(_inst) = inst_at(m, s) else {
                unreachable!()
            };
            change_in(sh, s, thread, phase);
            Ok(())
        }
    }
}

/// What has come of an event of a thread.
fn answer(sh: &TeamShared, thread: u32) -> Answer
    ensures { result ≡ answer_of sh.now.trapped (slice_get sh.now.stands thread) }
{
    if let Some(trapping) = sh.trapped {
        return Answer::Trapped(trapping.trap);
    }
    match sh.stands.get(thread as usize) {
        Some(Stand::Waits(_)) => Answer::Wait,
        _ => Answer::Went,
    }
}

/// Makes the pending event of a thread behind so many of its own steps, and puts both into the history. Other threads' states
/// don't change.
///
/// # Errors
///
/// For want of memory, and then all is as it was.
pub fn event(
    alloc: Global,
    m: &Indexed,
    sh: &mut TeamShared,
    s: &mut ThreadState,
    thread: u32,
    local: u32,
) -> Result<Answer, OutOfMemory>
    requires state { IsThread m.now s.old }
    requires few { AreFew m.now }
    requires served { AreServed m.now }
    requires pending { IsPending (Next m.now (thread_seen m.now s.old)) }
    requires local { local < 2000000 }
    requires runs { slice_get sh.old.stands thread ≡ Some Stand.Runs }
    requires goes { sh.old.trapped ≡ None }
    requires area { IsArea sh.old.memory }
    ensures { MatchResult result (HasHappened m.now thread local sh.old sh.new s.old s.new) (λ _. (sh.new ≡ sh.old) × (s.new ≡ s.old)) }
{
    sh.history.push(Pair {
        thread,
        count: local + 1,
    })?;
    match make_pending(alloc, m, sh, s, thread) {
        Ok(()) => Ok(answer(sh, thread)),
        Err(OutOfMemory) => {
            sh.history.pop();
            Err(OutOfMemory)
        }
    }
}
