//! A team of machine threads, step by step.
ghost use Rattle.std.specs.Prelude.{◌≡◌, ℕ, true, None, Some};
ghost use Rattle.std.specs.List.{list_all};
ghost use Rattle.ir_core.specs.declared.module.Module.{Module};
ghost use Rattle.mem_model.specs.Next.{Next, line_at};
ghost use Rattle.team_model.specs.Team as spec;
ghost use Rattle.thread_state.specs.Seen.{thread_seen, IsThread};
ghost use Rattle.interp_local.specs.Operands.{AreFew};
ghost use Rattle.interp_local.specs.Steps.{AreServed};
ghost use Rattle.interp.specs.Events.{IsPending};
ghost use Rattle.captures.specs.Published.{IsArea};
ghost use Rattle.interp.specs.Teams.{team_seen, IsTeam, HasAdvanced, HasStepped, is_running};

use crate::events::event;
use crate::shared::{Answer, TeamShared};
use interp_local::{Own, inst_at, next};
use ir_core::{List, Or};
use ir_tables::Indexed;
use mem_model::{End, Memory, Moved, NotReady};
use std::alloc::Global;
use team_model::{Stand, Trapping};
use thread_state::ThreadState;

/// A team of machine threads, in the order of their numbers.
#[derive(Drop)]
pub struct Team {
    pub shared: TeamShared,
    pub threads: Vec<ThreadState>,
}

/// Whether a thread has ended.
fn is_gone(stand: Stand) -> bool
    ensures { result ≡ spec.is_gone stand }
{
    matches!(stand, Stand::Ended)
}

/// Whether a thread has ended or waits.
fn is_held(stand: Stand) -> bool
    ensures { result ≡ spec.is_held stand }
{
    !matches!(stand, Stand::Runs)
}

/// Whether all threads have ended.
fn all_gone(stands: &[Stand]) -> bool
    ensures { result ≡ list_all spec.is_gone stands.now }
{
    stands.iter().all(|stand| is_gone(*stand))
}

/// Whether each thread has ended or waits.
fn all_held(stands: &[Stand]) -> bool
    ensures { result ≡ list_all spec.is_held stands.now }
{
    stands.iter().all(|stand| is_held(*stand))
}

/// How a team with these stands stands.
fn end_of(stands: &[Stand]) -> End
    ensures { result ≡ spec.end_by None (list_all spec.is_gone stands.now) (list_all spec.is_held stands.now) }
{
    if all_gone(stands) {
        return End::Ended;
    }
    if all_held(stands) {
        End::Stuck
    } else {
        End::Running
    }
}

impl Team {
    /// How the team stands: trapped after a trap; ended when all threads have ended; stuck when it is neither and each thread
    /// that has not ended waits. It takes no memory.
    pub fn end(&self) -> End
        ensures { (m : Module) → result ≡ spec.team_end (team_seen m self.now) }
    {
        match self.shared.trapped {
            Some(trapping) => End::Trapped {
                thread: trapping.thread,
                line: trapping.line,
                trap: trapping.trap,
            },
            None => end_of(self.shared.stands.as_slice()),
        }
    }

    /// The printed values in their order. It takes no memory.
    pub fn prints(&self) -> &List<u64>
        ensures { (m : Module) → result.now ≡ (team_seen m self.now).shared.common.prints }
    {
        &self.shared.prints
    }

    /// The memory. It takes no memory.
    pub fn memory(&self) -> &Memory
        ensures { (m : Module) → result.now ≡ (team_seen m self.now).shared.common.memory }
    {
        &self.shared.memory
    }
}

/// The line of the instruction whose step is next; 0 where there is none.
fn line_of(m: &Indexed, s: &ThreadState) -> u32
    ensures { result ≡ line_at m.now (thread_seen m.now s.now) }
{
    match inst_at(m, s) {
        None => 0,
        Some(inst) => inst.line,
    }
}

/// Makes the pending event of a thread.
fn happen(
    alloc: Global,
    m: &Indexed,
    sh: &mut TeamShared,
    s: &mut ThreadState,
    thread: u32,
) -> Result<Moved, Or<NotReady>>
    requires state { IsThread m.now s.old }
    requires few { AreFew m.now }
    requires served { AreServed m.now }
    requires pending { IsPending (Next m.now (thread_seen m.now s.old)) }
    requires running { is_running sh.old thread ≡ true }
    requires area { IsArea sh.old.memory }
    ensures { HasAdvanced m.now thread sh.old sh.new s.old s.new result }
{
    match event(alloc, m, sh, s, thread, 0)? {
        Answer::Went | Answer::Wait => Ok(Moved::Event),
        Answer::Trapped(_) => Ok(Moved::Trapped),
    }
}

/// Makes the next step of a thread that runs.
fn advance(
    alloc: Global,
    m: &Indexed,
    sh: &mut TeamShared,
    s: &mut ThreadState,
    thread: u32,
) -> Result<Moved, Or<NotReady>>
    requires state { IsThread m.now s.old }
    requires few { AreFew m.now }
    requires served { AreServed m.now }
    requires running { is_running sh.old thread ≡ true }
    requires area { IsArea sh.old.memory }
    ensures { HasAdvanced m.now thread sh.old sh.new s.old s.new result }
{
    match next(alloc, m, s) {
        Ok(Own::Went) => Ok(Moved::Local),
        Ok(Own::Event) => happen(alloc, m, sh, s, thread),
        Ok(Own::Done) => Err(Or::Refused(NotReady)),
        Err(Or::Memory) => Err(Or::Memory),
        Err(Or::Refused(trap)) => {
            sh.trapped = Some(Trapping {
                thread,
                line: line_of(m, s),
                trap,
            });
            Ok(Moved::Trapped)
        }
    }
}

/// Whether nothing has trapped, and the thread has not ended and doesn't wait.
fn is_ready(sh: &TeamShared, thread: u32) -> bool
    ensures { result ≡ is_running sh.now thread }
{
    match sh.trapped {
        Some(_) => false,
        None => matches!(sh.stands.get(thread as usize), Some(Stand::Runs)),
    }
}

/// Makes one step of a thread of a team. Other threads' states don't change.
///
/// # Errors
///
/// `NotReady` exactly where there is no such thread, it has ended or waits, or the run has trapped. Then all is as it was; and
/// so it is, in what it means, for want of memory.
pub fn step(alloc: Global, m: &Indexed, t: &mut Team, thread: u32) -> Result<Moved, Or<NotReady>>
    requires team { IsTeam m.now t.old }
    requires few { AreFew m.now }
    requires served { AreServed m.now }
    ensures { HasStepped m.now thread t.old t.new result }
{
    if !is_ready(&t.shared, thread) {
        return Err(Or::Refused(NotReady));
    }
    let at = thread as usize;
    if at >= t.threads.len() {
        return Err(Or::Refused(NotReady));
    }
    advance(alloc, m, &mut t.shared, &mut t.threads[at], thread)
}
