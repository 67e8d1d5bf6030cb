//! The steps of a schedule, one after another.
ghost use Rattle.std.specs.Prelude.{◌≡◌, ◌++◌, ◌≤◌, ◌<◌, ◌^◌, List as Listed, length, Ok as OkOf, Err as ErrOf};
ghost use Rattle.interp_local.specs.Operands.{AreFew};
ghost use Rattle.interp_local.specs.Steps.{AreServed};
ghost use Rattle.interp.specs.Teams.{team_seen, IsTeam};
ghost use Rattle.replay.specs.Turns.{Turn, turns, turns_from, replayed};
ghost use Rattle.replay.specs.Replays.{TakesTurn, GoesOn, IsReplayed};

use interp::{Team, step};
use ir_core::Or;
use ir_tables::Indexed;
use mem_model::NotReady;
use run_text::{ScheduleFault, ScheduleFaultKind};
use std::alloc::Global;
use team_model::Pair;

/// Makes one step of a thread, where so many are left, and answers how many are left then.
fn take_turn(
    alloc: Global,
    m: &Indexed,
    team: &mut Team,
    left: u32,
    thread: u32,
) -> Result<u32, Or<ScheduleFaultKind>>
    requires threads { IsTeam m.now team.old }
    requires few { AreFew m.now }
    requires served { AreServed m.now }
    ensures { TakesTurn m.now left thread team.old team.new result }
{
    if left == 0 {
        return Err(Or::Refused(ScheduleFaultKind::OverBound));
    }
    match step(alloc, m, team, thread) {
        Ok(_) => Ok(left - 1),
        Err(Or::Refused(NotReady)) => Err(Or::Refused(ScheduleFaultKind::NotReady)),
        Err(Or::Memory) => Err(Or::Memory),
    }
}

/// Makes the steps of a pair on this line, where so many are left, and answers how many are left then.
fn run_pair(
    alloc: Global,
    m: &Indexed,
    team: &mut Team,
    bound: u32,
    pair: Pair,
    line: u32,
) -> Result<u32, Or<ScheduleFault>>
    requires threads { IsTeam m.now team.old }
    requires few { AreFew m.now }
    requires served { AreServed m.now }
    ensures { (rest : Listed Turn) → GoesOn m.now (replayed m.now bound (turns_from pair.thread line 1 pair.count ++ rest) (team_seen m.now team.old)) rest team.new result }
{
    let mut left = bound;
    for step in 0..pair.count {
        match take_turn(alloc, m, team, left, pair.thread) {
            Ok(fewer) => left = fewer,
            Err(Or::Refused(fault)) => {
                return Err(Or::Refused(ScheduleFault {
                    fault,
                    line,
                    step: step + 1,
                }));
            }
            Err(Or::Memory) => return Err(Or::Memory),
        }
    }
    Ok(left)
}

/// Makes the steps of a schedule's pairs, so many at the most.
///
/// # Errors
///
/// The first step that is above the bound, or else for which its thread isn't ready; or for want of memory.
pub fn replay(
    alloc: Global,
    m: &Indexed,
    team: &mut Team,
    steps: u32,
    pairs: &[Pair],
) -> Result<(), Or<ScheduleFault>>
    requires threads { IsTeam m.now team.old }
    requires few { AreFew m.now }
    requires served { AreServed m.now }
    requires lines { length pairs.now < 2 ^ 31 }
    ensures { IsReplayed m.now (replayed m.now steps (turns 1 pairs.now) (team_seen m.now team.old)) team.new result }
{
    let mut left = steps;
    for (at, pair) in pairs.iter().enumerate() {
        left = run_pair(alloc, m, team, left, *pair, at as u32 + 1)?;
    }
    Ok(())
}
