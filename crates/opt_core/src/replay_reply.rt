//! Replies to a replay: what the steps of a schedule make of the team of the optimised module, or the refusal of a launch or a schedule.
ghost use Rattle.std.specs.Prelude.{◌≡◌, ◌<◌, ◌≤◌, ◌^◌, length, IfOk, None};
ghost use Rattle.ir_core.specs.declared.module.Module.{Module as ModuleData};
ghost use Rattle.ir_core.specs.MachineOff.{machine_off};
ghost use Rattle.shapes.specs.Refusals.{unbuilt};
ghost use Rattle.team_model.specs.Team.{team_start};
ghost use Rattle.interp.specs.Teams.{team_seen, IsTeam};
ghost use Rattle.interp_local.specs.Operands.{AreFew};
ghost use Rattle.replay.specs.Turns.{ReplayOf};
ghost use Rattle.replay.specs.FaultNotes as notes_of;
ghost use Rattle.opt_core.specs.Answer.{IsNote};
ghost use Rattle.opt_core.specs.Replay.{IsRunReply, IsScheduleReply};
ghost use Rattle.opt_core.specs.ReplayStages.{IsReported};

use crate::optimiser::optimise;
use crate::reply::{Reply, note_reply};
use checked_modules::Checked;
use interp::Team;
use ir_core::{List, Module, Or, OutOfMemory};
use mem_model::Launch;
use out_modules::OutModule;
use replay::{end_status, launch_note, replay, report_of, schedule_note};
use run_text::{LaunchFault, RunMode, ScheduleFault, print_report, read_schedule};
use std::alloc::Global;
use team_model::Pair;

/// The reply to a launch that is refused.
pub fn launch_refused(alloc: Global, fault: LaunchFault) -> Result<Reply, OutOfMemory>
    ensures { IfOk result (λ r. IsNote 4 (notes_of.launch_note fault) r.status r.out r.notes) }
{
    Ok(note_reply(alloc, 4, launch_note(alloc, fault)?))
}

/// The reply to a schedule that is refused.
fn schedule_refused(alloc: Global, fault: ScheduleFault) -> Result<Reply, OutOfMemory>
    ensures { IfOk result (λ r. IsNote 4 (notes_of.schedule_note fault) r.status r.out r.notes) }
{
    Ok(note_reply(alloc, 4, schedule_note(alloc, fault)?))
}

/// The report of a team that has come to its state by this schedule.
fn reported(
    alloc: Global,
    m: &Module,
    l: &Launch,
    team: Team,
    pairs: List<Pair>,
) -> Result<Reply, OutOfMemory>
    requires globals { length m.now.globals ≤ 2 ^ 32 }
    requires args { length l.now.args ≤ 2 ^ 32 }
    ensures { IfOk result (λ r. (out : ModuleData) → IsReported m.now l.now (team_seen out team) pairs r.status r.out r.notes) }
{
    let status = end_status(team.end());
    let report = report_of(alloc, m, l, RunMode::Empty, team, pairs)?;
    Ok(Reply {
        status,
        out: print_report(alloc, m, &report)?,
        notes: List::new(alloc),
    })
}

/// The reply to a schedule, by its pairs, for the team at its start.
fn replayed(
    alloc: Global,
    m: &Module,
    out: &OutModule,
    l: &Launch,
    team: Team,
    pairs: List<Pair>,
) -> Result<Reply, OutOfMemory>
    requires out { out.now ≡ machine_off m.now }
    requires built { unbuilt m.now ≡ None }
    requires start { team_seen out.now team ≡ team_start out.now l.now }
    requires threads { IsTeam out.now team }
    requires few { AreFew out.now }
    requires args { length l.now.args ≤ 2 ^ 32 }
    requires lines { length pairs < 2 ^ 31 }
    ensures { IfOk result (λ r. IsRunReply m.now l.now pairs (ReplayOf (machine_off m.now) l.now pairs) r.status r.out r.notes) }
{
    let mut team = team;
    match replay(alloc, out.indexed(), &mut team, l.steps, pairs.as_slice()) {
        Ok(()) => reported(alloc, m, l, team, pairs),
        Err(Or::Refused(fault)) => schedule_refused(alloc, fault),
        Err(Or::Memory) => Err(OutOfMemory),
    }
}

/// How many threads a team has; want of memory for 2^32 or more.
fn thread_count(team: &Team) -> Result<u32, OutOfMemory>
    ensures { IfOk result (λ n. n ≡ length team.now.threads.items) }
{
    match u32::try_from(team.threads.len()) {
        Ok(count) => Ok(count),
        Err(_) => Err(OutOfMemory),
    }
}

/// The reply to the text of a schedule, for a launch of the optimised module.
fn reply_of(
    alloc: Global,
    m: &Module,
    out: &OutModule,
    l: &Launch,
    text: &[u8],
) -> Result<Reply, OutOfMemory>
    requires out { out.now ≡ machine_off m.now }
    requires built { unbuilt m.now ≡ None }
    ensures { IfOk result (λ r. IsScheduleReply m.now l.now text.now r.status r.out r.notes) }
{
    let team = Team::start(alloc, out.indexed(), l)?;
    let threads = thread_count(&team)?;
    match read_schedule(alloc, text, threads) {
        Ok(pairs) => replayed(alloc, m, out, l, team, pairs),
        Err(Or::Refused(fault)) => schedule_refused(alloc, fault),
        Err(Or::Memory) => Err(OutOfMemory),
    }
}

/// The reply to the text of a schedule, for a launch of a module: the report of the optimised module's team after the schedule's
/// steps, or the refusal of the schedule.
pub fn reply_to_schedule(
    alloc: Global,
    m: &Checked,
    l: &Launch,
    text: &[u8],
) -> Result<Reply, OutOfMemory>
    requires { unbuilt m.now ≡ None }
    ensures { IfOk result (λ r. IsScheduleReply m.now l.now text.now r.status r.out r.notes) }
{
    let optimised = optimise(alloc, m)?;
    reply_of(alloc, m.module(), &optimised.module, l, text)
}
