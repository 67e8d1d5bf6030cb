//! What is reported of a replay.
ghost use Rattle.std.specs.Prelude.{◌≡◌, ◌++◌, ◌≤◌, ◌^◌, length, map, IfOk, OnOk};
ghost use Rattle.mem_model.specs.Launching.{buffer_names, global_names, shown_names};
ghost use Rattle.interp.specs.Teams.{team_seen};
ghost use Rattle.replay.specs.Reports as spec;
ghost use Rattle.replay.specs.Reports.{shown};
ghost use Rattle.ir_core.specs.declared.module.Module.{Module as ModuleData};

use interp::Team;
use ir_core::{List, Module, OutOfMemory};
use mem_model::{Arg, BlockName, End, Launch, Memory, Shown};
use run_text::{Report, ReportEnd, RunMode};
use std::alloc::Global;
use team_model::Pair;

fn report_end(end: End) -> ReportEnd
    ensures { result ≡ spec.report_end end }
{
    match end {
        End::Running => ReportEnd::Unfinished,
        End::Ended => ReportEnd::Ended,
        End::Stuck => ReportEnd::Stuck,
        End::Trapped { thread, line, trap } => ReportEnd::Trapped { thread, line, trap },
    }
}

/// The status of a replay that comes to this end: 0 where it has ended, 8 where it has trapped, 9 where it is stuck, and 10 where it goes on.
pub fn end_status(end: End) -> u8
    ensures { result ≡ spec.end_status end }
{
    match end {
        End::Ended => 0,
        End::Trapped { .. } => 8,
        End::Stuck => 9,
        End::Running => 10,
    }
}

/// A block and its bytes; no bytes where there is no such block.
fn show(alloc: Global, memory: &Memory, name: BlockName) -> Result<Shown, OutOfMemory>
    ensures { IfOk result (λ s. s ≡ shown memory.now name) }
{
    if memory.contains(name) {
        memory.show(name)
    } else {
        Ok(Shown {
            name,
            bytes: List::new(alloc),
        })
    }
}

/// Shows the buffers of the arguments.
fn show_buffers(
    alloc: Global,
    memory: &Memory,
    args: &[Arg],
    out: &mut List<Shown>,
) -> Result<(), OutOfMemory>
    requires { length args.now ≤ 2 ^ 32 }
    ensures { OnOk result (out.new ≡ out.old ++ map (shown memory.now) (buffer_names 0 args.now)) }
{
    for (at, arg) in args.iter().enumerate() {
        if let Arg::Buffer(_) = arg {
            out.push(show(alloc, memory, BlockName::Arg(at as u32))?)?;
        }
    }
    Ok(())
}

/// Shows the globals that aren't constant.
fn show_globals(
    alloc: Global,
    memory: &Memory,
    globals: &[ir_core::Global],
    out: &mut List<Shown>,
) -> Result<(), OutOfMemory>
    requires { length globals.now ≤ 2 ^ 32 }
    ensures { OnOk result (out.new ≡ out.old ++ map (shown memory.now) (global_names 0 globals.now)) }
{
    for (at, global) in globals.iter().enumerate() {
        if !global.constant {
            out.push(show(alloc, memory, BlockName::Global(at as u32))?)?;
        }
    }
    Ok(())
}

/// What is shown of the memory: the buffers of the arguments, and the globals that aren't constant.
fn show_all(
    alloc: Global,
    m: &Module,
    l: &Launch,
    memory: &Memory,
) -> Result<List<Shown>, OutOfMemory>
    requires globals { length m.now.globals ≤ 2 ^ 32 }
    requires args { length l.now.args ≤ 2 ^ 32 }
    ensures { IfOk result (λ all. all ≡ map (shown memory.now) (shown_names m.now l.now)) }
{
    let mut out = List::new(alloc);
    show_buffers(alloc, memory, l.args.as_slice(), &mut out)?;
    show_globals(alloc, memory, m.globals.as_slice(), &mut out)?;
    Ok(out)
}

/// The report of a team that has come to its state by a schedule. The module is the one that was read: it names what is shown.
pub fn report_of(
    alloc: Global,
    m: &Module,
    l: &Launch,
    mode: RunMode,
    team: Team,
    schedule: List<Pair>,
) -> Result<Report, OutOfMemory>
    requires globals { length m.now.globals ≤ 2 ^ 32 }
    requires args { length l.now.args ≤ 2 ^ 32 }
    ensures { IfOk result (λ r. (out : ModuleData) → r ≡ spec.report_of m.now l.now mode (team_seen out team) schedule) }
{
    let memory = show_all(alloc, m, l, team.memory())?;
    Ok(Report {
        mode,
        threads: l.threads,
        end: report_end(team.end()),
        prints: team.shared.prints,
        memory,
        schedule,
    })
}
