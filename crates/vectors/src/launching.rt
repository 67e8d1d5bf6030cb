//! Texts of schedules with one fault each, and the text of a report.
use ir_core::{List, Module, Or, OutOfMemory};
use run_text::{Report, ReportEnd, RunMode, ScheduleFaultKind, print_report, read_schedule};
use std::alloc::{AllocError, Global};
use std::process::Abort;
use std::test::Fail;
use team_model::Pair;

/// A schedule of two threads, and how many pairs it has, or the letter of its fault and the line.
const SCHEDULES: [(&str, &str); 13] = [
    ("", "0"),
    ("1 6\n0 4", "2"),
    ("1 6\n0 4\n", "2"),
    ("0 2000000\n", "1"),
    ("0 2000001\n", "f1"),
    ("1 6\n2 1\n", "t2"),
    ("18446744073709551616 1", "t1"),
    ("1 18446744073709551617", "f1"),
    ("1 6\n\n", "f2"),
    ("01 6", "f1"),
    ("1 0", "f1"),
    ("1  6", "f1"),
    ("1", "f1"),
];

fn letter(fault: ScheduleFaultKind) -> char {
    match fault {
        ScheduleFaultKind::LineForm => 'f',
        ScheduleFaultKind::ThreadRange => 't',
        ScheduleFaultKind::NotReady => 'n',
        ScheduleFaultKind::OverBound => 'b',
        ScheduleFaultKind::TextSize => 's',
    }
}

/// What is told of a schedule of two threads.
fn told(alloc: Global, text: &str) -> Result<String, AllocError> {
    match read_schedule(alloc, text.as_bytes(), 2) {
        Ok(pairs) => format!(in alloc; "{}", pairs.len()),
        Err(Or::Refused(fault)) => format!(in alloc; "{}{}", letter(fault.fault), fault.line),
        Err(Or::Memory) => Err(AllocError),
    }
}

#[test]
fn schedules_and_their_faults(rt: HostRuntime) -> Result<(), Fail> {
    for (text, want) in SCHEDULES {
        assert!(rt; told(rt.alloc(), text)?.as_str() == want, "at {text}");
    }
    Ok(())
}

fn empty_module(alloc: Global) -> Module {
    Module {
        prelude: List::new(alloc),
        types: List::new(alloc),
        globals: List::new(alloc),
        functions: List::new(alloc),
        tail: List::new(alloc),
    }
}

/// A run by the source that has printed -1 and ended.
fn report_of(alloc: Global, schedule: List<Pair>) -> Result<Report, AllocError> {
    let mut prints = List::new(alloc);
    prints.push(u64::MAX)?;
    Ok(Report {
        mode: RunMode::Source,
        threads: 2,
        end: ReportEnd::Ended,
        prints,
        memory: List::new(alloc),
        schedule,
    })
}

/// Whether that run is reported so with a schedule.
fn is_reported(alloc: Global, schedule: List<Pair>, want: &str) -> Result<bool, OutOfMemory> {
    let report = report_of(alloc, schedule)?;
    let text = print_report(alloc, &empty_module(alloc), &report)?;
    Ok(text.as_slice() == want.as_bytes())
}

/// Whether it is reported so with the schedule of a text.
fn is_read_and_reported(alloc: Global, text: &str, want: &str) -> Result<bool, OutOfMemory> {
    match read_schedule(alloc, text.as_bytes(), 3) {
        Ok(schedule) => is_reported(alloc, schedule, want),
        Err(Or::Refused(_)) => Ok(false),
        Err(Or::Memory) => Err(OutOfMemory),
    }
}

#[test]
fn a_report_with_a_schedule(rt: HostRuntime) -> Result<(), Fail> {
    let want = "mode source\nend ended\nprint -1\nschedule 2\n1 6\nm 4\n";
    assert!(rt; is_read_and_reported(rt.alloc(), "1 6\n2 4\n", want)?);
    Ok(())
}
