//! The lines on the notes for a launch and a schedule that are refused.
ghost use Rattle.std.specs.Prelude.{◌≡◌, ◌++◌, codes, decimal, IfOk, OnOk};
ghost use Rattle.replay.specs.FaultNotes.{launch_fault_name, schedule_fault_name, launch_note, schedule_note};

use ir_core::{List, OutOfMemory};
use itoa::Buffer;
use run_text::{LaunchFault, LaunchFaultKind, ScheduleFault, ScheduleFaultKind};
use std::alloc::Global;

fn launch_fault_name(fault: LaunchFaultKind) -> &'static [u8]
    ensures { result.now ≡ launch_fault_name fault }
{
    match fault {
        LaunchFaultKind::LineForm => b"line_form",
        LaunchFaultKind::NoKernel => b"no_kernel",
        LaunchFaultKind::ThreadsRange => b"threads_range",
        LaunchFaultKind::StepsRange => b"steps_range",
        LaunchFaultKind::ArgumentCount => b"argument_count",
        LaunchFaultKind::ArgumentForm => b"argument_form",
        LaunchFaultKind::ArgumentSize => b"argument_size",
        LaunchFaultKind::TextSize => b"text_size",
    }
}

fn schedule_fault_name(fault: ScheduleFaultKind) -> &'static [u8]
    ensures { result.now ≡ schedule_fault_name fault }
{
    match fault {
        ScheduleFaultKind::LineForm => b"line_form",
        ScheduleFaultKind::ThreadRange => b"thread_range",
        ScheduleFaultKind::NotReady => b"not_ready",
        ScheduleFaultKind::OverBound => b"over_bound",
        ScheduleFaultKind::TextSize => b"text_size",
    }
}

/// A text, and a number behind it.
fn write_number(out: &mut Vec<u8>, front: &[u8], number: u32) -> Result<(), OutOfMemory>
    ensures { OnOk result (out.new.items ≡ out.old.items ++ (front.now ++ decimal number)) }
{
    let mut digits = Buffer::new();
    out.extend_from_slice(front)?;
    out.extend_from_slice(digits.format(number).as_bytes())?;
    Ok(())
}

/// The line for a launch that is refused.
pub fn launch_note(alloc: Global, fault: LaunchFault) -> Result<List<u8>, OutOfMemory>
    ensures { IfOk result (λ line. line ≡ launch_note fault) }
{
    let mut out = Vec::from_slice(alloc, b"ompopt: launch: ")?;
    out.extend_from_slice(launch_fault_name(fault.fault))?;
    write_number(&mut out, b" at line ", fault.line)?;
    out.extend_from_slice(b"\n")?;
    Ok(List::from_vec(out))
}

/// The line for a schedule that is refused.
pub fn schedule_note(alloc: Global, fault: ScheduleFault) -> Result<List<u8>, OutOfMemory>
    ensures { IfOk result (λ line. line ≡ schedule_note fault) }
{
    let mut out = Vec::from_slice(alloc, b"ompopt: schedule: ")?;
    out.extend_from_slice(schedule_fault_name(fault.fault))?;
    write_number(&mut out, b" at line ", fault.line)?;
    write_number(&mut out, b" step ", fault.step)?;
    out.extend_from_slice(b"\n")?;
    Ok(List::from_vec(out))
}
