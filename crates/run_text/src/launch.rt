//! The text of a launch.
ghost use Rattle.std.specs.Prelude.{◌≡◌, ◌<◌, ◌+◌, ◌^◌, Ok as OkOf, Err as ErrOf, codes, length, option_and_then, MatchResult};
ghost use Rattle.checked_modules.specs.Checked.{HasNoRefusal};
ghost use Rattle.mem_model.specs.Launching.{threads_limit, steps_limit, buffers_limit};
ghost use Rattle.run_text.specs.Lines.{behind, numeral, lines};
ghost use Rattle.run_text.specs.LaunchText.{launch_limit, kernel_line, in_range, arguments, launch_in, LaunchOf, fault_at};
ghost use Rattle.run_text.specs.Kept.{kept_lines};
ghost use Rattle.run_text.specs.Stages.{HaveWidths, behind_steps, behind_threads, behind_kernel, Told};
ghost use Rattle.run_text.specs.Replies.{Answers};

use crate::arguments::{left_behind, numeral_behind, read_arg, surplus};
use crate::kernels::kernel_named;
use crate::lines::{behind, line_count, next_kept};
use checked_modules::Checked;
use ir_core::{Function, List, Module, Name, Or, Param};
use mem_model::{Arg, Launch};
use std::alloc::Global;

/// What is wrong with a line of a launch's text, in the order in which the faults of one line are told.
#[derive(Clone, Copy)]
pub enum LaunchFaultKind {
    /// The line hasn't the form of its place.
    LineForm,
    /// The name isn't that of a kernel.
    NoKernel,
    /// There are 1 to 64 threads.
    ThreadsRange,
    /// There are 1 to 2,000,000 steps.
    StepsRange,
    /// There are more argument lines than parameters, or fewer.
    ArgumentCount,
    /// The argument isn't of its parameter's type.
    ArgumentForm,
    /// A buffer has more than 1,048,576 bytes, or all together have more than 16,777,216.
    ArgumentSize,
    /// The text has more than 4,194,304 bytes.
    TextSize,
}

/// The first fault of a launch's text, and its line, counted from 1.
#[derive(Clone, Copy)]
pub struct LaunchFault {
    pub fault: LaunchFaultKind,
    pub line: u32,
}

fn launch_limit() -> usize
    ensures value { result ≡ launch_limit }
    ensures small { result < 2 ^ 30 }
{
    4_194_304
}

fn threads_limit() -> u32
    ensures { result ≡ threads_limit }
{
    64
}

fn steps_limit() -> u32
    ensures { result ≡ steps_limit }
{
    2_000_000
}

fn buffers_limit() -> u32
    ensures { result ≡ buffers_limit }
{
    16_777_216
}

fn fault_at(line: u32, fault: LaunchFaultKind) -> LaunchFault
    ensures { result ≡ fault_at line fault }
{
    LaunchFault { fault, line }
}

/// A number from 1 to a limit, behind these first bytes.
fn read_count(
    front: &[u8],
    limit: u32,
    fault: LaunchFaultKind,
    line: &[u8],
) -> Result<u32, LaunchFaultKind>
    ensures { result ≡ in_range limit fault (option_and_then numeral (behind front.now line.now)) }
{
    let Some(number) = numeral_behind(front, line) else {
        return Err(LaunchFaultKind::LineForm);
    };
    if number < 1 || number > u128::from(limit) {
        Err(fault)
    } else {
        Ok(number as u32)
    }
}

/// The kernel that a line names.
fn read_kernel<'m>(
    alloc: Global,
    m: &'m Module,
    line: &[u8],
) -> Result<&'m Function, Or<LaunchFaultKind>>
    ensures { MatchResult result (λ f. kernel_line m.now line.now ≡ OkOf f.now) (λ e. Told (kernel_line m.now line.now) e) }
{
    let Some(name) = behind(b"kernel ".as_slice(), line) else {
        return Err(Or::Refused(LaunchFaultKind::LineForm));
    };
    if name.is_empty() {
        return Err(Or::Refused(LaunchFaultKind::LineForm));
    }
    match kernel_named(alloc, m, name)? {
        Some(f) => Ok(f),
        None => Err(Or::Refused(LaunchFaultKind::NoKernel)),
    }
}

/// One argument for each parameter, from the lines of the text that are not skipped.
/// The text begins with the line of this number, and ends before the line numbered `end`.
fn read_args(
    alloc: Global,
    params: &[Param],
    end: u32,
    text: &[u8],
    number: u32,
) -> Result<List<Arg>, Or<LaunchFault>>
    requires widths { HaveWidths params.now }
    requires room { number + length text.now < 2 ^ 32 }
    ensures { Answers (arguments end buffers_limit params.now (kept_lines number text.now)) result }
{
    let mut args = List::new(alloc);
    let mut left = buffers_limit();
    let mut rest = text;
    let mut at = number;
    for param in params {
        let Some(line) = next_kept(rest, at) else {
            return Err(Or::Refused(fault_at(end, LaunchFaultKind::ArgumentCount)));
        };
        match read_arg(alloc, left, &param.ty, line.bytes) {
            Ok(arg) => {
                left = left_behind(left, &arg);
                args.push(arg)?;
            }
            Err(Or::Refused(fault)) => return Err(Or::Refused(fault_at(line.number, fault))),
            Err(Or::Memory) => return Err(Or::Memory),
        }
        rest = line.rest;
        at = line.number + 1;
    }
    match next_kept(rest, at) {
        Some(line) => {
            let fault = surplus(alloc, line.bytes)?;
            Err(Or::Refused(fault_at(line.number, fault)))
        }
        None => Ok(args),
    }
}

fn read_behind_steps(
    alloc: Global,
    f: &Function,
    end: u32,
    threads: u32,
    steps: u32,
    text: &[u8],
    number: u32,
) -> Result<Launch, Or<LaunchFault>>
    requires widths { HaveWidths f.now.params }
    requires room { number + length text.now < 2 ^ 32 }
    ensures { Answers (behind_steps f.now end threads steps (kept_lines number text.now)) result }
{
    match read_args(alloc, f.params.as_slice(), end, text, number) {
        Ok(args) => Ok(Launch {
            kernel: Name::from_slice(alloc, f.name.as_slice())?,
            threads,
            steps,
            args,
        }),
        Err(fault) => Err(fault),
    }
}

fn read_behind_threads(
    alloc: Global,
    f: &Function,
    end: u32,
    threads: u32,
    text: &[u8],
    number: u32,
) -> Result<Launch, Or<LaunchFault>>
    requires widths { HaveWidths f.now.params }
    requires room { number + length text.now < 2 ^ 32 }
    ensures { Answers (behind_threads f.now end threads (kept_lines number text.now)) result }
{
    let Some(line) = next_kept(text, number) else {
        return Err(Or::Refused(fault_at(end, LaunchFaultKind::LineForm)));
    };
    let fault = LaunchFaultKind::StepsRange;
    match read_count(b"steps ".as_slice(), steps_limit(), fault, line.bytes) {
        Ok(steps) => read_behind_steps(alloc, f, end, threads, steps, line.rest, line.number + 1),
        Err(fault) => Err(Or::Refused(fault_at(line.number, fault))),
    }
}

fn read_behind_kernel(
    alloc: Global,
    f: &Function,
    end: u32,
    text: &[u8],
    number: u32,
) -> Result<Launch, Or<LaunchFault>>
    requires widths { HaveWidths f.now.params }
    requires room { number + length text.now < 2 ^ 32 }
    ensures { Answers (behind_kernel end f.now (kept_lines number text.now)) result }
{
    let Some(line) = next_kept(text, number) else {
        return Err(Or::Refused(fault_at(end, LaunchFaultKind::LineForm)));
    };
    let fault = LaunchFaultKind::ThreadsRange;
    match read_count(b"threads ".as_slice(), threads_limit(), fault, line.bytes) {
        Ok(threads) => read_behind_threads(alloc, f, end, threads, line.rest, line.number + 1),
        Err(fault) => Err(Or::Refused(fault_at(line.number, fault))),
    }
}

fn read_lines(alloc: Global, m: &Module, text: &[u8]) -> Result<Launch, Or<LaunchFault>>
    requires rules { HasNoRefusal m.now }
    requires room { length text.now < 2 ^ 31 }
    ensures { Answers (launch_in m.now (length (lines text.now) + 1) (kept_lines 1 text.now)) result }
{
    let end = line_count(text) + 1;
    let Some(line) = next_kept(text, 1) else {
        return Err(Or::Refused(fault_at(end, LaunchFaultKind::LineForm)));
    };
    match read_kernel(alloc, m, line.bytes) {
        Ok(f) => read_behind_kernel(alloc, f, end, line.rest, line.number + 1),
        Err(Or::Refused(fault)) => Err(Or::Refused(fault_at(line.number, fault))),
        Err(Or::Memory) => Err(Or::Memory),
    }
}

/// The launch of the module that the text spells, or the text's first fault: first the size of the text, then the first
/// line with a fault, and of its faults the one with the least number. Its lines are `kernel NAME`, `threads N`, `steps N`
/// and one argument line for each parameter; empty lines and lines that begin with `#` are skipped.
pub fn read_launch(alloc: Global, m: &Checked, text: &[u8]) -> Result<Launch, Or<LaunchFault>>
    ensures { Answers (LaunchOf m.now text.now) result }
{
    if text.len() > launch_limit() {
        return Err(Or::Refused(fault_at(1, LaunchFaultKind::TextSize)));
    }
    read_lines(alloc, m.module(), text)
}
