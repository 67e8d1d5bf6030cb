//! Reports of runs.
ghost use Rattle.std.specs.Prelude.{◌≡◌, ◌++◌, ◌<◌, Some, IfOk, OnOk};
ghost use Rattle.std.specs.List.{flat_map};
ghost use Rattle.ir_core.specs.Text.{signed_text};
ghost use Rattle.run_text.specs.ReportText.{mode_text, trap_text, is_source, thread_text, end_text, print_line, hex_digit, byte_text, bytes_text, global_line, block_line, shown_line, pair_line, report_text};
ghost use Rattle.run_text.specs.Parts.{trapped_text, buffer_text, head_text, schedule_text};

use crate::names::write_name;
use crate::writer::Writer;
use ir_core::{Global as Variable, List, Module, OutOfMemory};
use mem_model::{BlockName, Byte, Shown, Trap};
use std::alloc::Global;
use team_model::Pair;

/// How a kernel ran.
#[derive(Clone, Copy)]
pub enum RunMode {
    /// In SPMD mode.
    Spmd,
    /// In generic mode with a customised state machine.
    Custom,
    /// In generic mode without a state machine.
    Empty,
    /// As it was read, not optimised.
    Plain,
    /// By the meaning of its source.
    Source,
}

/// How a run ended.
#[derive(Clone, Copy)]
pub enum ReportEnd {
    Ended,
    Stuck,
    Trapped { thread: u32, line: u32, trap: Trap },
    /// The steps of the launch are spent.
    Spent,
    /// The schedule has ended, and the run goes on.
    Unfinished,
}

/// What is reported of a run with so many region threads: the printed values, the bytes of what is shown, and the schedule.
#[derive(Drop)]
pub struct Report {
    pub mode: RunMode,
    pub threads: u32,
    pub end: ReportEnd,
    pub prints: List<u64>,
    pub memory: List<Shown>,
    pub schedule: List<Pair>,
}

fn mode_text(mode: RunMode) -> &'static str
    ensures { result.now ≡ mode_text mode }
{
    match mode {
        RunMode::Spmd => "spmd",
        RunMode::Custom => "custom",
        RunMode::Empty => "none",
        RunMode::Plain => "plain",
        RunMode::Source => "source",
    }
}

fn trap_text(trap: Trap) -> &'static str
    ensures { result.now ≡ trap_text trap }
{
    match trap {
        Trap::Overflow => "Overflow",
        Trap::Division => "Division",
        Trap::Shift => "Shift",
        Trap::NoBlock => "NoBlock",
        Trap::Released => "Released",
        Trap::OutOfBlock => "OutOfBlock",
        Trap::Constant => "Constant",
        Trap::StackLeak => "StackLeak",
        Trap::NotStack => "NotStack",
        Trap::NotNumber => "NotNumber",
        Trap::TooLarge => "TooLarge",
        Trap::Unreachable => "Unreachable",
        Trap::Unassigned => "Unassigned",
    }
}

fn is_source(mode: RunMode) -> bool
    ensures { result ≡ is_source mode }
{
    matches!(mode, RunMode::Source)
}

/// Writes a thread: its number, or `m` for the main thread in a run of the source.
fn write_thread(
    out: &mut Writer,
    mode: RunMode,
    threads: u32,
    thread: u32,
) -> Result<(), OutOfMemory>
    ensures { OnOk result (out.new ≡ out.old ++ thread_text mode threads thread) }
{
    if is_source(mode) && thread == threads {
        out.text("m")
    } else {
        out.number(u64::from(thread))
    }
}

/// Writes `trapped T line L NAME`.
fn write_trapped(
    out: &mut Writer,
    mode: RunMode,
    threads: u32,
    thread: u32,
    line: u32,
    trap: Trap,
) -> Result<(), OutOfMemory>
    ensures { OnOk result (out.new ≡ out.old ++ trapped_text mode threads thread line trap) }
{
    out.text("trapped ")?;
    write_thread(out, mode, threads, thread)?;
    out.text(" line ")?;
    out.number(u64::from(line))?;
    out.text(" ")?;
    out.text(trap_text(trap))
}

fn write_end(
    out: &mut Writer,
    mode: RunMode,
    threads: u32,
    end: ReportEnd,
) -> Result<(), OutOfMemory>
    ensures { OnOk result (out.new ≡ out.old ++ end_text mode threads end) }
{
    match end {
        ReportEnd::Ended => out.text("ended"),
        ReportEnd::Stuck => out.text("stuck"),
        ReportEnd::Trapped { thread, line, trap } => {
            write_trapped(out, mode, threads, thread, line, trap)
        }
        ReportEnd::Spent => out.text("spent"),
        ReportEnd::Unfinished => out.text("open"),
    }
}

/// Writes a number of 64 bits with its sign.
fn write_signed(out: &mut Writer, number: u64) -> Result<(), OutOfMemory>
    ensures { OnOk result (out.new ≡ out.old ++ signed_text 64 number) }
{
    if number < 1 << 63 {
        return out.number(number);
    }
    out.text("-")?;
    out.number(u64::MAX - number + 1)
}

fn write_prints(out: &mut Writer, prints: &[u64]) -> Result<(), OutOfMemory>
    ensures { OnOk result (out.new ≡ out.old ++ flat_map print_line prints.now) }
{
    for number in prints {
        out.text("print ")?;
        write_signed(out, *number)?;
        out.text("\n")?;
    }
    Ok(())
}

fn hex_digit(digit: u8) -> u8
    requires { digit < 16 }
    ensures { result ≡ hex_digit digit }
{
    if digit < 10 {
        b'0' + digit
    } else {
        b'a' - 10 + digit
    }
}

/// Writes a byte as two digits, or `**` where it is part of a pointer.
fn write_byte(out: &mut Writer, byte: Byte) -> Result<(), OutOfMemory>
    ensures { OnOk result (out.new ≡ out.old ++ byte_text byte) }
{
    match byte {
        Byte::Num(number) => out.bytes(&[hex_digit(number / 16), hex_digit(number % 16)]),
        Byte::Part(_, _) => out.text("**"),
    }
}

fn write_all_bytes(out: &mut Writer, bytes: &[Byte]) -> Result<(), OutOfMemory>
    ensures { OnOk result (out.new ≡ out.old ++ flat_map byte_text bytes.now) }
{
    for byte in bytes {
        write_byte(out, *byte)?;
    }
    Ok(())
}

/// Writes a space and the bytes, or nothing where there are none.
fn write_bytes(out: &mut Writer, bytes: &[Byte]) -> Result<(), OutOfMemory>
    ensures { OnOk result (out.new ≡ out.old ++ bytes_text bytes.now) }
{
    if bytes.is_empty() {
        return Ok(());
    }
    out.text(" ")?;
    write_all_bytes(out, bytes)
}

fn write_buffer(out: &mut Writer, place: u32, bytes: &[Byte]) -> Result<(), OutOfMemory>
    ensures { OnOk result (out.new ≡ out.old ++ buffer_text place bytes.now) }
{
    out.text("memory ")?;
    out.number(u64::from(place))?;
    write_bytes(out, bytes)?;
    out.text("\n")
}

fn write_variable(out: &mut Writer, variable: &Variable, bytes: &[Byte]) -> Result<(), OutOfMemory>
    ensures { OnOk result (out.new ≡ out.old ++ global_line (Some variable.now) bytes.now) }
{
    if variable.constant {
        return Ok(());
    }
    out.text("global ")?;
    write_name(out, &variable.name)?;
    write_bytes(out, bytes)?;
    out.text("\n")
}

/// Writes the bytes of a buffer, or of a global that isn't constant.
fn write_shown(out: &mut Writer, m: &Module, shown: &Shown) -> Result<(), OutOfMemory>
    ensures { OnOk result (out.new ≡ out.old ++ shown_line m.now shown.now) }
{
    let bytes = shown.bytes.as_slice();
    match shown.name {
        BlockName::Arg(place) => write_buffer(out, place, bytes),
        BlockName::Global(place) => match m.globals.as_slice().get(place as usize) {
            Some(variable) => write_variable(out, variable, bytes),
            None => Ok(()),
        },
        _ => Ok(()),
    }
}

fn write_memory(out: &mut Writer, m: &Module, memory: &[Shown]) -> Result<(), OutOfMemory>
    ensures { OnOk result (out.new ≡ out.old ++ flat_map (shown_line m.now) memory.now) }
{
    for shown in memory {
        write_shown(out, m, shown)?;
    }
    Ok(())
}

fn write_pair(out: &mut Writer, mode: RunMode, threads: u32, pair: Pair) -> Result<(), OutOfMemory>
    ensures { OnOk result (out.new ≡ out.old ++ pair_line mode threads pair) }
{
    write_thread(out, mode, threads, pair.thread)?;
    out.text(" ")?;
    out.number(u64::from(pair.count))?;
    out.text("\n")
}

fn write_pairs(
    out: &mut Writer,
    mode: RunMode,
    threads: u32,
    pairs: &[Pair],
) -> Result<(), OutOfMemory>
    ensures { OnOk result (out.new ≡ out.old ++ flat_map (pair_line mode threads) pairs.now) }
{
    for pair in pairs {
        write_pair(out, mode, threads, *pair)?;
    }
    Ok(())
}

/// Writes the first two lines.
fn write_head(
    out: &mut Writer,
    mode: RunMode,
    threads: u32,
    end: ReportEnd,
) -> Result<(), OutOfMemory>
    ensures { OnOk result (out.new ≡ out.old ++ head_text mode threads end) }
{
    out.text("mode ")?;
    out.text(mode_text(mode))?;
    out.text("\nend ")?;
    write_end(out, mode, threads, end)?;
    out.text("\n")
}

/// Writes the number of pairs, and the pairs.
fn write_schedule(
    out: &mut Writer,
    mode: RunMode,
    threads: u32,
    pairs: &[Pair],
) -> Result<(), OutOfMemory>
    ensures { OnOk result (out.new ≡ out.old ++ schedule_text mode threads pairs.now) }
{
    out.text("schedule ")?;
    out.number(pairs.len() as u64)?;
    out.text("\n")?;
    write_pairs(out, mode, threads, pairs)
}

/// The text of a report: its mode, its end, the printed values, the bytes of what is shown, and the schedule.
/// The module is the one that was read; it names the globals.
pub fn print_report(alloc: Global, m: &Module, r: &Report) -> Result<List<u8>, OutOfMemory>
    ensures { IfOk result (λ text. text ≡ report_text m.now r.now) }
{
    let mut out = Writer::new(alloc);
    write_head(&mut out, r.mode, r.threads, r.end)?;
    write_prints(&mut out, r.prints.as_slice())?;
    write_memory(&mut out, m, r.memory.as_slice())?;
    write_schedule(&mut out, r.mode, r.threads, r.schedule.as_slice())?;
    Ok(out.into_list())
}
