//! The text of a schedule.
ghost use Rattle.std.specs.Prelude.{◌≡◌, ◌<◌, ◌≤◌, ◌+◌, ◌^◌, None, Some, length, MatchOption};
ghost use Rattle.mem_model.specs.Launching.{steps_limit};
ghost use Rattle.run_text.specs.Lines.{lines, numbered};
ghost use Rattle.run_text.specs.Replies.{Answers};
ghost use Rattle.run_text.specs.ScheduleText.{schedule_limit, parted, pair_of, pair_in, pairs_in, PairsOf, fault_at};

use crate::lines::{first_line, numeral};
use ir_core::{List, Or};
use memchr::memchr;
use std::alloc::Global;
use team_model::Pair;

/// What is wrong with a schedule, in the order of their numbers in a refusal.
#[derive(Clone, Copy)]
pub enum ScheduleFaultKind {
    /// The line hasn't its form.
    LineForm,
    /// There is no such thread.
    ThreadRange,
    /// The thread isn't ready for a step.
    NotReady,
    /// The step is above the launch's bound.
    OverBound,
    /// The text has more than 33,554,432 bytes.
    TextSize,
}

/// The first fault of a schedule: its line, counted from 1, and which of the line's steps it is; 0 where it is none of them.
#[derive(Clone, Copy)]
pub struct ScheduleFault {
    pub fault: ScheduleFaultKind,
    pub line: u32,
    pub step: u32,
}

fn schedule_limit() -> usize
    ensures value { result ≡ schedule_limit }
    ensures small { result < 2 ^ 31 }
{
    33_554_432
}

fn steps_limit() -> u128
    ensures value { result ≡ steps_limit }
    ensures small { result < 2 ^ 31 }
{
    2_000_000
}

fn fault_at(line: u32, fault: ScheduleFaultKind) -> ScheduleFault
    ensures { result ≡ fault_at line fault }
{
    ScheduleFault {
        fault,
        line,
        step: 0,
    }
}

/// What stands before the first space, and what behind it.
fn parted(line: &[u8]) -> Option<(&[u8], &[u8])>
    ensures { MatchOption result (parted line.now ≡ None) (λ p. parted line.now ≡ Some (p.0.now, p.1.now)) }
{
    match memchr(b' ', line) {
        Some(size) => Some((&line[..size], &line[size + 1..])),
        None => None,
    }
}

fn pair_of(threads: u32, thread: u128, count: u128) -> Result<Pair, ScheduleFaultKind>
    ensures { result ≡ pair_of threads (Some thread) (Some count) }
{
    if count < 1 || count > steps_limit() {
        return Err(ScheduleFaultKind::LineForm);
    }
    if thread < u128::from(threads) {
        Ok(Pair {
            thread: thread as u32,
            count: count as u32,
        })
    } else {
        Err(ScheduleFaultKind::ThreadRange)
    }
}

/// The pair that a line spells.
fn read_pair(threads: u32, line: &[u8]) -> Result<Pair, ScheduleFaultKind>
    ensures { result ≡ pair_in threads (parted line.now) }
{
    let Some((thread, count)) = parted(line) else {
        return Err(ScheduleFaultKind::LineForm);
    };
    match (numeral(thread), numeral(count)) {
        (Some(thread), Some(count)) => pair_of(threads, thread, count),
        _ => Err(ScheduleFaultKind::LineForm),
    }
}

/// The pairs that the lines of a text spell.
fn read_pairs(alloc: Global, text: &[u8], threads: u32) -> Result<List<Pair>, Or<ScheduleFault>>
    requires { length text.now < 2 ^ 31 }
    ensures { Answers (pairs_in threads (numbered 1 (lines text.now))) result }
{
    let mut pairs = List::new(alloc);
    let mut rest = text;
    let mut number = 1;
    'lines: while !rest.is_empty() {
        let (line, after) = first_line(rest);
        match read_pair(threads, line) {
            Ok(pair) => pairs.push(pair)?,
            Err(fault) => return Err(Or::Refused(fault_at(number, fault))),
        }
        rest = after;
        number += 1;
    }
    Ok(pairs)
}

/// The pairs that a text spells, for so many machine threads, or the text's first fault: first the size of the text,
/// then the first line with a fault. A line is a thread and its steps, two decimal numbers with a space between them.
pub fn read_schedule(
    alloc: Global,
    text: &[u8],
    threads: u32,
) -> Result<List<Pair>, Or<ScheduleFault>>
    ensures { Answers (PairsOf text.now threads) result }
{
    if text.len() > schedule_limit() {
        return Err(Or::Refused(fault_at(1, ScheduleFaultKind::TextSize)));
    }
    read_pairs(alloc, text, threads)
}
