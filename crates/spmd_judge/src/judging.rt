//! The judgement of one kernel.
ghost use Rattle.std.specs.Prelude.{◌≡◌, ◌+◌, IfOk, OnOk};
ghost use Rattle.call_paths.specs.Known.{AreCalls};
ghost use Rattle.spmd_rules.specs.Rules.{Breaks};
ghost use Rattle.spmd_judge.specs.Lines.{IsLeastLine};
ghost use Rattle.spmd_judge.specs.Verdicts.{AreReasonsBelow, IsVerdict, reasons_seen};

use crate::functions::{FunctionRule, first_function, line_without_region};
use crate::insts::InstRule;
use crate::walks::first_inst;
use call_paths::Calls;
use checked_modules::Checked;
use effect_facts::Facts;
use ir_core::{List, OutOfMemory};
use ir_tables::Indexed;
use std::alloc::Global;

/// A rule that is broken, with the first line at which it is.
#[derive(Clone, Copy)]
pub struct Reason {
    pub rule: u8,
    pub line: u32,
}

/// Whether a kernel can run in SPMD mode.
#[derive(Drop)]
pub enum Verdict {
    Spmd,
    Not(List<Reason>),
}

/// The first line at which the rule of a number is broken.
fn first_line(m: &Indexed, calls: &Calls, facts: &Facts, kernel: usize, rule: u8) -> Option<u32>
    requires calls { AreCalls m.now calls.now }
    requires facts { facts.now ≡ m.now }
    ensures { IsLeastLine (Breaks m.now kernel rule) result }
{
    match rule {
        1 => line_without_region(m.module(), calls, kernel),
        2 => first_inst(m, calls, facts, InstRule::StackStored, kernel),
        3 => first_inst(m, calls, facts, InstRule::StackAccessed, kernel),
        4 => first_function(m.module(), calls, FunctionRule::Shared, kernel),
        5 => first_inst(m, calls, facts, InstRule::StackPassed, kernel),
        6 => first_function(m.module(), calls, FunctionRule::InRegion, kernel),
        _ => None,
    }
}

/// Adds what is told of one more rule, which is broken first at this line.
fn add_reason(
    reasons: &mut List<Reason>,
    _m: &Indexed,
    _kernel: usize,
    rule: u8,
    line: Option<u32>,
) -> Result<(), OutOfMemory>
    requires below { AreReasonsBelow _m.now _kernel rule (reasons_seen reasons.old) }
    requires line { IsLeastLine (Breaks _m.now _kernel rule) line }
    ensures { OnOk result (AreReasonsBelow _m.now _kernel (rule + 1) (reasons_seen reasons.new)) }
{
    if let Some(line) = line {
        reasons.push(Reason { rule, line })?;
    }
    Ok(())
}

/// The rules that are broken, by rising numbers.
fn reasons_of(
    alloc: Global,
    m: &Indexed,
    calls: &Calls,
    facts: &Facts,
    kernel: usize,
) -> Result<List<Reason>, OutOfMemory>
    requires calls { AreCalls m.now calls.now }
    requires facts { facts.now ≡ m.now }
    ensures { IfOk result (λ reasons. AreReasonsBelow m.now kernel 7 (reasons_seen reasons)) }
{
    let mut reasons = List::new(alloc);
    for rule in 1..7 {
        let line = first_line(m, calls, facts, kernel, rule);
        add_reason(&mut reasons, m, kernel, rule, line)?;
    }
    Ok(reasons)
}

/// Judges the kernel at a place of the module's functions. `OutOfMemory` only where no memory was left.
pub fn judge(
    alloc: Global,
    m: &Checked,
    calls: &Calls,
    facts: &Facts,
    kernel: usize,
) -> Result<Verdict, OutOfMemory>
    requires calls { AreCalls m.now calls.now }
    requires facts { facts.now ≡ m.now }
    ensures { IfOk result (IsVerdict m.now kernel) }
{
    let reasons = reasons_of(alloc, m.indexed(), calls, facts, kernel)?;
    if reasons.is_empty() {
        Ok(Verdict::Spmd)
    } else {
        Ok(Verdict::Not(reasons))
    }
}
