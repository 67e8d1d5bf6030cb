//! The first line on a kernel's main side at which a rule on instructions is broken.
ghost use Rattle.std.specs.Prelude.{◌≡◌};
ghost use Rattle.call_paths.specs.Known.{AreCalls};
ghost use Rattle.spmd_rules.specs.Rules.{AtInst};
ghost use Rattle.spmd_judge.specs.Lines.{IsLeastLine};
ghost use Rattle.spmd_judge.specs.Judging.{BreaksInst, InBlock, InFunction, InFunctionOf};

use crate::functions::is_on_main_side_of;
use crate::insts::{InstRule, line_at};
use crate::lines::{block_count, inst_count, lesser};
use call_paths::Calls;
use effect_facts::Facts;
use ir_tables::Indexed;

/// The first line of a block at which the rule is broken.
fn first_in_block(
    m: &Indexed,
    facts: &Facts,
    rule: InstRule,
    function: usize,
    block: usize,
) -> Option<u32>
    requires facts { facts.now ≡ m.now }
    ensures { IsLeastLine (InBlock m.now rule function block) result }
{
    let mut first = None;
    for index in 0..inst_count(m.module(), function, block) {
        first = lesser(first, line_at(m, facts, rule, function, block, index));
    }
    first
}

/// The first line of a function at which the rule is broken.
fn first_in_function(m: &Indexed, facts: &Facts, rule: InstRule, function: usize) -> Option<u32>
    requires facts { facts.now ≡ m.now }
    ensures { IsLeastLine (InFunction m.now rule function) result }
{
    let mut first = None;
    for block in 0..block_count(m.module(), function) {
        first = lesser(first, first_in_block(m, facts, rule, function, block));
    }
    first
}

/// The first line of a function at which the rule is broken, where the function stands on the kernel's main side.
fn first_in_function_of(
    m: &Indexed,
    calls: &Calls,
    facts: &Facts,
    rule: InstRule,
    kernel: usize,
    function: usize,
) -> Option<u32>
    requires calls { AreCalls m.now calls.now }
    requires facts { facts.now ≡ m.now }
    ensures { IsLeastLine (InFunctionOf m.now rule kernel function) result }
{
    if is_on_main_side_of(m.module(), calls, kernel, function) {
        first_in_function(m, facts, rule, function)
    } else {
        None
    }
}

/// The first line on the kernel's main side at which the rule is broken.
pub fn first_inst(
    m: &Indexed,
    calls: &Calls,
    facts: &Facts,
    rule: InstRule,
    kernel: usize,
) -> Option<u32>
    requires calls { AreCalls m.now calls.now }
    requires facts { facts.now ≡ m.now }
    ensures { IsLeastLine (AtInst m.now kernel (BreaksInst rule m.now)) result }
{
    let mut first = None;
    for function in 0..m.module().functions.len() {
        first = lesser(
            first,
            first_in_function_of(m, calls, facts, rule, kernel, function),
        );
    }
    first
}
