//! The rules that are asked of one instruction.
ghost use Rattle.std.specs.Prelude.{◌≡◌, ◌↔◌, ◌⊎◌, true, Some};
ghost use Rattle.spmd_rules.specs.Rules.{StoresStack, AccessesStack, PassesStack, ReturnsStack, CallsWithStack};
ghost use Rattle.ir_core.specs.Places.{inst_at as inst_of};
ghost use Rattle.spmd_judge.specs.Lines.{IsLeastLine};
ghost use Rattle.spmd_judge.specs.Judging.{place_of, BreaksInst, BreaksAt};

use effect_facts::{Facts, accessed, inst_at};
use ir_core::{Inst, Kind, Name, Typed};
use ir_tables::Indexed;
use name_tables::is_ptr;
use register_hops::defined_place;

/// A rule that is asked of each instruction: no pointer that may point into a stack is stored; none is accessed under a guard; none is
/// passed to a call under a guard, or given back by it.
#[derive(Clone, Copy)]
pub enum InstRule {
    StackStored,
    StackAccessed,
    StackPassed,
}

/// Whether an instruction of the function at a place stores a pointer that may point into a stack.
fn stores_stack(facts: &Facts, function: usize, block: usize, index: usize, inst: &Inst) -> bool
    ensures { (result ≡ true) ↔ StoresStack facts.now (place_of function block index) inst.now }
{
    match &inst.kind {
        Kind::Store { value, .. } => {
            is_ptr(&value.ty) && facts.may_be_stack(function, &value.value)
        }
        _ => false,
    }
}

/// Whether the instruction at a place needs a guard and accesses through a pointer that may point into a stack.
fn accesses_stack(facts: &Facts, function: usize, block: usize, index: usize, inst: &Inst) -> bool
    ensures { (result ≡ true) ↔ AccessesStack facts.now (place_of function block index) inst.now }
{
    match accessed(&inst.kind) {
        Some(at) => {
            facts.needs_guard(function, block, index) && facts.may_be_stack(function, &at.value)
        }
        None => false,
    }
}

/// Whether one of these arguments, in the function at a place, may point into a stack.
fn passes_stack(facts: &Facts, function: usize, operands: &[Typed]) -> bool
    ensures { (result ≡ true) ↔ PassesStack facts.now function operands.now }
{
    for operand in operands {
        if facts.may_be_stack(function, &operand.value) {
            return true;
        }
    }
    false
}

/// Whether a result, in the function at a place, may point into a stack.
fn returns_stack(facts: &Facts, function: usize, result_name: &Option<Name>) -> bool
    ensures { (result ≡ true) ↔ ReturnsStack facts.now function result_name.now }
{
    match result_name {
        Some(name) => facts.register_may_be_stack(function, name),
        None => false,
    }
}

/// Whether one of these arguments, or this result, in the function at a place, may point into a stack.
fn moves_stack(
    facts: &Facts,
    function: usize,
    operands: &[Typed],
    result_name: &Option<Name>,
) -> bool
    ensures { (result ≡ true) ↔ (PassesStack facts.now function operands.now ⊎ ReturnsStack facts.now function result_name.now) }
{
    passes_stack(facts, function, operands) || returns_stack(facts, function, result_name)
}

/// Whether the instruction at a place needs a guard and calls a function with such an argument or such a result.
fn calls_with_stack(
    m: &Indexed,
    facts: &Facts,
    function: usize,
    block: usize,
    index: usize,
    inst: &Inst,
) -> bool
    requires facts { facts.now ≡ m.now }
    requires there { inst_of m.now (place_of function block index) ≡ Some inst.now }
    ensures { (result ≡ true) ↔ CallsWithStack m.now (place_of function block index) inst.now }
{
    match &inst.kind {
        Kind::Call { callee, args, .. } => {
            defined_place(m, callee).is_some()
                && facts.needs_guard(function, block, index)
                && moves_stack(facts, function, args.as_slice(), &inst.result)
        }
        _ => false,
    }
}

/// Whether the instruction at a place breaks the rule.
fn breaks_inst(
    m: &Indexed,
    facts: &Facts,
    rule: InstRule,
    function: usize,
    block: usize,
    index: usize,
    inst: &Inst,
) -> bool
    requires facts { facts.now ≡ m.now }
    requires there { inst_of m.now (place_of function block index) ≡ Some inst.now }
    ensures { (result ≡ true) ↔ BreaksInst rule m.now (place_of function block index) inst.now }
{
    match rule {
        InstRule::StackStored => stores_stack(facts, function, block, index, inst),
        InstRule::StackAccessed => accesses_stack(facts, function, block, index, inst),
        InstRule::StackPassed => calls_with_stack(m, facts, function, block, index, inst),
    }
}

/// The line of the instruction at a place, where it breaks the rule.
pub(crate) fn line_at(
    m: &Indexed,
    facts: &Facts,
    rule: InstRule,
    function: usize,
    block: usize,
    index: usize,
) -> Option<u32>
    requires facts { facts.now ≡ m.now }
    ensures { IsLeastLine (BreaksAt m.now rule (place_of function block index)) result }
{
    match inst_at(m.module(), function, block, index) {
        Some(inst) => {
            if breaks_inst(m, facts, rule, function, block, index, inst) {
                Some(inst.line)
            } else {
                None
            }
        }
        None => None,
    }
}
