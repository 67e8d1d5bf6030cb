//! Names in instructions.
ghost use Rattle.std.specs.Prelude.{◌≡◌, ◌++◌, OnOk, if◌then◌else◌};
ghost use Rattle.std.specs.List.{flat_map};
ghost use Rattle.ir_core.specs.Typing as typing;
ghost use Rattle.ir_core.specs.Wrappers.{value_names, wrapper_operand, kind_callees, kind_wrappers, inst_callees, inst_wrappers};
ghost use Rattle.ir_tables.specs.Names.{names_seen};
ghost use Rattle.shapes.specs.Insts.{insts_seen};
ghost use Rattle.shapes.specs.Uses.{operand_names, case_names, kind_names, inst_names, kind_names_elsewhere, inst_names_elsewhere, without_wrapper, fork_names};

use crate::names::{add_cases, add_edges, add_operands, add_optional, add_pair, add_value};
use ir_core::{Case, Inst, Kind, List, OutOfMemory, Rtl, Typed, Value};
use shape_facts::{is_call_of, operand_of};

fn is_fork(callee: &Value) -> bool
    ensures { result ≡ typing.is_fork callee.now }
{
    match callee {
        Value::Global(name) => name.as_slice() == Rtl::Parallel.name(),
        _ => false,
    }
}

fn add_with_operands<'a>(
    names: &mut List<&'a [u8]>,
    first: &'a Value,
    operands: &'a [Typed],
) -> Result<(), OutOfMemory>
    ensures { OnOk result (names_seen names.new ≡ names_seen names.old ++ (value_names first.now ++ flat_map operand_names operands.now)) }
{
    add_value(names, first)?;
    add_operands(names, operands)
}

fn add_with_pair<'a>(
    names: &mut List<&'a [u8]>,
    first: &'a Value,
    second: &'a Value,
    third: &'a Value,
) -> Result<(), OutOfMemory>
    ensures { OnOk result (names_seen names.new ≡ names_seen names.old ++ (value_names first.now ++ (value_names second.now ++ value_names third.now))) }
{
    add_value(names, first)?;
    add_pair(names, second, third)
}

fn add_with_cases<'a>(
    names: &mut List<&'a [u8]>,
    first: &'a Value,
    cases: &'a [Case],
) -> Result<(), OutOfMemory>
    ensures { OnOk result (names_seen names.new ≡ names_seen names.old ++ (value_names first.now ++ flat_map case_names cases.now)) }
{
    add_value(names, first)?;
    add_cases(names, cases)
}

/// The names in an instruction's operands, and the callee of a call.
fn add_kind<'a>(names: &mut List<&'a [u8]>, kind: &'a Kind) -> Result<(), OutOfMemory>
    ensures { OnOk result (names_seen names.new ≡ names_seen names.old ++ kind_names kind.now) }
{
    match kind {
        Kind::Bin { a, b, .. } => add_pair(names, a, b),
        Kind::ICmp { a, b, .. } => add_pair(names, a, b),
        Kind::Cast { from, .. } => add_value(names, &from.value),
        Kind::Select { cond, a, b } => add_with_pair(names, &cond.value, &a.value, &b.value),
        Kind::Phi { edges, .. } => add_edges(names, edges.as_slice()),
        Kind::Load { at, .. } => add_value(names, &at.value),
        Kind::Store { value, at, .. } => add_pair(names, &value.value, &at.value),
        Kind::Rmw { at, value, .. } => add_pair(names, &at.value, &value.value),
        Kind::Gep { base, path, .. } => add_with_operands(names, &base.value, path.as_slice()),
        Kind::Call { callee, args, .. } => add_with_operands(names, callee, args.as_slice()),
        Kind::CondBr { cond, .. } => add_value(names, &cond.value),
        Kind::Switch { on, cases, .. } => add_with_cases(names, &on.value, cases.as_slice()),
        Kind::Ret { value } => add_optional(names, value),
        Kind::Alloca { .. } | Kind::Fence { .. } | Kind::Br { .. } | Kind::Unreachable => Ok(()),
    }
}

/// The operands of a fork but its wrapper.
fn add_without_wrapper<'a>(
    names: &mut List<&'a [u8]>,
    operands: &'a [Typed],
) -> Result<(), OutOfMemory>
    ensures { OnOk result (names_seen names.new ≡ names_seen names.old ++ flat_map operand_names (without_wrapper operands.now)) }
{
    if operands.len() < 7 {
        return add_operands(names, &operands[..operands.len().min(6)]);
    }
    add_operands(names, &operands[..6])?;
    add_operands(names, &operands[7..])
}

fn add_call_elsewhere<'a>(
    names: &mut List<&'a [u8]>,
    callee: &'a Value,
    operands: &'a [Typed],
) -> Result<(), OutOfMemory>
    ensures { OnOk result (names_seen names.new ≡ names_seen names.old ++ (value_names callee.now ++ flat_map operand_names (if typing.is_fork callee.now then without_wrapper operands.now else operands.now))) }
{
    add_value(names, callee)?;
    if is_fork(callee) {
        add_without_wrapper(names, operands)
    } else {
        add_operands(names, operands)
    }
}

/// The names in an instruction but for that of a fork's wrapper.
fn add_kind_elsewhere<'a>(names: &mut List<&'a [u8]>, kind: &'a Kind) -> Result<(), OutOfMemory>
    ensures { OnOk result (names_seen names.new ≡ names_seen names.old ++ kind_names_elsewhere kind.now) }
{
    match kind {
        Kind::Call { callee, args, .. } => add_call_elsewhere(names, callee, args.as_slice()),
        _ => add_kind(names, kind),
    }
}

fn add_callee<'a>(names: &mut List<&'a [u8]>, kind: &'a Kind) -> Result<(), OutOfMemory>
    ensures { OnOk result (names_seen names.new ≡ names_seen names.old ++ kind_callees kind.now) }
{
    match kind {
        Kind::Call { callee, .. } => add_value(names, callee),
        _ => Ok(()),
    }
}

/// The name that the region function of a fork has.
fn add_region<'a>(names: &mut List<&'a [u8]>, inst: &'a Inst) -> Result<(), OutOfMemory>
    ensures { OnOk result (names_seen names.new ≡ names_seen names.old ++ fork_names inst.now) }
{
    if !is_call_of(Rtl::Parallel, inst) {
        return Ok(());
    }
    match operand_of(inst, 5) {
        None => Ok(()),
        Some(operand) => add_value(names, &operand.value),
    }
}

fn add_wrapper_operand<'a>(
    names: &mut List<&'a [u8]>,
    operands: &'a [Typed],
) -> Result<(), OutOfMemory>
    ensures { OnOk result (names_seen names.new ≡ names_seen names.old ++ wrapper_operand operands.now) }
{
    match operands {
        [_, _, _, _, _, _, wrapper, _, _] => add_value(names, &wrapper.value),
        _ => Ok(()),
    }
}

/// The name that the wrapper of a fork has.
fn add_wrapper<'a>(names: &mut List<&'a [u8]>, kind: &'a Kind) -> Result<(), OutOfMemory>
    ensures { OnOk result (names_seen names.new ≡ names_seen names.old ++ kind_wrappers kind.now) }
{
    match kind {
        Kind::Call { callee, args, .. } => {
            if is_fork(callee) {
                add_wrapper_operand(names, args.as_slice())
            } else {
                Ok(())
            }
        }
        _ => Ok(()),
    }
}

/// The names in the operands of instructions, and the callees of calls.
pub fn add_used<'a>(names: &mut List<&'a [u8]>, insts: &[&'a Inst]) -> Result<(), OutOfMemory>
    ensures { OnOk result (names_seen names.new ≡ names_seen names.old ++ flat_map inst_names (insts_seen insts.now)) }
{
    for inst in insts {
        add_kind(names, &inst.kind)?;
    }
    Ok(())
}

/// The names in instructions but for those of forks' wrappers.
pub fn add_elsewhere<'a>(names: &mut List<&'a [u8]>, insts: &[&'a Inst]) -> Result<(), OutOfMemory>
    ensures { OnOk result (names_seen names.new ≡ names_seen names.old ++ flat_map inst_names_elsewhere (insts_seen insts.now)) }
{
    for inst in insts {
        add_kind_elsewhere(names, &inst.kind)?;
    }
    Ok(())
}

/// The callees of calls.
pub fn add_callees<'a>(names: &mut List<&'a [u8]>, insts: &[&'a Inst]) -> Result<(), OutOfMemory>
    ensures { OnOk result (names_seen names.new ≡ names_seen names.old ++ flat_map inst_callees (insts_seen insts.now)) }
{
    for inst in insts {
        add_callee(names, &inst.kind)?;
    }
    Ok(())
}

/// The region functions of forks.
pub fn add_forked<'a>(names: &mut List<&'a [u8]>, insts: &[&'a Inst]) -> Result<(), OutOfMemory>
    ensures { OnOk result (names_seen names.new ≡ names_seen names.old ++ flat_map fork_names (insts_seen insts.now)) }
{
    for inst in insts {
        add_region(names, inst)?;
    }
    Ok(())
}

/// The wrappers of forks.
pub fn add_wrappers<'a>(names: &mut List<&'a [u8]>, insts: &[&'a Inst]) -> Result<(), OutOfMemory>
    ensures { OnOk result (names_seen names.new ≡ names_seen names.old ++ flat_map inst_wrappers (insts_seen insts.now)) }
{
    for inst in insts {
        add_wrapper(names, &inst.kind)?;
    }
    Ok(())
}
