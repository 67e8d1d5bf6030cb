//! Whether an instruction is an allocation that is used plainly, by the rows.
ghost use Rattle.std.specs.Prelude.{◌≡◌, option_copied, slice_get};
ghost use Rattle.ir_core.specs.Places.{inst_at as inst_of};
ghost use Rattle.plain_facts.specs.Reads as spec;

use crate::own::Own;
use ir_core::{Inst, Module, Rtl, Value};
use register_numbers::Numbering;
use shape_facts::{is_call_of, operand_of};

/// Whether the way in which a register is used itself is plain for an allocation of the size.
fn allows(own: Own, size: &Value) -> bool
    ensures { result ≡ spec.allows own size.now }
{
    match own {
        Own::Unused => true,
        Own::Released(n) => match size {
            Value::Int(size) => n == *size,
            _ => false,
        },
        Own::Otherwise => false,
    }
}

/// The same of the register of a number.
fn is_allowed(own: &[Own], number: usize, size: &Value) -> bool
    ensures { result ≡ spec.is_allowed (slice_get own.now number) size.now }
{
    match own.get(number) {
        Some(own) => allows(*own, size),
        None => false,
    }
}

/// Whether the mark of a number is true.
fn is_true(row: &[bool], number: usize) -> bool
    ensures { result ≡ spec.is_true (slice_get row.now number) }
{
    match row.get(number) {
        Some(mark) => *mark,
        None => false,
    }
}

/// Whether a register of this number is used plainly.
fn is_plain_number(own: &[Own], beyond: &[bool], size: &Value, number: Option<usize>) -> bool
    ensures { result ≡ spec.is_plain_number own.now beyond.now size.now number }
{
    match number {
        Some(number) => is_allowed(own, number, size) && !is_true(beyond, number),
        None => false,
    }
}

/// Whether an instruction of the function at a place is an allocation that is used plainly.
pub(crate) fn is_plain_inst(
    numbering: &Numbering,
    own: &[Own],
    beyond: &[bool],
    at: usize,
    inst: &Inst,
) -> bool
    ensures { result ≡ spec.is_plain_inst numbering.now own.now beyond.now at inst.now }
{
    if !is_call_of(Rtl::AllocShared, inst) {
        return false;
    }
    let Some(name) = &inst.result else {
        return false;
    };
    let Some(size) = operand_of(inst, 0) else {
        return false;
    };
    is_plain_number(own, beyond, &size.value, numbering.number(at, name))
}

/// The instruction at a place: of its function, its block and itself, each from 0.
pub(crate) fn inst_at(m: &Module, function: usize, block: usize, index: usize) -> Option<&Inst>
    ensures { option_copied result ≡ inst_of m.now (record { function = function; block = block; index = index }) }
{
    let f = m.functions.get(function)?;
    let b = f.blocks.get(block)?;
    b.insts.get(index)
}
