//! What the rules ask of an instruction.
ghost use Rattle.std.specs.Prelude.{◌≡◌, MatchOption, None, Some};
ghost use Rattle.shapes.specs.Facts as spec;

use ir_core::{Inst, Kind, Rtl, Typed, Value};

/// Whether it is a call of an entry point.
pub fn calls(entry_point: Rtl, kind: &Kind) -> bool
    ensures { result ≡ spec.calls entry_point kind.now }
{
    match kind {
        Kind::Call {
            callee: Value::Global(name),
            ..
        } => name.as_slice() == entry_point.name(),
        _ => false,
    }
}

/// Whether an instruction is a call of an entry point.
pub fn is_call_of(entry_point: Rtl, inst: &Inst) -> bool
    ensures { result ≡ spec.is_call_of entry_point inst.now }
{
    calls(entry_point, &inst.kind)
}

/// The operand of a call at a place, counted from 0; none where it has none there, or is no call.
pub fn operand_of(inst: &Inst, place: usize) -> Option<&Typed>
    ensures { MatchOption result (spec.operand_of inst.now place ≡ None) (λ v. spec.operand_of inst.now place ≡ Some v.now) }
{
    match &inst.kind {
        Kind::Call { args, .. } => args.as_slice().get(place),
        _ => None,
    }
}

/// Whether the operand of a call at a place is this number.
pub fn has_constant(inst: &Inst, place: usize, number: u64) -> bool
    ensures { result ≡ spec.is_constant number (spec.operand_of inst.now place) }
{
    match operand_of(inst, place) {
        Some(operand) => matches!(&operand.value, Value::Int(n) if *n == number),
        None => false,
    }
}

/// Whether the operand of a call at a place is a register.
pub fn has_register(inst: &Inst, place: usize) -> bool
    ensures { result ≡ spec.is_local (spec.operand_of inst.now place) }
{
    match operand_of(inst, place) {
        Some(operand) => matches!(&operand.value, Value::Local(_)),
        None => false,
    }
}
