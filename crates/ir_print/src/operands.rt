//! The text of operands.
ghost use Rattle.std.specs.Prelude.{◌≡◌, ◌++◌, codes, decimal, OnOk, MatchOption};
ghost use Rattle.ir_core.specs.Text.{integer_text, number_text, value_text, typed_text};
ghost use Rattle.ir_print.specs.Signed.{plain_or_signed};

use crate::names::{write_global_name, write_local};
use crate::types::write_type;
use crate::writer::{Printed, Writer};
use ir_core::{OutOfMemory, Ty, Typed, Value};

/// How far below zero a number of this width stands, where it is of the width and its top bit is set.
fn below_zero(width: u32, number: u64) -> Option<u64>
    ensures { MatchOption result (plain_or_signed width number ≡ decimal number) (λ below. plain_or_signed width number ≡ codes "-" ++ decimal below) }
{
    if width == 0 || width > 64 {
        return None;
    }
    let half = 1u64 << (width - 1);
    if number < half {
        return None;
    }
    let over = number - half;
    if over < half { Some(half - over) } else { None }
}

/// Writes a number of a width.
fn write_integer(out: &mut Writer, width: u32, number: u64) -> Result<(), OutOfMemory>
    ensures { OnOk result (out.new ≡ out.old ++ integer_text width number) }
{
    if width == 1 && number < 2 {
        return out.text(if number == 0 { "false" } else { "true" });
    }
    match below_zero(width, number) {
        None => out.number(number),
        Some(below) => {
            out.text("-")?;
            out.number(below)
        }
    }
}

/// Writes a number of a type.
pub fn write_number(out: &mut Writer, ty: &Ty, number: u64) -> Result<(), OutOfMemory>
    ensures { OnOk result (out.new ≡ out.old ++ number_text ty.now number) }
{
    match ty {
        Ty::Int(width) => write_integer(out, *width, number),
        _ => out.number(number),
    }
}

/// Writes an operand of a type, without the type.
pub fn write_value(out: &mut Writer, ty: &Ty, value: &Value) -> Result<(), OutOfMemory>
    ensures { OnOk result (out.new ≡ out.old ++ value_text ty.now value.now) }
{
    match value {
        Value::Int(number) => write_number(out, ty, *number),
        Value::Null => out.text("null"),
        Value::Local(name) => write_local(out, name),
        Value::Global(name) => write_global_name(out, name),
    }
}

impl Printed for Typed {
    ghost text = { typed_text };

    fn print(&self, out: &mut Writer) -> Result<(), OutOfMemory> {
        write_type(out, &self.ty)?;
        out.text(" ")?;
        write_value(out, &self.ty, &self.value)
    }
}
