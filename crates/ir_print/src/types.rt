//! The text of types.
ghost use Rattle.std.specs.Prelude.{◌≡◌, ◌++◌, codes, map, OnOk};
ghost use Rattle.ir_core.specs.Text.{type_text, in_spaces};

use crate::names::write_local;
use crate::writer::Writer;
use ir_core::{OutOfMemory, Ty};

/// Writes a type.
#[cycle(write_type)]
pub fn write_type(out: &mut Writer, ty: &Ty) -> Result<(), OutOfMemory>
    ensures { OnOk result (out.new ≡ out.old ++ type_text ty.now) }
{
    match ty {
        Ty::Void => out.text("void"),
        Ty::Int(width) => {
            out.text("i")?;
            out.number(u64::from(*width))
        }
        Ty::Ptr => out.text("ptr"),
        Ty::Array(count, item) => {
            out.text("[")?;
            out.number(*count)?;
            out.text(" x ")?;
            write_type(out, item.get())?;
            out.text("]")
        }
        Ty::Struct(fields) => {
            out.text("{")?;
            write_fields(out, fields.as_slice())?;
            out.text("}")
        }
        Ty::Named(name) => write_local(out, name),
    }
}

/// Writes types with commas between them and a space on each side.
#[cycle(write_type)]
fn write_fields(out: &mut Writer, fields: &[Ty]) -> Result<(), OutOfMemory>
    ensures { OnOk result (out.new ≡ out.old ++ in_spaces (codes ", ") (map type_text fields.now)) }
{
    out.text(" ")?;
    match fields.split_first() {
        None => Ok(()),
        Some((first, rest)) => {
            write_type(out, first)?;
            for field in rest {
                out.text(", ")?;
                write_type(out, field)?;
            }
            out.text(" ")
        }
    }
}
