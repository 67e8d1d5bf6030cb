//! The text of names.
ghost use Rattle.std.specs.Prelude.{◌≡◌, ◌++◌, ◌<◌, OnOk};
ghost use Rattle.std.specs.List.{flat_map};
ghost use Rattle.ir_core.specs.Text.{hex_digit, is_plain_byte, escaped, quoted, name_text, local_text, global_name_text, target_text};

use crate::writer::Writer;
use ir_core::{Name, OutOfMemory, is_word};

fn hex_digit(digit: u8) -> u8
    requires { digit < 16 }
    ensures { result ≡ hex_digit digit }
{
    if digit < 10 {
        b'0' + digit
    } else {
        b'A' - 10 + digit
    }
}

fn is_plain_byte(byte: u8) -> bool
    ensures { result ≡ is_plain_byte byte }
{
    byte != b'"' && byte != b'\\' && byte >= 32 && byte <= 126
}

fn write_escaped(out: &mut Writer, byte: u8) -> Result<(), OutOfMemory>
    ensures { OnOk result (out.new ≡ out.old ++ escaped byte) }
{
    if is_plain_byte(byte) {
        return out.byte(byte);
    }
    out.byte(b'\\')?;
    out.byte(hex_digit(byte / 16))?;
    out.byte(hex_digit(byte % 16))
}

fn write_all_escaped(out: &mut Writer, bytes: &[u8]) -> Result<(), OutOfMemory>
    ensures { OnOk result (out.new ≡ out.old ++ flat_map escaped bytes.now) }
{
    for byte in bytes {
        write_escaped(out, *byte)?;
    }
    Ok(())
}

/// Writes bytes between quotes.
pub fn write_quoted(out: &mut Writer, bytes: &[u8]) -> Result<(), OutOfMemory>
    ensures { OnOk result (out.new ≡ out.old ++ quoted bytes.now) }
{
    out.text("\"")?;
    write_all_escaped(out, bytes)?;
    out.text("\"")
}

/// Writes a name, in quotes where it needs them.
pub fn write_name(out: &mut Writer, name: &Name) -> Result<(), OutOfMemory>
    ensures { OnOk result (out.new ≡ out.old ++ name_text name.now) }
{
    let bytes = name.as_slice();
    if is_word(bytes) {
        out.bytes(bytes)
    } else {
        write_quoted(out, bytes)
    }
}

/// Writes `%N`.
pub fn write_local(out: &mut Writer, name: &Name) -> Result<(), OutOfMemory>
    ensures { OnOk result (out.new ≡ out.old ++ local_text name.now) }
{
    out.text("%")?;
    write_name(out, name)
}

/// Writes `@N`.
pub fn write_global_name(out: &mut Writer, name: &Name) -> Result<(), OutOfMemory>
    ensures { OnOk result (out.new ≡ out.old ++ global_name_text name.now) }
{
    out.text("@")?;
    write_name(out, name)
}

/// Writes `label %B`.
pub fn write_target(out: &mut Writer, block: &Name) -> Result<(), OutOfMemory>
    ensures { OnOk result (out.new ≡ out.old ++ target_text block.now) }
{
    out.text("label ")?;
    write_local(out, block)
}
