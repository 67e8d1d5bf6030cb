//! The text of names, as the canonical text of a module has them.
ghost use Rattle.std.specs.Prelude.{◌≡◌, ◌++◌, ◌<◌, OnOk};
ghost use Rattle.std.specs.List.{flat_map};
ghost use Rattle.ir_core.specs.Text.{hex_digit, is_plain_byte, escaped, name_text};

use crate::writer::Writer;
use ir_core::{Name, OutOfMemory, is_word};

fn hex_digit(digit: u8) -> u8
    requires { digit < 16 }
    ensures { result ≡ hex_digit digit }
{
    if digit < 10 {
        b'0' + digit
    } else {
        b'A' - 10 + digit
    }
}

fn is_plain_byte(byte: u8) -> bool
    ensures { result ≡ is_plain_byte byte }
{
    byte != b'"' && byte != b'\\' && byte >= 32 && byte <= 126
}

fn write_escaped(out: &mut Writer, byte: u8) -> Result<(), OutOfMemory>
    ensures { OnOk result (out.new ≡ out.old ++ escaped byte) }
{
    if is_plain_byte(byte) {
        return out.byte(byte);
    }
    out.byte(b'\\')?;
    out.byte(hex_digit(byte / 16))?;
    out.byte(hex_digit(byte % 16))
}

fn write_all_escaped(out: &mut Writer, bytes: &[u8]) -> Result<(), OutOfMemory>
    ensures { OnOk result (out.new ≡ out.old ++ flat_map escaped bytes.now) }
{
    for byte in bytes {
        write_escaped(out, *byte)?;
    }
    Ok(())
}

/// Writes a name, in quotes where it needs them.
pub(crate) fn write_name(out: &mut Writer, name: &Name) -> Result<(), OutOfMemory>
    ensures { OnOk result (out.new ≡ out.old ++ name_text name.now) }
{
    let bytes = name.as_slice();
    if is_word(bytes) {
        return out.bytes(bytes);
    }
    out.text("\"")?;
    write_all_escaped(out, bytes)?;
    out.text("\"")
}
