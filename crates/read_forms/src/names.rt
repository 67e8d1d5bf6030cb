//! Names, of which a quoted one has escapes.
ghost use Rattle.std.specs.Prelude.{◌≡◌, ◌+◌, ◌*◌, ◌-◌, ◌<◌, [], length, take, drop, IfOk, MatchOption, true};
ghost use Rattle.ir_core.specs.Bytes.{hex_byte};
ghost use Rattle.ir_core.specs.Escapes.{hex_value, unescaped, stem_name, quoted_bytes};
ghost use Rattle.read_forms.specs.Unescaped.{Begins};

use ir_core::Name;
use std::alloc::{AllocError, Global};

fn is_hex(byte: u8) -> bool
    ensures { result ≡ hex_byte byte }
{
    matches!(byte, b'0'..=b'9' | b'A'..=b'F' | b'a'..=b'f')
}

fn hex_digit(byte: u8) -> u8
    requires { hex_byte byte ≡ true }
    ensures value { result ≡ hex_value byte }
    ensures within { result < 16 }
{
    match byte {
        b'0'..=b'9' => byte - b'0',
        b'a'..=b'f' => byte - 87,
        _ => byte - 55,
    }
}

/// The first byte that escaped bytes stand for, and the bytes behind it.
fn next_byte(text: &[u8]) -> Option<(u8, &[u8])>
    ensures { MatchOption result (text.now ≡ []) (λ p. Begins text.now p.0 p.1.now) }
{
    match text {
        [b'\\', b'\\', rest @ ..] => Some((b'\\', rest)),
        [b'\\', high, low, rest @ ..] if is_hex(*high) && is_hex(*low) => {
            Some((16 * hex_digit(*high) + hex_digit(*low), rest))
        }
        [byte, rest @ ..] => Some((*byte, rest)),
        [] => None,
    }
}

fn unescape(alloc: Global, text: &[u8]) -> Result<Vec<u8>, AllocError>
    ensures { IfOk result (λ bytes. bytes.items ≡ unescaped text.now) }
{
    let mut bytes = Vec::new(alloc);
    let mut rest = text;
    while let Some((byte, after)) = next_byte(rest) {
        bytes.push(byte)?;
        rest = after;
    }
    Ok(bytes)
}

/// What stands between the quotes of a string, with its escapes undone.
pub fn quoted_name(alloc: Global, text: &[u8]) -> Result<Name, AllocError>
    ensures { IfOk result (λ name. name ≡ quoted_bytes text.now) }
{
    let inner = match text {
        [_, inner @ .., _] => inner,
        _ => &text[..0],
    };
    let bytes = unescape(alloc, inner)?;
    Name::from_slice(alloc, bytes.as_slice())
}

/// The name that a word, digits or a quoted string spells.
pub fn spelled_name(alloc: Global, stem: &[u8]) -> Result<Name, AllocError>
    ensures { IfOk result (λ name. name ≡ stem_name stem.now) }
{
    match stem {
        [b'"', ..] => quoted_name(alloc, stem),
        _ => Name::from_slice(alloc, stem),
    }
}
