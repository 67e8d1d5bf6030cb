//! Classes of bytes.
ghost use Rattle.std.specs.Prelude.{◌≡◌, drop};
ghost use Rattle.ir_core.specs.Bytes.{class_of, word_byte, digit_byte};
ghost use Rattle.ir_core.specs.Scan.{class_at};
ghost use Rattle.ir_lex.specs.Scanned.{class_seen};

/// What a byte can stand for.
#[derive(Clone, Copy)]
pub enum Class {
    Blank,
    Semicolon,
    Bracket,
    Digit,
    Dash,
    Letter,
    Percent,
    AtSign,
    Colon,
    Quote,
    Hash,
    Bang,
    Other,
}

/// The class of a byte.
#[inline(always)]
pub fn byte_class(byte: u8) -> Class
    ensures { class_seen result ≡ class_of byte }
{
    match byte {
        b' ' | b'\t' | b'\r' | b'\n' => Class::Blank,
        b'(' | b')' | b'[' | b']' | b'{' | b'}' | b'<' | b'>' | b',' | b'=' | b'*' => {
            Class::Bracket
        }
        b'0'..=b'9' => Class::Digit,
        b'a'..=b'z' | b'A'..=b'Z' | b'$' | b'.' | b'_' => Class::Letter,
        b'-' => Class::Dash,
        b'%' => Class::Percent,
        b'@' => Class::AtSign,
        b':' => Class::Colon,
        b';' => Class::Semicolon,
        b'"' => Class::Quote,
        b'#' => Class::Hash,
        b'!' => Class::Bang,
        _ => Class::Other,
    }
}

/// Whether the byte can stand in a word.
#[inline]
pub fn is_word_byte(byte: u8) -> bool
    ensures { result ≡ word_byte byte }
{
    matches!(byte_class(byte), Class::Letter | Class::Digit | Class::Dash)
}

/// Whether the byte is a digit.
#[inline]
pub fn is_digit_byte(byte: u8) -> bool
    ensures { result ≡ digit_byte byte }
{
    matches!(byte_class(byte), Class::Digit)
}

/// The class of the byte at a place; behind the end, of one that begins nothing.
#[inline(always)]
pub fn class_at(text: &[u8], at: usize) -> Class
    ensures { class_seen result ≡ class_at (drop at text.now) }
{
    if at < text.len() {
        byte_class(text[at])
    } else {
        Class::Other
    }
}
