//! Words: names that stand without quotes (LLVM Language Reference, "Identifiers").
ghost use Rattle.std.specs.Prelude.{◌≡◌};
ghost use Rattle.ir_core.specs.Bytes.{digit_byte, word_byte, every};
ghost use Rattle.ir_core.specs.Text.{is_digits, is_exponent, is_behind_point, is_numeral, is_word};

fn is_digit(byte: u8) -> bool
    ensures { result ≡ digit_byte byte }
{
    matches!(byte, b'0'..=b'9')
}

fn is_word_byte(byte: u8) -> bool
    ensures { result ≡ word_byte byte }
{
    matches!(byte, b'a'..=b'z' | b'A'..=b'Z' | b'0'..=b'9' | b'$' | b'.' | b'_' | b'-')
}

fn all_word_bytes(bytes: &[u8]) -> bool
    ensures { result ≡ every word_byte bytes.now }
{
    for byte in bytes {
        if !is_word_byte(*byte) {
            return false;
        }
    }
    true
}

fn all_digits(bytes: &[u8]) -> bool
    ensures { result ≡ every digit_byte bytes.now }
{
    for byte in bytes {
        if !is_digit(*byte) {
            return false;
        }
    }
    true
}

/// Whether these are digits, and at least one.
pub fn is_digits(bytes: &[u8]) -> bool
    ensures { result ≡ is_digits bytes.now }
{
    !bytes.is_empty() && all_digits(bytes)
}

/// Whether this may stand behind the `e` of a float literal.
fn is_exponent(bytes: &[u8]) -> bool
    ensures { result ≡ is_exponent bytes.now }
{
    match bytes.split_first() {
        None => false,
        Some((first, rest)) => {
            if *first == b'-' {
                is_digits(rest)
            } else {
                is_digits(bytes)
            }
        }
    }
}

/// Whether this may stand behind the point of a float literal.
fn is_behind_point(bytes: &[u8]) -> bool
    ensures { result ≡ is_behind_point bytes.now }
{
    for i in 0..bytes.len() {
        let byte = bytes[i];
        if byte == b'e' || byte == b'E' {
            return is_exponent(&bytes[i + 1..]);
        }
        if !is_digit(byte) {
            return false;
        }
    }
    true
}

/// Whether this is a number or a float literal, behind its `-`.
fn is_numeral(bytes: &[u8]) -> bool
    ensures { result ≡ is_numeral bytes.now }
{
    let mut some_digit = false;
    for i in 0..bytes.len() {
        let byte = bytes[i];
        if byte == b'.' {
            return some_digit && is_behind_point(&bytes[i + 1..]);
        }
        if !is_digit(byte) {
            return false;
        }
        some_digit = true;
    }
    some_digit
}

/// Whether a name stands without quotes: letters, digits, `$ . _ -`, not beginning with a digit,
/// and neither a number nor a float literal.
pub fn is_word(bytes: &[u8]) -> bool
    ensures { result ≡ is_word bytes.now }
{
    match bytes.split_first() {
        None => false,
        Some((b'-', rest)) => !is_numeral(rest) && all_word_bytes(rest),
        Some((first, rest)) => !is_digit(*first) && is_word_byte(*first) && all_word_bytes(rest),
    }
}
