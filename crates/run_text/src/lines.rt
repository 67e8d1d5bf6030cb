//! Lines of a text, and what stands in one.
ghost use Rattle.std.specs.Prelude.{◌≡◌, ◌<◌, ◌≤◌, ◌+◌, ◌^◌, [], ◌∷◌, None, Some, length, option_map, MatchOption};
ghost use Rattle.std.specs.List.{list_all};
ghost use Rattle.ir_core.specs.Numbers.{value_of};
ghost use Rattle.run_text.specs.Lines.{lines, behind, is_digit, is_numeral, numeral};
ghost use Rattle.run_text.specs.LaunchText.{is_kept_line};
ghost use Rattle.run_text.specs.Kept.{kept_lines, IsNext};
ghost use Rattle.run_text.specs.Capped.{capped, with_digit};

use memchr::memchr;

/// The first line of a text, without its end, and what comes behind it.
pub(crate) fn first_line(text: &[u8]) -> (&[u8], &[u8])
    requires { 0 < length text.now }
    ensures lines { lines text.now ≡ result.0.now ∷ lines result.1.now }
    ensures fewer { length result.1.now < length text.now }
{
    match memchr(b'\n', text) {
        Some(size) => (&text[..size], &text[size + 1..]),
        None => (text, &text[text.len()..]),
    }
}

fn is_digit(byte: u8) -> bool
    ensures { result ≡ is_digit byte }
{
    matches!(byte, b'0'..=b'9')
}

fn all_digits(bytes: &[u8]) -> bool
    ensures { result ≡ list_all is_digit bytes.now }
{
    for byte in bytes {
        if !is_digit(*byte) {
            return false;
        }
    }
    true
}

/// Whether these are decimal digits without a needless zero in front.
fn is_numeral(bytes: &[u8]) -> bool
    ensures { result ≡ is_numeral bytes.now }
{
    match bytes {
        [] => false,
        [digit] => is_digit(*digit),
        [first, ..] => all_digits(bytes) && *first != b'0',
    }
}

/// A number with one digit more, or 2^64 where that is above it.
fn append_digit(number: u128, digit: u8) -> u128
    requires { number ≤ 2 ^ 64 }
    ensures { result ≡ capped (with_digit number digit) }
{
    let next = 10 * number + u128::from(digit.saturating_sub(b'0'));
    if next < 1 << 64 { next } else { 1 << 64 }
}

fn value_of(digits: &[u8]) -> u128
    ensures { result ≡ capped (value_of digits.now) }
{
    let mut number = 0;
    for digit in digits {
        number = append_digit(number, *digit);
    }
    number
}

/// The number that digits spell, or 2^64 where that is above it.
pub(crate) fn numeral(digits: &[u8]) -> Option<u128>
    ensures { result ≡ option_map capped (numeral digits.now) }
{
    if is_numeral(digits) {
        Some(value_of(digits))
    } else {
        None
    }
}

/// What comes behind these first bytes.
pub(crate) fn behind<'a>(front: &[u8], line: &'a [u8]) -> Option<&'a [u8]>
    ensures { MatchOption result (behind front.now line.now ≡ None) (λ rest. behind front.now line.now ≡ Some rest.now) }
{
    line.strip_prefix(front)
}

/// How many lines a text has.
pub(crate) fn line_count(text: &[u8]) -> u32
    requires { length text.now < 2 ^ 31 }
    ensures count { result ≡ length (lines text.now) }
    ensures within { result ≤ length text.now }
{
    let mut count = 0;
    let mut rest = text;
    'lines: while !rest.is_empty() {
        let (_, after) = first_line(rest);
        rest = after;
        count += 1;
    }
    count
}

/// A line that isn't skipped, its number, and the text behind it.
#[derive(Clone, Copy)]
pub(crate) struct Kept<'a> {
    pub number: u32,
    pub bytes: &'a [u8],
    pub rest: &'a [u8],
}

fn is_kept(line: &[u8]) -> bool
    ensures { result ≡ is_kept_line line.now }
{
    match line {
        [] => false,
        [first, ..] => *first != b'#',
    }
}

/// The next line of a text that isn't skipped, where the text begins with the line of this number.
pub(crate) fn next_kept<'a>(text: &'a [u8], number: u32) -> Option<Kept<'a>>
    requires { number + length text.now < 2 ^ 32 }
    ensures { MatchOption result (kept_lines number text.now ≡ []) (λ k. IsNext number text.now k.number k.bytes.now k.rest.now) }
{
    let mut rest = text;
    let mut at = number;
    'lines: while !rest.is_empty() {
        let (line, after) = first_line(rest);
        if is_kept(line) {
            return Some(Kept {
                number: at,
                bytes: line,
                rest: after,
            });
        }
        rest = after;
        at += 1;
    }
    None
}
