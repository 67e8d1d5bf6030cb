//! Numbers, as they are written and as they are kept.
ghost use Rattle.std.specs.Prelude.{◌≡◌, ◌≤◌, ◌^◌, true};
ghost use Rattle.ir_core.specs.Numbers.{fits, modulo, value_of};
ghost use Rattle.read_forms.specs.Read.{Gives, one_at, as_natural, natural_of, goes};
ghost use Rattle.read_forms.specs.Forms.{as_length, as_alignment, alignment_at};
ghost use Rattle.read_forms.specs.Operands.{as_number};
ghost use Rattle.read_forms.specs.Widths.{HasWidth, in_word, kept_as, with_digit};

use crate::ahead::Ahead;
use crate::tokens::{Reading, expect_word};
use ir_core::{Or, Ty, Value};

fn power(exponent: u32) -> u128
    requires { exponent ≤ 64 }
    ensures { result ≡ 2 ^ exponent }
{
    1 << exponent
}

/// Whether a number is of the integer type of this width, with a sign or without.
fn is_of_width(width: u32, negative: bool, magnitude: u64) -> bool
    requires low { 1 ≤ width }
    requires high { width ≤ 64 }
    ensures { result ≡ fits width negative magnitude }
{
    if negative {
        u128::from(magnitude) <= power(width - 1)
    } else {
        u128::from(magnitude) < power(width)
    }
}

/// A number of this width modulo two to it.
fn wrapped(width: u32, negative: bool, magnitude: u64) -> u64
    requires low { 1 ≤ width }
    requires high { width ≤ 64 }
    requires within { fits width negative magnitude ≡ true }
    ensures { result ≡ modulo width negative magnitude }
{
    let size = power(width);
    let number = u128::from(magnitude);
    if negative {
        ((size - number) % size) as u64
    } else {
        (number % size) as u64
    }
}

/// A number as it is kept at a type.
fn kept(ty: &Ty, negative: bool, magnitude: u64) -> u64
    requires width { HasWidth ty.now }
    requires within { fits 64 negative magnitude ≡ true }
    ensures { result ≡ kept_as ty.now negative magnitude }
{
    match ty {
        Ty::Int(width) => {
            if is_of_width(*width, negative, magnitude) {
                wrapped(*width, negative, magnitude)
            } else {
                wrapped(64, negative, magnitude)
            }
        }
        _ => wrapped(64, negative, magnitude),
    }
}

/// A number with one digit more, if it is below 2^64.
fn append_digit(number: u64, digit: u8) -> Option<u64>
    ensures { result ≡ in_word (with_digit number digit) }
{
    let next = 10 * u128::from(number) + u128::from(digit.saturating_sub(b'0'));
    if next < 1 << 64 {
        Some(next as u64)
    } else {
        None
    }
}

/// The number that digits spell, if it is below 2^64.
fn number_of(digits: &[u8]) -> Option<u64>
    ensures { result ≡ in_word (value_of digits.now) }
{
    let mut number = 0;
    for digit in digits {
        number = append_digit(number, *digit)?;
    }
    Some(number)
}

/// The operand that a number is at a type.
pub fn number_value(ty: &Ty, bytes: &[u8]) -> Option<Value>
    requires { HasWidth ty.now }
    ensures { result ≡ as_number ty.now bytes.now }
{
    let (negative, digits) = match bytes {
        [b'-', digits @ ..] => (true, digits),
        _ => (false, bytes),
    };
    let magnitude = number_of(digits)?;
    if is_of_width(64, negative, magnitude) {
        Some(Value::Int(kept(ty, negative, magnitude)))
    } else {
        None
    }
}

fn natural(bytes: &[u8]) -> Option<u64>
    ensures { result ≡ natural_of (2 ^ 64) bytes.now }
{
    match bytes {
        [b'-', ..] => None,
        _ => number_of(bytes),
    }
}

fn alignment(bytes: &[u8]) -> Option<u32>
    ensures { result ≡ natural_of (2 ^ 32) bytes.now }
{
    u32::try_from(natural(bytes)?).ok()
}

fn is_zero(bytes: &[u8]) -> bool
    ensures { result ≡ goes (natural_of 1 bytes.now) }
{
    match natural(bytes) {
        Some(number) => number == 0,
        None => false,
    }
}

/// A number without a sign below 2^64.
pub fn read_length<'a>(ahead: Ahead<'a>) -> Reading<'a, u64>
    ensures { Gives result (one_at as_length ahead.entry) }
{
    let left = ahead.left();
    match ahead.split() {
        Some((token, rest)) if token.is_number() => match natural(token.bytes()) {
            Some(number) => Ok((number, rest)),
            None => Err(Or::Refused(left)),
        },
        _ => Err(Or::Refused(left)),
    }
}

fn read_alignment_number<'a>(ahead: Ahead<'a>) -> Reading<'a, u32>
    ensures { Gives result (one_at as_alignment ahead.entry) }
{
    let left = ahead.left();
    match ahead.split() {
        Some((token, rest)) if token.is_number() => match alignment(token.bytes()) {
            Some(number) => Ok((number, rest)),
            None => Err(Or::Refused(left)),
        },
        _ => Err(Or::Refused(left)),
    }
}

/// `align A`, with A below 2^32.
#[tactic(auto, unfolding(crate::specs::Forms::alignment_at))]
pub fn read_alignment<'a>(ahead: Ahead<'a>) -> Reading<'a, u32>
    ensures { Gives result (alignment_at ahead.entry) }
{
    let (_, rest) = expect_word(ahead, b"align".as_slice())?;
    read_alignment_number(rest)
}

/// The number 0.
pub(crate) fn expect_zero<'a>(ahead: Ahead<'a>) -> Reading<'a, u64>
    ensures { Gives result (one_at (as_natural 1) ahead.entry) }
{
    let left = ahead.left();
    match ahead.split() {
        Some((token, rest)) if token.is_number() && is_zero(token.bytes()) => Ok((0, rest)),
        _ => Err(Or::Refused(left)),
    }
}
