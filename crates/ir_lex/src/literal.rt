//! Numbers and float literals, byte by byte (LLVM Language Reference, "Simple Constants").
ghost use Rattle.std.specs.Prelude.{◌≡◌, ◌≤◌, length, if◌then◌else◌, IsTrue, ◌↔◌};
ghost use Rattle.ir_core.specs.Bytes.{hex_byte};
ghost use Rattle.ir_core.specs.Scan.{is_float, is_no_literal, longest};
ghost use Rattle.ir_core.specs.Scan as scan;
ghost use Rattle.ir_lex.specs.Scanned.{class_seen, literal_seen};

use crate::class::{Class, is_digit_byte};

/// How far a literal has come.
#[derive(Clone, Copy)]
pub enum Literal {
    /// Behind its `-`.
    Minus,
    /// A `0` alone.
    Zero,
    /// Digits.
    Whole,
    /// Behind its point, and digits there.
    Point,
    /// Behind the `e` of its exponent.
    Exponent,
    /// Behind the sign of its exponent.
    Sign,
    /// Digits of its exponent.
    Power,
    /// Behind `0x`.
    Prefix,
    /// Behind the letter that says which format the hexadecimal digits are of.
    Format,
    /// Hexadecimal digits.
    Hexadecimal,
    /// It is no literal.
    Neither,
}

/// A literal behind its first byte.
pub fn literal_start(class: Class, byte: u8) -> Literal
    ensures { literal_seen result ≡ scan.literal_start (class_seen class) byte }
{
    match class {
        Class::Dash => Literal::Minus,
        Class::Digit => {
            if byte == b'0' {
                Literal::Zero
            } else {
                Literal::Whole
            }
        }
        _ => Literal::Neither,
    }
}

fn is_hexadecimal(byte: u8) -> bool
    ensures { result ≡ hex_byte byte }
{
    matches!(byte, b'0'..=b'9' | b'a'..=b'f' | b'A'..=b'F')
}

fn zero_step(byte: u8) -> Literal
    ensures { literal_seen result ≡ scan.literal_step scan.Zero byte }
{
    if is_digit_byte(byte) {
        return Literal::Whole;
    }
    match byte {
        b'.' => Literal::Point,
        b'x' => Literal::Prefix,
        _ => Literal::Neither,
    }
}

fn whole_step(byte: u8) -> Literal
    ensures { literal_seen result ≡ scan.literal_step scan.Whole byte }
{
    if is_digit_byte(byte) {
        return Literal::Whole;
    }
    match byte {
        b'.' => Literal::Point,
        _ => Literal::Neither,
    }
}

fn point_step(byte: u8) -> Literal
    ensures { literal_seen result ≡ scan.literal_step scan.Point byte }
{
    if is_digit_byte(byte) {
        return Literal::Point;
    }
    match byte {
        b'e' | b'E' => Literal::Exponent,
        _ => Literal::Neither,
    }
}

fn exponent_step(byte: u8) -> Literal
    ensures { literal_seen result ≡ scan.literal_step scan.Exponent byte }
{
    if is_digit_byte(byte) {
        return Literal::Power;
    }
    match byte {
        b'+' | b'-' => Literal::Sign,
        _ => Literal::Neither,
    }
}

fn prefix_step(byte: u8) -> Literal
    ensures { literal_seen result ≡ scan.literal_step scan.Prefix byte }
{
    if is_hexadecimal(byte) {
        return Literal::Hexadecimal;
    }
    match byte {
        b'K' | b'L' | b'M' | b'H' | b'R' => Literal::Format,
        _ => Literal::Neither,
    }
}

/// The literal `next`, if the test holds.
fn only_if(holds: bool, next: Literal) -> Literal
    ensures { literal_seen result ≡ (if holds then literal_seen next else scan.Neither) }
{
    if holds { next } else { Literal::Neither }
}

/// A literal behind one byte more.
fn literal_step(literal: Literal, byte: u8) -> Literal
    ensures { literal_seen result ≡ scan.literal_step (literal_seen literal) byte }
{
    match literal {
        Literal::Minus => only_if(is_digit_byte(byte), Literal::Whole),
        Literal::Zero => zero_step(byte),
        Literal::Whole => whole_step(byte),
        Literal::Point => point_step(byte),
        Literal::Exponent => exponent_step(byte),
        Literal::Sign | Literal::Power => only_if(is_digit_byte(byte), Literal::Power),
        Literal::Prefix => prefix_step(byte),
        Literal::Format | Literal::Hexadecimal => {
            only_if(is_hexadecimal(byte), Literal::Hexadecimal)
        }
        Literal::Neither => Literal::Neither,
    }
}

/// Whether nothing that follows makes it a literal.
fn is_over(literal: Literal) -> bool
    ensures { IsTrue result ↔ (literal_seen literal ≡ scan.Neither) }
{
    matches!(literal, Literal::Neither)
}

/// Whether a float literal can end so.
fn is_float(literal: Literal) -> bool
    ensures { result ≡ is_float (literal_seen literal) }
{
    matches!(
        literal,
        Literal::Point | Literal::Power | Literal::Hexadecimal
    )
}

/// Whether this is neither a number nor a float literal.
fn is_no_literal(literal: Literal) -> bool
    ensures { result ≡ is_no_literal (literal_seen literal) }
{
    !is_float(literal) && !matches!(literal, Literal::Zero | Literal::Whole)
}

/// How many bytes of the text the longest float literal has that begins so; 0 if there is none.
pub fn float_size(text: &[u8], start: Literal) -> usize
    ensures value { result ≡ longest is_float (literal_seen start) text.now }
    ensures within { result ≤ length text.now }
{
    let mut literal = start;
    let mut size = 0;
    let mut n = 0;
    'bytes: while n < text.len() && !is_over(literal) {
        literal = literal_step(literal, text[n]);
        n += 1;
        if is_float(literal) {
            size = n;
        }
    }
    size
}

/// How many bytes of the text stand behind a `-` in the longest word there, if all of them can stand in a word.
pub fn no_literal_size(text: &[u8]) -> usize
    ensures value { result ≡ longest is_no_literal scan.Minus text.now }
    ensures within { result ≤ length text.now }
{
    let mut literal = Literal::Minus;
    let mut size = 0;
    let mut n = 0;
    'bytes: while n < text.len() {
        literal = literal_step(literal, text[n]);
        n += 1;
        if is_no_literal(literal) {
            size = n;
        }
    }
    size
}
