//! The token at the front of a text that is no passive line.
ghost use Rattle.std.specs.Prelude.{◌≡◌, ◌+◌, ◌<◌, ◌≤◌, ◌^◌, length, false, Some};
ghost use Rattle.ir_core.specs.Bytes.{Digit, Dash as DashByte, word_byte, digit_byte};
ghost use Rattle.ir_core.specs.Tokens.{Float, CText};
ghost use Rattle.ir_core.specs.Scan.{Minus, literal_start, is_float, longest, run, class_at, is_gap, is_number_tail, quoted_size, stem_size, name_size, meta_size, c_text_size, by_colon, by_size, by_name, word_piece, digits_piece, by_tail, dash_piece, quote_piece, piece, bad_piece, plain_at};
ghost use Rattle.ir_lex.specs.Seen.{kind_seen};
ghost use Rattle.ir_lex.specs.Scanned.{class_seen, piece_seen};

use crate::class::{Class, byte_class, class_at, is_digit_byte, is_word_byte};
use crate::literal::{Literal, float_size, literal_start, no_literal_size};
use crate::token::TokenKind;
use memchr::memchr;

/// The token at the front of a text, and how many bytes it has.
#[derive(Clone, Copy)]
pub struct Piece {
    pub kind: TokenKind,
    pub size: usize,
}

fn word_run(text: &[u8]) -> usize
    ensures run_is { result ≡ run word_byte text.now }
    ensures within { result ≤ length text.now }
{
    let mut n = 0;
    while n < text.len() && is_word_byte(text[n]) {
        n += 1;
    }
    n
}

fn digit_run(text: &[u8]) -> usize
    ensures run_is { result ≡ run digit_byte text.now }
    ensures within { result ≤ length text.now }
{
    let mut n = 0;
    while n < text.len() && is_digit_byte(text[n]) {
        n += 1;
    }
    n
}

/// Whether a `-` with this text behind it begins a number that no byte of a word follows.
fn is_number_tail(rest: &[u8]) -> bool
    ensures { result ≡ is_number_tail rest.now }
{
    let digits = digit_run(rest);
    if 0 < digits {
        digits == word_run(rest)
    } else {
        false
    }
}

/// How many bytes a quoted string has, whose first quote stands before the text; 0 if it does not close.
fn quoted_size(rest: &[u8]) -> usize
    requires { length rest.now < 2 ^ 32 }
    ensures size { result ≡ quoted_size rest.now }
    ensures small { result ≤ length rest.now + 1 }
{
    match memchr(b'"', rest) {
        Some(size) => size + 2,
        None => 0,
    }
}

/// How many bytes the longest word has that the `-` before the text begins.
fn dash_word_size(rest: &[u8]) -> usize
    requires { length rest.now < 2 ^ 32 }
    ensures size { result ≡ stem_size DashByte rest.now }
    ensures small { result ≤ length rest.now + 1 }
{
    no_literal_size(&rest[..word_run(rest)]) + 1
}

/// How many bytes a name has whose first byte is of this class and stands before the text; 0 if none begins so.
fn stem_size(class: Class, rest: &[u8]) -> usize
    requires { length rest.now < 2 ^ 32 }
    ensures size { result ≡ stem_size (class_seen class) rest.now }
    ensures small { result ≤ length rest.now + 1 }
{
    match class {
        Class::Letter => word_run(rest) + 1,
        Class::Digit => digit_run(rest) + 1,
        Class::Quote => quoted_size(rest),
        Class::Dash => dash_word_size(rest),
        _ => 0,
    }
}

/// How many bytes a name at the front of the text has; 0 if none begins there.
fn name_size(text: &[u8]) -> usize
    requires { length text.now < 2 ^ 32 }
    ensures size { result ≡ name_size text.now }
    ensures small { result ≤ length text.now }
{
    match text {
        [first, rest @ ..] => stem_size(byte_class(*first), rest),
        [] => 0,
    }
}

/// How many bytes stand behind a `!` in a token of metadata; 0 if it begins none.
pub fn meta_size(text: &[u8]) -> usize
    requires { length text.now < 2 ^ 32 }
    ensures size { result ≡ meta_size text.now }
    ensures small { result ≤ length text.now }
{
    match text {
        [first, rest @ ..] => {
            if *first == b'{' {
                1
            } else {
                stem_size(byte_class(*first), rest)
            }
        }
        [] => 0,
    }
}

/// How many bytes a quoted string has behind a `c`; 0 if there is none.
fn c_text_size(first: u8, text: &[u8]) -> usize
    requires { length text.now < 2 ^ 32 }
    ensures size { result ≡ c_text_size first text.now }
    ensures small { result ≤ length text.now }
{
    match text {
        [second, rest @ ..] => {
            if first == b'c' && *second == b'"' {
                quoted_size(rest)
            } else {
                0
            }
        }
        [] => 0,
    }
}

/// A token of this kind and size.
pub fn make_piece(kind: TokenKind, size: usize) -> Piece
    ensures { piece_seen result ≡ piece (Some (kind_seen kind)) size }
{
    Piece { kind, size }
}

fn bad_piece() -> Piece
    ensures { piece_seen result ≡ bad_piece }
{
    make_piece(TokenKind::Bad, 1)
}

/// A label, if a colon is next.
fn by_colon(kind: TokenKind, next: Class, size: usize) -> Piece
    requires { size < 2 ^ 33 }
    ensures { piece_seen result ≡ by_colon (kind_seen kind) (class_seen next) size }
{
    match next {
        Class::Colon => make_piece(TokenKind::Label, size + 1),
        _ => make_piece(kind, size),
    }
}

/// What has this size behind its first byte, or, where it has none, the other token.
fn by_size(kind: TokenKind, size: usize, other: Piece) -> Piece
    requires { size < 2 ^ 33 }
    ensures { piece_seen result ≡ by_size (kind_seen kind) size (piece_seen other) }
{
    if size == 0 {
        other
    } else {
        make_piece(kind, size + 1)
    }
}

/// A name behind its sign.
fn by_name(kind: TokenKind, size: usize) -> Piece
    requires { size < 2 ^ 33 }
    ensures { piece_seen result ≡ by_name (kind_seen kind) size }
{
    by_size(kind, size, bad_piece())
}

fn word_piece(rest: &[u8]) -> Piece
    requires { length rest.now < 2 ^ 32 }
    ensures { piece_seen result ≡ word_piece rest.now }
{
    let size = word_run(rest);
    by_colon(TokenKind::Word, class_at(rest, size), size + 1)
}

fn digits_piece(rest: &[u8]) -> Piece
    requires { length rest.now < 2 ^ 32 }
    ensures { piece_seen result ≡ digits_piece rest.now }
{
    let size = digit_run(rest);
    by_colon(TokenKind::Number, class_at(rest, size), size + 1)
}

/// What a digit begins: a float literal, a label, or a number.
fn digit_piece(first: u8, rest: &[u8]) -> Piece
    requires { length rest.now < 2 ^ 32 }
    ensures { piece_seen result
        ≡ by_size Float (longest is_float (literal_start Digit first) rest.now) (digits_piece rest.now) }
{
    let size = float_size(rest, literal_start(Class::Digit, first));
    by_size(TokenKind::Float, size, digits_piece(rest))
}

fn tail_piece(rest: &[u8]) -> Piece
    requires { length rest.now < 2 ^ 32 }
    ensures { piece_seen result ≡ by_tail (is_number_tail rest.now) rest.now }
{
    if is_number_tail(rest) {
        make_piece(TokenKind::Number, digit_run(rest) + 1)
    } else {
        word_piece(rest)
    }
}

/// What a `-` begins: a float literal, if no word is longer, or else a number, a label, or a word.
fn dash_piece(rest: &[u8]) -> Piece
    requires { length rest.now < 2 ^ 32 }
    ensures { piece_seen result ≡ dash_piece (longest is_float Minus rest.now) rest.now }
{
    let size = float_size(rest, Literal::Minus);
    if size < word_run(rest) {
        tail_piece(rest)
    } else {
        by_size(TokenKind::Float, size, tail_piece(rest))
    }
}

/// What a letter begins: a string behind a `c`, a label, or a word.
fn letter_piece(first: u8, rest: &[u8]) -> Piece
    requires { length rest.now < 2 ^ 32 }
    ensures { piece_seen result ≡ by_size CText (c_text_size first rest.now) (word_piece rest.now) }
{
    by_size(TokenKind::CText, c_text_size(first, rest), word_piece(rest))
}

/// What a quote begins: a string, a label, or nothing.
fn quote_piece(rest: &[u8]) -> Piece
    requires { length rest.now < 2 ^ 32 }
    ensures { piece_seen result ≡ quote_piece rest.now }
{
    match memchr(b'"', rest) {
        Some(size) => by_colon(TokenKind::Text, class_at(rest, size + 1), size + 2),
        None => bad_piece(),
    }
}

/// The token at the front of a text that is no passive line.
pub fn token_piece(text: &[u8]) -> Piece
    requires room { length text.now < 2 ^ 32 }
    requires begins { is_gap (class_at text.now) ≡ false }
    ensures { piece_seen result ≡ plain_at text.now }
{
    match text {
        [first, rest @ ..] => match byte_class(*first) {
            Class::Letter => letter_piece(*first, rest),
            Class::Bracket => make_piece(TokenKind::Mark(*first), 1),
            Class::Percent => by_name(TokenKind::Local, name_size(rest)),
            Class::Digit => digit_piece(*first, rest),
            Class::AtSign => by_name(TokenKind::Global, name_size(rest)),
            Class::Dash => dash_piece(rest),
            Class::Quote => quote_piece(rest),
            Class::Hash => by_name(TokenKind::Group, digit_run(rest)),
            Class::Bang => by_name(TokenKind::Meta, meta_size(rest)),
            _ => bad_piece(),
        },
        [] => bad_piece(),
    }
}
