//! What stands between tokens: blanks and comments.
ghost use Rattle.std.specs.Prelude.{◌≡◌, ◌<◌, ◌≤◌, ◌^◌, ◌+◌, length, drop, ◌==◌, true, if◌then◌else◌, IsTrue, ◌↔◌};
ghost use Rattle.ir_core.specs.Bytes.{no_line_end, Blank as BlankByte, Semicolon as SemicolonByte};
ghost use Rattle.ir_core.specs.Scan.{run, class_at};
ghost use Rattle.ir_lex.specs.Scanned.{IsPlace, IsGap, BeginsToken};

use crate::class::{Class, class_at};
use memchr::memchr;

/// A place in a text.
#[derive(Clone, Copy)]
pub struct Place {
    pub at: usize,
    /// The line of the byte there, counted from 1.
    pub line: u32,
    /// How many braces are open.
    pub depth: u32,
    /// Whether blanks alone stand before it on its line.
    pub first: bool,
}

/// How many bytes come before the end of the line.
pub fn line_run(text: &[u8]) -> usize
    ensures run_is { result ≡ run no_line_end text.now }
    ensures within { result ≤ length text.now }
{
    match memchr(b'\n', text) {
        Some(size) => size,
        None => text.len(),
    }
}

/// The place behind a comment.
fn skip_comment(text: &[u8], start: Place) -> Place
    requires room { length text.now < 2 ^ 31 }
    requires is_place { IsPlace text.now start }
    requires begins { class_at (drop start.at text.now) ≡ SemicolonByte }
    ensures gap { IsGap text.now start result }
    ensures some { start.at < result.at }
{
    Place {
        at: start.at + line_run(&text[start.at..]),
        line: start.line,
        depth: start.depth,
        first: start.first,
    }
}

/// The line behind a byte that stands on this one.
fn line_after(byte: u8, line: u32) -> u32
    requires { line + 1 < 2 ^ 32 }
    ensures { result ≡ (if byte == 10 then line + 1 else line) }
{
    if byte == b'\n' { line + 1 } else { line }
}

/// Whether blanks alone stand before what is behind a blank on its line.
fn first_after(byte: u8, first: bool) -> bool
    ensures { result ≡ (if byte == 10 then true else first) }
{
    if byte == b'\n' { true } else { first }
}

/// Whether a blank stands at a place.
#[inline]
fn is_blank_at(text: &[u8], at: usize) -> bool
    ensures { IsTrue result ↔ (class_at (drop at text.now) ≡ BlankByte) }
{
    matches!(class_at(text, at), Class::Blank)
}

/// The place behind the blanks.
fn skip_blanks(text: &[u8], start: Place) -> Place
    requires room { length text.now < 2 ^ 31 }
    requires is_place { IsPlace text.now start }
    ensures gap { IsGap text.now start result }
    ensures no_blank { ¬ class_at (drop result.at text.now) ≡ BlankByte }
{
    let mut place = start;
    'blanks: while is_blank_at(text, place.at) {
        let byte = text[place.at];
        place = Place {
            at: place.at + 1,
            line: line_after(byte, place.line),
            depth: place.depth,
            first: first_after(byte, place.first),
        };
    }
    place
}

/// The place behind blanks and comments.
pub fn skip_gaps(text: &[u8], start: Place) -> Place
    requires room { length text.now < 2 ^ 31 }
    requires is_place { IsPlace text.now start }
    ensures gap { IsGap text.now start result }
    ensures begins { BeginsToken text.now result.at }
{
    let mut place = skip_blanks(text, start);
    'comments: while matches!(class_at(text, place.at), Class::Semicolon) {
        place = skip_blanks(text, skip_comment(text, place));
    }
    place
}
