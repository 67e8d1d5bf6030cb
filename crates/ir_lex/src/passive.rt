//! Passive lines: lines outside braces that are kept whole.
ghost use Rattle.std.specs.Prelude.{◌≡◌, ◌≤◌, ◌<◌, ◌^◌, length};
ghost use Rattle.ir_core.specs.Bytes.{class_of};
ghost use Rattle.ir_core.specs.Scan.{is_blank, trimmed, begins_with, begins_with_meta, begins_passive, line_size, passive_size};

use crate::class::{Class, byte_class};
use crate::gaps::line_run;
use crate::scan::meta_size;

fn is_blank(byte: u8) -> bool
    ensures { result ≡ is_blank (class_of byte) }
{
    matches!(byte_class(byte), Class::Blank)
}

/// How many bytes are left without the blanks at the end.
fn trimmed(line: &[u8]) -> usize
    ensures value { result ≡ trimmed line.now }
    ensures within { result ≤ length line.now }
{
    let mut size = line.len();
    'blanks: while 0 < size && is_blank(line[size - 1]) {
        size -= 1;
    }
    size
}

fn begins_with(line: &[u8], front: &[u8]) -> bool
    ensures { result ≡ begins_with front.now line.now }
{
    line.starts_with(front)
}

/// Whether a token of metadata stands at the front.
fn begins_with_meta(line: &[u8]) -> bool
    requires { length line.now < 2 ^ 32 }
    ensures { result ≡ begins_with_meta line.now }
{
    match line {
        [first, rest @ ..] => match byte_class(*first) {
            Class::Bang => 0 < meta_size(rest),
            _ => false,
        },
        [] => false,
    }
}

/// Whether a line that begins so is kept whole.
fn begins_passive(line: &[u8]) -> bool
    requires { length line.now < 2 ^ 32 }
    ensures { result ≡ begins_passive line.now }
{
    begins_with(line, b"$".as_slice())
        || begins_with(line, b"attributes".as_slice())
        || begins_with(line, b"source_filename".as_slice())
        || begins_with(line, b"target".as_slice())
        || begins_with(line, b"@llvm.".as_slice())
        || begins_with_meta(line)
}

/// How many bytes the first line has without the blanks at its end.
fn line_size(text: &[u8]) -> usize
    ensures value { result ≡ line_size text.now }
    ensures within { result ≤ length text.now }
{
    trimmed(&text[..line_run(text)])
}

/// How many bytes the passive line at the front has; 0 if there is none.
pub fn passive_size(text: &[u8]) -> usize
    requires { length text.now < 2 ^ 32 }
    ensures { result ≡ passive_size text.now }
{
    let size = line_size(text);
    if begins_passive(&text[..size]) {
        size
    } else {
        0
    }
}
