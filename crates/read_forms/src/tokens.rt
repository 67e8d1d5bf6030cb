//! Single tokens.
ghost use Rattle.std.specs.Prelude.{◌≡◌};
ghost use Rattle.read_forms.specs.Read.{Gives, one_at, as_local, as_global, as_label, as_word, as_mark, with_line_of};

use crate::ahead::Ahead;
use crate::names::spelled_name;
use ir_core::{Name, Or};
use std::alloc::Global;

/// What is read, and the tokens behind it; or how many tokens are left from the one on that is refused.
pub type Reading<'a, X> = Result<(X, Ahead<'a>), Or<usize>>;

/// `%N`.
pub fn read_local<'a>(alloc: Global, ahead: Ahead<'a>) -> Reading<'a, Name>
    ensures { Gives result (one_at as_local ahead.entry) }
{
    let left = ahead.left();
    match ahead.split() {
        Some((token, rest)) if token.is_local() => {
            Ok((spelled_name(alloc, token.name())?, rest))
        }
        _ => Err(Or::Refused(left)),
    }
}

/// `%N`, with its line.
pub fn read_local_with_line<'a>(alloc: Global, ahead: Ahead<'a>) -> Reading<'a, (Name, u32)>
    ensures { Gives result (one_at (with_line_of as_local) ahead.entry) }
{
    let left = ahead.left();
    match ahead.split() {
        Some((token, rest)) if token.is_local() => {
            let name = spelled_name(alloc, token.name())?;
            Ok(((name, token.line()), rest))
        }
        _ => Err(Or::Refused(left)),
    }
}

/// `@N`.
pub fn read_global<'a>(alloc: Global, ahead: Ahead<'a>) -> Reading<'a, Name>
    ensures { Gives result (one_at as_global ahead.entry) }
{
    let left = ahead.left();
    match ahead.split() {
        Some((token, rest)) if token.is_global() => {
            Ok((spelled_name(alloc, token.name())?, rest))
        }
        _ => Err(Or::Refused(left)),
    }
}

/// `N:`, with its line.
pub fn read_label<'a>(alloc: Global, ahead: Ahead<'a>) -> Reading<'a, (Name, u32)>
    ensures { Gives result (one_at (with_line_of as_label) ahead.entry) }
{
    let left = ahead.left();
    match ahead.split() {
        Some((token, rest)) if token.is_label() => {
            let name = spelled_name(alloc, token.label_name())?;
            Ok(((name, token.line()), rest))
        }
        _ => Err(Or::Refused(left)),
    }
}

/// The line of this word.
pub fn expect_word<'a>(ahead: Ahead<'a>, word: &[u8]) -> Reading<'a, u32>
    ensures { Gives result (one_at (as_word word.now) ahead.entry) }
{
    let left = ahead.left();
    match ahead.split() {
        Some((token, rest)) if token.spells(word) => { Ok((token.line(), rest)) }
        _ => Err(Or::Refused(left)),
    }
}

/// The line of this mark.
pub fn expect_mark<'a>(ahead: Ahead<'a>, mark: u8) -> Reading<'a, u32>
    ensures { Gives result (one_at (as_mark mark) ahead.entry) }
{
    let left = ahead.left();
    match ahead.split() {
        Some((token, rest)) if token.is_mark(mark) => { Ok((token.line(), rest)) }
        _ => Err(Or::Refused(left)),
    }
}
