//! Parts that stand any number of times in a row.
ghost use Rattle.std.specs.Prelude.{◌≡◌, [], ◌∷◌, None, false, Bool, Option};
ghost use Rattle.ir_core.specs.Tokens.{Lexeme};
ghost use Rattle.read_forms.specs.Read.{Read, Gives, Shrinks, head, many_at, dropped_at, after_comma_at, more_at, list_at, at_mark};

use crate::ahead::Ahead;
use crate::tokens::{Reading, expect_mark};
use ir_core::{List, Or};
use std::alloc::Global;

/// A part of a module's text that can be read by itself. The type names the part, and has no values.
pub trait Part {
    /// What the part spells.
    type Item: Drop;

    /// The part's reading function.
    ghost reading: { Read Self.Item };

    /// Reads the part.
    fn read<'a>(alloc: Global, ahead: Ahead<'a>) -> Reading<'a, Self::Item>
        ensures { Gives result (reading ahead.entry) };
}

/// A part that can be told from its first token.
pub trait Repeated: Part {
    /// Whether the part begins with this token.
    ghost goes: { Option Lexeme → Bool };

    /// Whether the part stands next.
    fn begins(ahead: &Ahead) -> bool
        ensures { result ≡ goes (head ahead.now) };
}

/// As many as begin, one after another.
pub fn read_many<'a, T: Repeated>(alloc: Global, ahead: Ahead<'a>) -> Reading<'a, List<T::Item>>
    requires ends { T.goes None ≡ false }
    requires shrinks { Shrinks T.reading }
    ensures { Gives result (many_at T.goes T.reading ahead.entry) }
{
    let mut out = List::new(alloc);
    let mut rest = ahead;
    while T::begins(&rest) {
        let (item, after) = T::read(alloc, rest)?;
        out.push(item)?;
        rest = after;
    }
    Ok((out, rest))
}

/// As many as begin, one after another, which are dropped.
pub fn skip_many<'a, T: Repeated>(alloc: Global, ahead: Ahead<'a>) -> Reading<'a, ()>
    requires ends { T.goes None ≡ false }
    requires shrinks { Shrinks T.reading }
    ensures { Gives result (dropped_at T.goes T.reading ahead.entry) }
{
    let mut rest = ahead;
    while T::begins(&rest) {
        let (_, after) = T::read(alloc, rest)?;
        rest = after;
    }
    Ok(((), rest))
}

/// A comma, and then the part.
#[tactic(auto, unfolding(crate::specs::Read::after_comma_at))]
pub fn read_next<'a, T: Part>(alloc: Global, ahead: Ahead<'a>) -> Reading<'a, T::Item>
    ensures { Gives result (after_comma_at T.reading ahead.entry) }
{
    let (_, rest) = expect_mark(ahead, b',')?;
    T::read(alloc, rest)
}

/// As many as stand behind commas, after those that were read before.
fn read_more<'a, T: Part>(
    alloc: Global,
    before: List<T::Item>,
    ahead: Ahead<'a>,
) -> Reading<'a, List<T::Item>>
    requires { Shrinks T.reading }
    ensures { Gives result (more_at T.reading before ahead.entry) }
{
    let mut out = before;
    let mut rest = ahead;
    while rest.is_at_mark(b',') {
        let (item, after) = read_next::<T>(alloc, rest)?;
        out.push(item)?;
        rest = after;
    }
    Ok((out, rest))
}

/// `x, ..` and the closing mark.
#[tactic(auto, unfolding(crate::specs::Read::items_at))]
pub fn read_list<'a, T: Part>(
    alloc: Global,
    ahead: Ahead<'a>,
    close: u8,
) -> Reading<'a, List<T::Item>>
    requires { Shrinks T.reading }
    ensures { Gives result (list_at close T.reading ahead.entry) }
{
    let mut out = List::new(alloc);
    if ahead.is_at_mark(close) {
        let (_, rest) = expect_mark(ahead, close)?;
        return Ok((out, rest));
    }
    let (first, rest) = T::read(alloc, ahead)?;
    out.push(first)?;
    let (out, rest) = read_more::<T>(alloc, out, rest)?;
    let (_, rest) = expect_mark(rest, close)?;
    Ok((out, rest))
}
