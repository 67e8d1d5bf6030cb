//! Parts behind commas, and attachments behind them.
ghost use Rattle.std.specs.Prelude.{◌≡◌, [], ◌∷◌};
ghost use Rattle.read_forms.specs.Read.{Read, Gives, Shrinks, one_at, as_local};
ghost use Rattle.read_forms.specs.Forms.{typed_at};
ghost use Rattle.read_forms.specs.Widths.{HasWidth};
ghost use Rattle.read_body.specs.Rows.{rows_after, one_row_at};
ghost use Rattle.read_body.specs.Body.{edge_at};

use ir_core::{Edge, List, Name, Ty, Typed};
use read_ends::{is_at_attachment, read_attached};
use read_forms::{
    Ahead, Part, Reading, expect_mark, read_local, read_next, read_typed, read_value,
};
use std::alloc::Global;

/// A part of which more stand behind commas. The value knows what each needs.
pub(crate) trait Row {
    type Item: Drop;

    ghost ready: { Self → Type 0 };

    ghost reading: { Self → Read Self.Item };

    fn read<'a>(&self, alloc: Global, ahead: Ahead<'a>) -> Reading<'a, Self::Item>
        requires { ready self.now }
        ensures { Gives result (reading self.now ahead.entry) };
}

/// Behind a comma, one part more; or none, where attachments stand.
#[tactic(auto, unfolding(crate::specs::Rows::one_row_at, crate::specs::Rows::some_at, read_ends::specs::Ends::behind_comma_at, read_forms::specs::Read::after_comma_at))]
fn read_one_row<'a, R: Row>(
    alloc: Global,
    row: &R,
    ahead: Ahead<'a>,
) -> Reading<'a, Option<R::Item>>
    requires { R.ready row.now }
    ensures { Gives result (one_row_at (R.reading row.now) ahead.entry) }
{
    let (_, rest) = expect_mark(ahead, b',')?;
    if is_at_attachment(&rest) {
        return read_attached(alloc, None, rest);
    }
    let (item, rest) = row.read(alloc, rest)?;
    Ok((Some(item), rest))
}

/// As many parts as stand behind commas, after those that were read before, and the attachments.
fn read_more_rows<'a, R: Row>(
    alloc: Global,
    row: &R,
    before: List<R::Item>,
    ahead: Ahead<'a>,
) -> Reading<'a, List<R::Item>>
    requires ready { R.ready row.now }
    requires shrinks { Shrinks (R.reading row.now) }
    ensures { Gives result (rows_after (R.reading row.now) before ahead.entry) }
{
    let mut out = before;
    let mut rest = ahead;
    while rest.is_at_mark(b',') {
        let (item, after) = read_one_row(alloc, row, rest)?;
        rest = after;
        match item {
            Some(item) => out.push(item)?,
            None => return Ok((out, rest)),
        }
    }
    Ok((out, rest))
}

/// The first part, those that stand behind commas, and the attachments.
pub(crate) fn read_rows<'a, R: Row>(
    alloc: Global,
    row: &R,
    first: R::Item,
    ahead: Ahead<'a>,
) -> Reading<'a, List<R::Item>>
    requires ready { R.ready row.now }
    requires shrinks { Shrinks (R.reading row.now) }
    ensures { Gives result (rows_after (R.reading row.now) (first ∷ []) ahead.entry) }
{
    let mut out = List::new(alloc);
    out.push(first)?;
    read_more_rows(alloc, row, out, ahead)
}

/// `T x`.
#[derive(Clone, Copy)]
pub(crate) struct Operand;

impl Row for Operand {
    type Item = Typed;

    ghost ready = { λ s. Unit {0} };

    ghost reading = { λ s. typed_at };

    fn read<'a>(&self, alloc: Global, ahead: Ahead<'a>) -> Reading<'a, Typed> {
        read_typed(alloc, ahead)
    }
}

/// `[ x, %B ]`, with x of a type.
#[derive(Clone, Copy)]
pub(crate) struct EdgeOf<'t> {
    pub(crate) ty: &'t Ty,
}

impl<'t> Row for EdgeOf<'t> {
    type Item = Edge;

    ghost ready = { λ s. HasWidth s.ty.now };

    ghost reading = { λ s. edge_at s.ty.now };

    fn read<'a>(&self, alloc: Global, ahead: Ahead<'a>) -> Reading<'a, Edge> {
        read_edge(alloc, self.ty, ahead)
    }
}

/// `%N`.
enum Locals {}

impl Part for Locals {
    type Item = Name;

    ghost reading = { one_at as_local };

    fn read<'a>(alloc: Global, ahead: Ahead<'a>) -> Reading<'a, Name> {
        read_local(alloc, ahead)
    }
}

/// `[ x, %B ]`.
#[tactic(auto, unfolding(crate::specs::Body::edge_at))]
pub(crate) fn read_edge<'a>(alloc: Global, ty: &Ty, ahead: Ahead<'a>) -> Reading<'a, Edge>
    requires { HasWidth ty.now }
    ensures { Gives result (edge_at ty.now ahead.entry) }
{
    let (_, rest) = expect_mark(ahead, b'[')?;
    let (value, rest) = read_value(alloc, ty, rest)?;
    let (block, rest) = read_next::<Locals>(alloc, rest)?;
    let (_, rest) = expect_mark(rest, b']')?;
    Ok((Edge { value, block }, rest))
}
