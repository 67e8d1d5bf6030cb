//! Initializers.
ghost use Rattle.std.specs.Prelude.{◌≡◌};
ghost use Rattle.read_forms.specs.Read.{Gives, one_at, look_up, after_comma_at, more_at, list_at};
ghost use Rattle.read_forms.specs.Widths.{HasWidth};
ghost use Rattle.read_items.specs.Inits.{init_words, as_plain_init, element_at, square_at, braces_at, init_in_at};

use ir_core::{Element, Init, List, Or, Ty, Value};
use ir_lex::TokenKind;
use read_forms::{Ahead, Reading, expect_mark, number_value, quoted_name, read_type, spelled_name};
use std::alloc::Global;

/// The initializer that a word spells.
pub(crate) fn init_word(word: &[u8]) -> Option<Init>
    ensures { result ≡ look_up init_words word.now }
{
    if word == b"zeroinitializer".as_slice() {
        Some(Init::Zero)
    } else if word == b"null".as_slice() {
        Some(Init::Null)
    } else if word == b"true".as_slice() {
        Some(Init::Int(1))
    } else if word == b"false".as_slice() {
        Some(Init::Int(0))
    } else {
        None
    }
}

/// An initializer of one token.
pub(crate) fn read_plain_init<'a>(alloc: Global, ty: &Ty, ahead: Ahead<'a>) -> Reading<'a, Init>
    requires { HasWidth ty.now }
    ensures { Gives result (one_at (as_plain_init ty.now) ahead.entry) }
{
    let left = ahead.left();
    let Some((token, rest)) = ahead.split() else {
        return Err(Or::Refused(left));
    };
    let init = match token.kind() {
        TokenKind::Global => Some(Init::Addr(spelled_name(alloc, token.name())?)),
        TokenKind::CText => Some(Init::Bytes(quoted_name(alloc, token.name())?)),
        TokenKind::Number => match number_value(ty, token.bytes()) {
            Some(Value::Int(value)) => Some(Init::Int(value)),
            _ => None,
        },
        TokenKind::Word => init_word(token.bytes()),
        _ => None,
    };
    match init {
        Some(init) => Ok((init, rest)),
        None => Err(Or::Refused(left)),
    }
}

/// An initializer with at most so many brackets open at once.
#[tactic(auto, unfolding(crate::specs::Inits::init_in_at))]
#[cycle(read_init)]
pub(crate) fn read_init_in<'a>(
    alloc: Global,
    depth: u32,
    ty: &Ty,
    ahead: Ahead<'a>,
) -> Reading<'a, Init>
    requires { HasWidth ty.now }
    ensures { Gives result (init_in_at depth ty.now ahead.entry) }
{
    if depth == 0 {
        return read_plain_init(alloc, ty, ahead);
    }
    if ahead.is_at_mark(b'[') {
        read_square(alloc, depth - 1, ahead)
    } else if ahead.is_at_mark(b'{') {
        read_braces(alloc, depth - 1, ahead)
    } else {
        read_plain_init(alloc, ty, ahead)
    }
}

/// `T INIT`.
#[tactic(auto, unfolding(crate::specs::Inits::element_at))]
#[cycle(read_init)]
fn read_element<'a>(alloc: Global, depth: u32, ahead: Ahead<'a>) -> Reading<'a, Element>
    ensures { Gives result (element_at (init_in_at depth) ahead.entry) }
{
    let (ty, rest) = read_type(alloc, ahead)?;
    let (init, rest) = read_init_in(alloc, depth, &ty, rest)?;
    Ok((Element { ty, init }, rest))
}

/// `[ T INIT, .. ]`.
#[tactic(auto, unfolding(crate::specs::Inits::square_at))]
#[cycle(read_init)]
pub(crate) fn read_square<'a>(alloc: Global, depth: u32, ahead: Ahead<'a>) -> Reading<'a, Init>
    ensures { Gives result (square_at (element_at (init_in_at depth)) ahead.entry) }
{
    let (_, rest) = expect_mark(ahead, b'[')?;
    let (elements, rest) = read_elements(alloc, depth, b']', rest)?;
    Ok((Init::Square(elements), rest))
}

/// `{ T INIT, .. }`.
#[tactic(auto, unfolding(crate::specs::Inits::braces_at))]
#[cycle(read_init)]
pub(crate) fn read_braces<'a>(alloc: Global, depth: u32, ahead: Ahead<'a>) -> Reading<'a, Init>
    ensures { Gives result (braces_at (element_at (init_in_at depth)) ahead.entry) }
{
    let (_, rest) = expect_mark(ahead, b'{')?;
    let (elements, rest) = read_elements(alloc, depth, b'}', rest)?;
    Ok((Init::Braces(elements), rest))
}

/// `T INIT, ..` and the closing mark.
#[tactic(auto, unfolding(read_forms::specs::Read::items_at))]
#[cycle(read_init)]
fn read_elements<'a>(
    alloc: Global,
    depth: u32,
    close: u8,
    ahead: Ahead<'a>,
) -> Reading<'a, List<Element>>
    ensures { Gives result (list_at close (element_at (init_in_at depth)) ahead.entry) }
{
    let mut elements = List::new(alloc);
    if ahead.is_at_mark(close) {
        let (_, rest) = expect_mark(ahead, close)?;
        return Ok((elements, rest));
    }
    let (first, rest) = read_element(alloc, depth, ahead)?;
    elements.push(first)?;
    let (elements, rest) = read_more_elements(alloc, depth, elements, rest)?;
    let (_, rest) = expect_mark(rest, close)?;
    Ok((elements, rest))
}

/// `, T INIT`.
#[tactic(auto, unfolding(read_forms::specs::Read::after_comma_at))]
#[cycle(read_init)]
fn read_next_element<'a>(alloc: Global, depth: u32, ahead: Ahead<'a>) -> Reading<'a, Element>
    ensures { Gives result (after_comma_at (element_at (init_in_at depth)) ahead.entry) }
{
    let (_, rest) = expect_mark(ahead, b',')?;
    read_element(alloc, depth, rest)
}

/// As many elements as stand behind commas, after those that were read before.
#[cycle(read_init)]
fn read_more_elements<'a>(
    alloc: Global,
    depth: u32,
    before: List<Element>,
    ahead: Ahead<'a>,
) -> Reading<'a, List<Element>>
    ensures { Gives result (more_at (element_at (init_in_at depth)) before ahead.entry) }
{
    let mut elements = before;
    let mut rest = ahead;
    while rest.is_at_mark(b',') {
        let (element, after) = read_next_element(alloc, depth, rest)?;
        elements.push(element)?;
        rest = after;
    }
    Ok((elements, rest))
}
