//! Attributes of parameters, results and arguments, which are dropped.
ghost use Rattle.std.specs.Prelude.{◌≡◌};
ghost use Rattle.ir_core.specs.Forms.{plain_attributes, sized_attributes};
ghost use Rattle.read_forms.specs.Read.{Gives, head, one_at, look_up, all_for, as_one_of, form_in};
ghost use Rattle.read_forms.specs.Forms.{align_attribute_at, sized_attribute_at, attribute_words, attribute_goes, attribute_at, attributes_at};
ghost use Rattle.read_forms.specs.Seen.{if_some, attribute_form_seen};

use crate::ahead::Ahead;
use crate::numbers::read_length;
use crate::repeated::{Part, Repeated, skip_many};
use crate::tokens::{Reading, expect_mark, expect_word};
use ir_core::Or;
use std::alloc::Global;

/// An attribute: one word, `align n`, or a word and `(n)`.
#[derive(Clone, Copy)]
enum AttributeForm {
    Plain,
    Align,
    Sized,
}

fn plain_attribute(word: &[u8]) -> Option<()>
    ensures { result ≡ look_up (all_for (tt {0}) plain_attributes) word.now }
{
    if word == b"zeroext".as_slice()
        || word == b"signext".as_slice()
        || word == b"inreg".as_slice()
        || word == b"noalias".as_slice()
        || word == b"nocapture".as_slice()
        || word == b"noundef".as_slice()
        || word == b"nonnull".as_slice()
        || word == b"readonly".as_slice()
        || word == b"readnone".as_slice()
        || word == b"writeonly".as_slice()
        || word == b"returned".as_slice()
        || word == b"nofree".as_slice()
        || word == b"immarg".as_slice()
        || word == b"allocptr".as_slice()
    {
        Some(())
    } else {
        None
    }
}

fn sized_attribute(word: &[u8]) -> Option<()>
    ensures { result ≡ look_up (all_for (tt {0}) sized_attributes) word.now }
{
    if word == b"dereferenceable".as_slice() || word == b"dereferenceable_or_null".as_slice() {
        Some(())
    } else {
        None
    }
}

fn attribute_form(word: &[u8]) -> Option<AttributeForm>
    ensures { if_some attribute_form_seen result ≡ look_up attribute_words word.now }
{
    if plain_attribute(word).is_some() {
        Some(AttributeForm::Plain)
    } else if sized_attribute(word).is_some() {
        Some(AttributeForm::Sized)
    } else if word == b"align".as_slice() {
        Some(AttributeForm::Align)
    } else {
        None
    }
}

fn attribute_form_ahead(ahead: &Ahead) -> Option<AttributeForm>
    ensures { if_some attribute_form_seen result ≡ form_in attribute_words (head ahead.now) }
{
    let token = ahead.first()?;
    if token.is_word() {
        attribute_form(token.bytes())
    } else {
        None
    }
}

fn read_plain_attribute<'a>(ahead: Ahead<'a>) -> Reading<'a, ()>
    ensures { Gives result (one_at (as_one_of plain_attributes) ahead.entry) }
{
    let left = ahead.left();
    match ahead.split() {
        Some((token, rest)) if token.is_word() => match plain_attribute(token.bytes()) {
            Some(()) => Ok(((), rest)),
            None => Err(Or::Refused(left)),
        },
        _ => Err(Or::Refused(left)),
    }
}

fn expect_sized_word<'a>(ahead: Ahead<'a>) -> Reading<'a, ()>
    ensures { Gives result (one_at (as_one_of sized_attributes) ahead.entry) }
{
    let left = ahead.left();
    match ahead.split() {
        Some((token, rest)) if token.is_word() => match sized_attribute(token.bytes()) {
            Some(()) => Ok(((), rest)),
            None => Err(Or::Refused(left)),
        },
        _ => Err(Or::Refused(left)),
    }
}

/// `align n`.
#[tactic(auto, unfolding(crate::specs::Forms::align_attribute_at))]
fn read_align_attribute<'a>(ahead: Ahead<'a>) -> Reading<'a, ()>
    ensures { Gives result (align_attribute_at ahead.entry) }
{
    let (_, rest) = expect_word(ahead, b"align".as_slice())?;
    let (_, rest) = read_length(rest)?;
    Ok(((), rest))
}

/// A word and `(n)`.
#[tactic(auto, unfolding(crate::specs::Forms::sized_attribute_at))]
fn read_sized_attribute<'a>(ahead: Ahead<'a>) -> Reading<'a, ()>
    ensures { Gives result (sized_attribute_at ahead.entry) }
{
    let (_, rest) = expect_sized_word(ahead)?;
    let (_, rest) = expect_mark(rest, b'(')?;
    let (_, rest) = read_length(rest)?;
    let (_, rest) = expect_mark(rest, b')')?;
    Ok(((), rest))
}

#[tactic(auto, unfolding(crate::specs::Forms::attribute_at))]
fn read_attribute<'a>(ahead: Ahead<'a>) -> Reading<'a, ()>
    ensures { Gives result (attribute_at ahead.entry) }
{
    match attribute_form_ahead(&ahead) {
        Some(AttributeForm::Plain) => read_plain_attribute(ahead),
        Some(AttributeForm::Align) => read_align_attribute(ahead),
        Some(AttributeForm::Sized) => read_sized_attribute(ahead),
        None => Err(Or::Refused(ahead.left())),
    }
}

/// Attributes.
enum Attributes {}

impl Part for Attributes {
    type Item = ();

    ghost reading = { attribute_at };

    fn read<'a>(_: Global, ahead: Ahead<'a>) -> Reading<'a, ()> {
        read_attribute(ahead)
    }
}

impl Repeated for Attributes {
    ghost goes = { attribute_goes };

    fn begins(ahead: &Ahead) -> bool {
        attribute_form_ahead(ahead).is_some()
    }
}

/// As many attributes as stand here, which are dropped.
#[tactic(auto, unfolding(crate::specs::Forms::attributes_at))]
pub fn skip_attributes<'a>(alloc: Global, ahead: Ahead<'a>) -> Reading<'a, ()>
    ensures { Gives result (attributes_at ahead.entry) }
{
    skip_many::<Attributes>(alloc, ahead)
}
