//! Operands.
ghost use Rattle.std.specs.Prelude.{◌≡◌};
ghost use Rattle.read_forms.specs.Read.{Gives, one_at, look_up, after_comma_at};
ghost use Rattle.read_forms.specs.Operands.{as_value, literals};
ghost use Rattle.read_forms.specs.Forms.{typed_at, target_at};
ghost use Rattle.read_forms.specs.Widths.{HasWidth};

use crate::ahead::Ahead;
use crate::names::spelled_name;
use crate::numbers::number_value;
use crate::repeated::{Part, read_next};
use crate::tokens::{Reading, expect_mark, expect_word, read_local};
use crate::types::read_type;
use ir_core::{Name, Or, Ty, Typed, Value};
use ir_lex::TokenKind;
use std::alloc::Global;

fn literal(word: &[u8]) -> Option<Value>
    ensures { result ≡ look_up literals word.now }
{
    if word == b"true".as_slice() {
        Some(Value::Int(1))
    } else if word == b"false".as_slice() {
        Some(Value::Int(0))
    } else if word == b"null".as_slice() {
        Some(Value::Null)
    } else {
        None
    }
}

/// An operand of a type.
pub fn read_value<'a>(alloc: Global, ty: &Ty, ahead: Ahead<'a>) -> Reading<'a, Value>
    requires { HasWidth ty.now }
    ensures { Gives result (one_at (as_value ty.now) ahead.entry) }
{
    let left = ahead.left();
    let Some((token, rest)) = ahead.split() else {
        return Err(Or::Refused(left));
    };
    let value = match token.kind() {
        TokenKind::Local => Some(Value::Local(spelled_name(alloc, token.name())?)),
        TokenKind::Global => Some(Value::Global(spelled_name(alloc, token.name())?)),
        TokenKind::Number => number_value(ty, token.bytes()),
        TokenKind::Word => literal(token.bytes()),
        _ => None,
    };
    match value {
        Some(value) => Ok((value, rest)),
        None => Err(Or::Refused(left)),
    }
}

/// A comma, and an operand of a type.
#[tactic(auto, unfolding(crate::specs::Read::after_comma_at))]
pub fn read_next_value<'a>(alloc: Global, ty: &Ty, ahead: Ahead<'a>) -> Reading<'a, Value>
    requires { HasWidth ty.now }
    ensures { Gives result (after_comma_at (one_at (as_value ty.now)) ahead.entry) }
{
    let (_, rest) = expect_mark(ahead, b',')?;
    read_value(alloc, ty, rest)
}

/// `T x`.
#[tactic(auto, unfolding(crate::specs::Forms::typed_at))]
pub fn read_typed<'a>(alloc: Global, ahead: Ahead<'a>) -> Reading<'a, Typed>
    ensures { Gives result (typed_at ahead.entry) }
{
    let (ty, rest) = read_type(alloc, ahead)?;
    let (value, rest) = read_value(alloc, &ty, rest)?;
    Ok((Typed { ty, value }, rest))
}

/// `label %B`.
#[tactic(auto, unfolding(crate::specs::Forms::target_at))]
pub fn read_target<'a>(alloc: Global, ahead: Ahead<'a>) -> Reading<'a, Name>
    ensures { Gives result (target_at ahead.entry) }
{
    let (_, rest) = expect_word(ahead, b"label".as_slice())?;
    read_local(alloc, rest)
}

/// `T x`.
pub enum Operands {}

impl Part for Operands {
    type Item = Typed;

    ghost reading = { typed_at };

    fn read<'a>(alloc: Global, ahead: Ahead<'a>) -> Reading<'a, Typed> {
        read_typed(alloc, ahead)
    }
}

/// `label %B`.
enum Targets {}

impl Part for Targets {
    type Item = Name;

    ghost reading = { target_at };

    fn read<'a>(alloc: Global, ahead: Ahead<'a>) -> Reading<'a, Name> {
        read_target(alloc, ahead)
    }
}

/// `, T x`.
pub fn read_next_typed<'a>(alloc: Global, ahead: Ahead<'a>) -> Reading<'a, Typed>
    ensures { Gives result (after_comma_at typed_at ahead.entry) }
{
    read_next::<Operands>(alloc, ahead)
}

/// `, label %B`.
pub fn read_next_target<'a>(alloc: Global, ahead: Ahead<'a>) -> Reading<'a, Name>
    ensures { Gives result (after_comma_at target_at ahead.entry) }
{
    read_next::<Targets>(alloc, ahead)
}
