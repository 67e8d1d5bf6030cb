//! Calls.
ghost use Rattle.std.specs.Prelude.{◌≡◌};
ghost use Rattle.ir_core.specs.Instructions.{conventions};
ghost use Rattle.read_forms.specs.Read.{Gives, head, maybe_at, one_at, look_up, all_for, as_one_of};
ghost use Rattle.read_body.specs.Body.{argument_at, as_callee, convention_goes, call_type_at, called_at, bare_call_at, led_call_at, call_goes, call_at};

use crate::forms::{CallForm, call_form_ahead};
use crate::words::read_word;
use ir_core::{Kind, Or, TailWord, Ty, Typed, Value};
use ir_lex::TokenKind;
use read_ends::skip_call_end;
use read_forms::{
    Ahead, Part, Reading, expect_mark, expect_word, read_list, read_result_type, read_type,
    read_value, skip_attributes, spelled_name,
};
use std::alloc::Global;

/// The word of a calling convention.
pub fn convention(word: &[u8]) -> Option<()>
    ensures { result ≡ look_up (all_for (tt {0}) conventions) word.now }
{
    if word == b"ccc".as_slice() || word == b"fastcc".as_slice() || word == b"coldcc".as_slice() {
        Some(())
    } else {
        None
    }
}

fn is_at_convention(ahead: &Ahead) -> bool
    ensures { result ≡ convention_goes (head ahead.now) }
{
    match ahead.first() {
        Some(token) => token.is_word() && convention(token.bytes()).is_some(),
        None => false,
    }
}

fn read_convention<'a>(ahead: Ahead<'a>) -> Reading<'a, ()>
    ensures { Gives result (one_at (as_one_of conventions) ahead.entry) }
{
    let left = ahead.left();
    match ahead.split() {
        Some((token, rest)) if token.is_word() => match convention(token.bytes()) {
            Some(()) => Ok(((), rest)),
            None => Err(Or::Refused(left)),
        },
        _ => Err(Or::Refused(left)),
    }
}

/// An argument, whose attributes are dropped.
#[tactic(auto, unfolding(crate::specs::Body::argument_at))]
fn read_argument<'a>(alloc: Global, ahead: Ahead<'a>) -> Reading<'a, Typed>
    ensures { Gives result (argument_at ahead.entry) }
{
    let (_, rest) = skip_attributes(alloc, ahead)?;
    let (ty, rest) = read_type(alloc, rest)?;
    let (_, rest) = skip_attributes(alloc, rest)?;
    let (value, rest) = read_value(alloc, &ty, rest)?;
    Ok((Typed { ty, value }, rest))
}

/// Arguments.
enum Arguments {}

impl Part for Arguments {
    type Item = Typed;

    ghost reading = { argument_at };

    fn read<'a>(alloc: Global, ahead: Ahead<'a>) -> Reading<'a, Typed> {
        read_argument(alloc, ahead)
    }
}

/// `@N` or `%N`.
fn read_callee<'a>(alloc: Global, ahead: Ahead<'a>) -> Reading<'a, Value>
    ensures { Gives result (one_at as_callee ahead.entry) }
{
    let left = ahead.left();
    let Some((token, rest)) = ahead.split() else {
        return Err(Or::Refused(left));
    };
    match token.kind() {
        TokenKind::Local => {
            let name = spelled_name(alloc, token.name())?;
            Ok((Value::Local(name), rest))
        }
        TokenKind::Global => {
            let name = spelled_name(alloc, token.name())?;
            Ok((Value::Global(name), rest))
        }
        _ => Err(Or::Refused(left)),
    }
}

/// The type of a call's result, behind its convention and attributes.
#[tactic(auto, unfolding(crate::specs::Body::call_type_at))]
fn read_call_type<'a>(alloc: Global, ahead: Ahead<'a>) -> Reading<'a, Ty>
    ensures { Gives result (call_type_at ahead.entry) }
{
    let (_, rest) = skip_convention(ahead)?;
    let (_, rest) = skip_attributes(alloc, rest)?;
    read_result_type(alloc, rest)
}

/// A calling convention where one stands, which is dropped.
fn skip_convention<'a>(ahead: Ahead<'a>) -> Reading<'a, ()>
    ensures { Gives result (maybe_at tt convention_goes (one_at (as_one_of conventions)) ahead.entry) }
{
    if is_at_convention(&ahead) {
        read_convention(ahead)
    } else {
        Ok(((), ahead))
    }
}

/// `T @N(V, ..)`, behind the word `call`.
#[tactic(auto, unfolding(crate::specs::Body::called_at))]
pub(crate) fn read_called<'a>(alloc: Global, tail: TailWord, ahead: Ahead<'a>) -> Reading<'a, Kind>
    ensures { Gives result (called_at tail ahead.entry) }
{
    let (ret, rest) = read_call_type(alloc, ahead)?;
    let (callee, rest) = read_callee(alloc, rest)?;
    let (_, rest) = expect_mark(rest, b'(')?;
    let (args, rest) = read_list::<Arguments>(alloc, rest, b')')?;
    let (_, rest) = skip_call_end(alloc, rest)?;
    let kind = Kind::Call {
        tail,
        ret,
        callee,
        args,
    };
    Ok((kind, rest))
}

/// `call ..`.
#[tactic(auto, unfolding(crate::specs::Body::bare_call_at))]
fn read_bare_call<'a>(alloc: Global, ahead: Ahead<'a>) -> Reading<'a, Kind>
    ensures { Gives result (bare_call_at ahead.entry) }
{
    let (_, rest) = expect_word(ahead, b"call".as_slice())?;
    read_called(alloc, TailWord::Absent, rest)
}

/// `tail call ..` or `notail call ..`.
#[tactic(auto, unfolding(crate::specs::Body::led_call_at))]
fn read_led_call<'a>(alloc: Global, ahead: Ahead<'a>) -> Reading<'a, Kind>
    ensures { Gives result (led_call_at ahead.entry) }
{
    let (tail, rest) = read_word(ahead)?;
    let (_, rest) = expect_word(rest, b"call".as_slice())?;
    read_called(alloc, tail, rest)
}

/// Whether a call begins here.
pub(crate) fn is_at_call(ahead: &Ahead) -> bool
    ensures { result ≡ call_goes (head ahead.now) }
{
    call_form_ahead(ahead).is_some()
}

/// A call.
#[tactic(auto, unfolding(crate::specs::Body::call_at))]
pub(crate) fn read_call<'a>(alloc: Global, ahead: Ahead<'a>) -> Reading<'a, Kind>
    ensures { Gives result (call_at ahead.entry) }
{
    match call_form_ahead(&ahead) {
        Some(CallForm::Bare) => read_bare_call(alloc, ahead),
        Some(CallForm::Led) => read_led_call(alloc, ahead),
        None => Err(Or::Refused(ahead.left())),
    }
}
