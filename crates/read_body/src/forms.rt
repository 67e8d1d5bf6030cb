//! What a word or a token begins.
ghost use Rattle.std.specs.Prelude.{◌≡◌};
ghost use Rattle.ir_core.specs.Instructions.{value_words, last_words};
ghost use Rattle.read_forms.specs.Read.{GivesAs, head, one_at, look_up, form_in, as_table, with_line_of};
ghost use Rattle.read_forms.specs.Seen.{if_some};
ghost use Rattle.read_body.specs.Body.{call_words, plain_words, plain_ahead};
ghost use Rattle.read_body.specs.Seen.{value_seen, call_seen, plain_seen, last_seen};

use ir_core::{BinOp, CastOp, Or};
use read_forms::{Ahead, Reading};

/// What stands behind `%x =`, but for calls.
#[derive(Clone, Copy)]
pub(crate) enum ValueForm {
    /// An operation that can have `nuw` and `nsw`.
    Wraps(BinOp),
    /// An operation that can have `exact`.
    Divides(BinOp),
    /// An operation without flags.
    Mixes(BinOp),
    Compares,
    Casts(CastOp),
    Selects,
    Phis,
    Allocas,
    Loads,
    Changes,
    Steps,
}

/// The flags that a binary operation can have: `nuw` and `nsw`, `exact`, or none.
#[derive(Clone, Copy)]
pub(crate) enum FlagForm {
    Wrap,
    Exact,
    None,
}

/// A call, without a word before it and with one.
#[derive(Clone, Copy)]
pub(crate) enum CallForm {
    Bare,
    Led,
}

/// An instruction that ends no block.
#[derive(Clone, Copy)]
pub(crate) enum PlainForm {
    Assigns,
    Stores,
    Fences,
    Calls,
    TailCalls,
}

/// The last instruction of a block.
#[derive(Clone, Copy)]
pub(crate) enum LastForm {
    Branches,
    Switches,
    Returns,
    Stops,
}

pub(crate) fn value_form_of(word: &[u8]) -> Option<ValueForm>
    ensures { if_some value_seen result ≡ look_up value_words word.now }
{
    if word == b"add".as_slice() {
        Some(ValueForm::Wraps(BinOp::Add))
    } else if word == b"sub".as_slice() {
        Some(ValueForm::Wraps(BinOp::Sub))
    } else if word == b"mul".as_slice() {
        Some(ValueForm::Wraps(BinOp::Mul))
    } else if word == b"shl".as_slice() {
        Some(ValueForm::Wraps(BinOp::Shl))
    } else if word == b"udiv".as_slice() {
        Some(ValueForm::Divides(BinOp::UDiv))
    } else if word == b"sdiv".as_slice() {
        Some(ValueForm::Divides(BinOp::SDiv))
    } else if word == b"lshr".as_slice() {
        Some(ValueForm::Divides(BinOp::LShr))
    } else if word == b"ashr".as_slice() {
        Some(ValueForm::Divides(BinOp::AShr))
    } else if word == b"urem".as_slice() {
        Some(ValueForm::Mixes(BinOp::URem))
    } else if word == b"srem".as_slice() {
        Some(ValueForm::Mixes(BinOp::SRem))
    } else if word == b"and".as_slice() {
        Some(ValueForm::Mixes(BinOp::And))
    } else if word == b"or".as_slice() {
        Some(ValueForm::Mixes(BinOp::Or))
    } else if word == b"xor".as_slice() {
        Some(ValueForm::Mixes(BinOp::Xor))
    } else if word == b"icmp".as_slice() {
        Some(ValueForm::Compares)
    } else if word == b"zext".as_slice() {
        Some(ValueForm::Casts(CastOp::ZExt))
    } else if word == b"sext".as_slice() {
        Some(ValueForm::Casts(CastOp::SExt))
    } else if word == b"trunc".as_slice() {
        Some(ValueForm::Casts(CastOp::Trunc))
    } else if word == b"inttoptr".as_slice() {
        Some(ValueForm::Casts(CastOp::IntToPtr))
    } else if word == b"ptrtoint".as_slice() {
        Some(ValueForm::Casts(CastOp::PtrToInt))
    } else if word == b"select".as_slice() {
        Some(ValueForm::Selects)
    } else if word == b"phi".as_slice() {
        Some(ValueForm::Phis)
    } else if word == b"alloca".as_slice() {
        Some(ValueForm::Allocas)
    } else if word == b"load".as_slice() {
        Some(ValueForm::Loads)
    } else if word == b"atomicrmw".as_slice() {
        Some(ValueForm::Changes)
    } else if word == b"getelementptr".as_slice() {
        Some(ValueForm::Steps)
    } else {
        None
    }
}

pub(crate) fn read_value_form<'a>(ahead: Ahead<'a>) -> Reading<'a, ValueForm>
    ensures { GivesAs value_seen result (one_at (as_table value_words) ahead.entry) }
{
    let left = ahead.left();
    match ahead.split() {
        Some((token, rest)) if token.is_word() => match value_form_of(token.bytes()) {
            Some(form) => Ok((form, rest)),
            None => Err(Or::Refused(left)),
        },
        _ => Err(Or::Refused(left)),
    }
}

pub(crate) fn call_form_ahead(ahead: &Ahead) -> Option<CallForm>
    ensures { if_some call_seen result ≡ form_in call_words (head ahead.now) }
{
    let token = ahead.first()?;
    if token.spells(b"call".as_slice()) {
        Some(CallForm::Bare)
    } else if token.spells(b"tail".as_slice()) || token.spells(b"notail".as_slice()) {
        Some(CallForm::Led)
    } else {
        None
    }
}

fn plain_form_of(word: &[u8]) -> Option<PlainForm>
    ensures { if_some plain_seen result ≡ look_up plain_words word.now }
{
    if word == b"store".as_slice() {
        Some(PlainForm::Stores)
    } else if word == b"fence".as_slice() {
        Some(PlainForm::Fences)
    } else if word == b"call".as_slice() {
        Some(PlainForm::Calls)
    } else if word == b"tail".as_slice() || word == b"notail".as_slice() {
        Some(PlainForm::TailCalls)
    } else {
        None
    }
}

pub(crate) fn plain_form_ahead(ahead: &Ahead) -> Option<PlainForm>
    ensures { if_some plain_seen result ≡ plain_ahead (head ahead.now) }
{
    let token = ahead.first()?;
    if token.is_local() {
        Some(PlainForm::Assigns)
    } else if token.is_word() {
        plain_form_of(token.bytes())
    } else {
        None
    }
}

fn last_form_of(word: &[u8]) -> Option<LastForm>
    ensures { if_some last_seen result ≡ look_up last_words word.now }
{
    if word == b"br".as_slice() {
        Some(LastForm::Branches)
    } else if word == b"switch".as_slice() {
        Some(LastForm::Switches)
    } else if word == b"ret".as_slice() {
        Some(LastForm::Returns)
    } else if word == b"unreachable".as_slice() {
        Some(LastForm::Stops)
    } else {
        None
    }
}

/// The word that ends a block, with its line.
pub(crate) fn read_last_form<'a>(ahead: Ahead<'a>) -> Reading<'a, (LastForm, u32)>
    ensures { GivesAs (λ p. (last_seen p.0, p.1)) result (one_at (with_line_of (as_table last_words)) ahead.entry) }
{
    let left = ahead.left();
    match ahead.split() {
        Some((token, rest)) if token.is_word() => match last_form_of(token.bytes()) {
            Some(form) => Ok(((form, token.line()), rest)),
            None => Err(Or::Refused(left)),
        },
        _ => Err(Or::Refused(left)),
    }
}
