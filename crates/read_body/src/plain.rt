//! Instructions that end no block.
ghost use Rattle.std.specs.Prelude.{◌≡◌, None};
ghost use Rattle.ir_core.specs.Instructions.{at_line};
ghost use Rattle.read_forms.specs.Read.{Gives};
ghost use Rattle.read_body.specs.Body.{assigned_at, stored_at, fenced_at, assignment_at, store_at, fence_at, plain_call_at, tail_call_at, plain_at};

use crate::calls::{is_at_call, read_call, read_called};
use crate::forms::{PlainForm, plain_form_ahead};
use crate::values::{read_flag, read_instruction_value, read_order, read_order_if};
use crate::words::read_word_with_line;
use ir_core::{Inst, Kind, Or, TailWord};
use read_ends::{read_tail, skip_attachments};
use read_forms::{
    Ahead, Reading, expect_mark, expect_word, read_local_with_line, read_next_typed, read_typed,
};
use std::alloc::Global;

/// What stands behind `%x =`.
#[tactic(auto, unfolding(crate::specs::Body::assigned_at))]
fn read_assigned<'a>(alloc: Global, ahead: Ahead<'a>) -> Reading<'a, Kind>
    ensures { Gives result (assigned_at ahead.entry) }
{
    if is_at_call(&ahead) {
        read_call(alloc, ahead)
    } else {
        read_instruction_value(alloc, ahead)
    }
}

/// `T x, T p`, atomic or not, and its alignment.
#[tactic(auto, unfolding(crate::specs::Body::stored_at))]
fn read_stored<'a>(alloc: Global, ahead: Ahead<'a>) -> Reading<'a, Kind>
    ensures { Gives result (stored_at ahead.entry) }
{
    let (atomic, rest) = read_flag(ahead, b"atomic".as_slice())?;
    let (value, rest) = read_typed(alloc, rest)?;
    let (at, rest) = read_next_typed(alloc, rest)?;
    let (order, rest) = read_order_if(atomic, rest)?;
    let (align, rest) = read_tail(alloc, rest)?;
    let kind = Kind::Store {
        value,
        at,
        order,
        align,
    };
    Ok((kind, rest))
}

#[tactic(auto, unfolding(crate::specs::Body::fenced_at))]
fn read_fenced<'a>(alloc: Global, ahead: Ahead<'a>) -> Reading<'a, Kind>
    ensures { Gives result (fenced_at ahead.entry) }
{
    let (order, rest) = read_order(ahead)?;
    let (_, rest) = skip_attachments(alloc, rest)?;
    Ok((Kind::Fence { order }, rest))
}

/// `%x = ..`.
#[tactic(auto, unfolding(crate::specs::Body::assignment_at))]
fn read_assignment<'a>(alloc: Global, ahead: Ahead<'a>) -> Reading<'a, Inst>
    ensures { Gives result (assignment_at ahead.entry) }
{
    let ((name, line), rest) = read_local_with_line(alloc, ahead)?;
    let (_, rest) = expect_mark(rest, b'=')?;
    let (kind, rest) = read_assigned(alloc, rest)?;
    let inst = Inst {
        result: Some(name),
        kind,
        line,
    };
    Ok((inst, rest))
}

fn without_result(kind: Kind, line: u32) -> Inst
    ensures { result ≡ at_line None line kind }
{
    Inst {
        result: None,
        kind,
        line,
    }
}

/// `store ..`.
#[tactic(auto, unfolding(crate::specs::Body::store_at))]
fn read_store<'a>(alloc: Global, ahead: Ahead<'a>) -> Reading<'a, Inst>
    ensures { Gives result (store_at ahead.entry) }
{
    let (line, rest) = expect_word(ahead, b"store".as_slice())?;
    let (kind, rest) = read_stored(alloc, rest)?;
    Ok((without_result(kind, line), rest))
}

/// `fence ..`.
#[tactic(auto, unfolding(crate::specs::Body::fence_at))]
fn read_fence<'a>(alloc: Global, ahead: Ahead<'a>) -> Reading<'a, Inst>
    ensures { Gives result (fence_at ahead.entry) }
{
    let (line, rest) = expect_word(ahead, b"fence".as_slice())?;
    let (kind, rest) = read_fenced(alloc, rest)?;
    Ok((without_result(kind, line), rest))
}

/// `call ..`, whose result is dropped.
#[tactic(auto, unfolding(crate::specs::Body::plain_call_at))]
fn read_plain_call<'a>(alloc: Global, ahead: Ahead<'a>) -> Reading<'a, Inst>
    ensures { Gives result (plain_call_at ahead.entry) }
{
    let (line, rest) = expect_word(ahead, b"call".as_slice())?;
    let (kind, rest) = read_called(alloc, TailWord::Absent, rest)?;
    Ok((without_result(kind, line), rest))
}

/// `tail call ..` or `notail call ..`, whose result is dropped.
#[tactic(auto, unfolding(crate::specs::Body::tail_call_at))]
fn read_tail_call<'a>(alloc: Global, ahead: Ahead<'a>) -> Reading<'a, Inst>
    ensures { Gives result (tail_call_at ahead.entry) }
{
    let ((tail, line), rest) = read_word_with_line(ahead)?;
    let (_, rest) = expect_word(rest, b"call".as_slice())?;
    let (kind, rest) = read_called(alloc, tail, rest)?;
    Ok((without_result(kind, line), rest))
}

/// An instruction that ends no block.
#[tactic(auto, unfolding(crate::specs::Body::plain_at))]
pub(crate) fn read_plain<'a>(alloc: Global, ahead: Ahead<'a>) -> Reading<'a, Inst>
    ensures { Gives result (plain_at ahead.entry) }
{
    match plain_form_ahead(&ahead) {
        Some(PlainForm::Assigns) => read_assignment(alloc, ahead),
        Some(PlainForm::Stores) => read_store(alloc, ahead),
        Some(PlainForm::Fences) => read_fence(alloc, ahead),
        Some(PlainForm::Calls) => read_plain_call(alloc, ahead),
        Some(PlainForm::TailCalls) => read_tail_call(alloc, ahead),
        None => Err(Or::Refused(ahead.left())),
    }
}
