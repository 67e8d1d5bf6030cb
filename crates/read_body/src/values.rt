//! Instructions with a value, but for calls.
ghost use Rattle.std.specs.Prelude.{◌≡◌};
ghost use Rattle.read_forms.specs.Read.{Gives, at_word};
ghost use Rattle.read_body.specs.Body.{FlagForm, WrapFlags, ExactFlag, NoFlags, true_at, flag_at, wrap_flags_at, exact_flag_at, scope_at, order_at, order_if_at, flags_at, binary_at, compare_at, cast_at, select_at, phi_at, alloca_at, load_at, change_at, step_at, value_at};
ghost use Rattle.read_body.specs.Seen.{flags_seen};

use crate::forms::{FlagForm, ValueForm, read_value_form};
use crate::rows::{EdgeOf, Operand, read_edge, read_rows};
use crate::words::read_word;
use ir_core::{BinOp, CastOp, Flags, Kind, Order};
use read_ends::{expect_text, read_tail, skip_attachments};
use read_forms::{
    Ahead, Reading, expect_mark, expect_word, read_next_typed, read_next_value, read_type,
    read_typed, read_value,
};
use std::alloc::Global;

/// Whether this word comes next, which is then read.
#[tactic(auto, unfolding(crate::specs::Body::flag_at, crate::specs::Body::true_at))]
pub(crate) fn read_flag<'a>(ahead: Ahead<'a>, word: &[u8]) -> Reading<'a, bool>
    ensures { Gives result (flag_at word.now ahead.entry) }
{
    if !ahead.is_at_word(word) {
        return Ok((false, ahead));
    }
    let (_, rest) = expect_word(ahead, word)?;
    Ok((true, rest))
}

#[tactic(auto, unfolding(crate::specs::Body::wrap_flags_at))]
fn read_wrap_flags<'a>(ahead: Ahead<'a>) -> Reading<'a, Flags>
    ensures { Gives result (wrap_flags_at ahead.entry) }
{
    let (nuw, rest) = read_flag(ahead, b"nuw".as_slice())?;
    let (nsw, rest) = read_flag(rest, b"nsw".as_slice())?;
    let flags = Flags {
        nsw,
        nuw,
        exact: false,
    };
    Ok((flags, rest))
}

#[tactic(auto, unfolding(crate::specs::Body::exact_flag_at))]
fn read_exact_flag<'a>(ahead: Ahead<'a>) -> Reading<'a, Flags>
    ensures { Gives result (exact_flag_at ahead.entry) }
{
    let (exact, rest) = read_flag(ahead, b"exact".as_slice())?;
    let flags = Flags {
        nsw: false,
        nuw: false,
        exact,
    };
    Ok((flags, rest))
}

fn read_flags<'a>(form: FlagForm, ahead: Ahead<'a>) -> Reading<'a, Flags>
    ensures { Gives result (flags_at (flags_seen form) ahead.entry) }
{
    match form {
        FlagForm::Wrap => read_wrap_flags(ahead),
        FlagForm::Exact => read_exact_flag(ahead),
        FlagForm::None => {
            let flags = Flags {
                nsw: false,
                nuw: false,
                exact: false,
            };
            Ok((flags, ahead))
        }
    }
}

/// `syncscope("..")`, which is dropped.
#[tactic(auto, unfolding(crate::specs::Body::scope_at))]
fn read_scope<'a>(ahead: Ahead<'a>) -> Reading<'a, ()>
    ensures { Gives result (scope_at ahead.entry) }
{
    let (_, rest) = expect_word(ahead, b"syncscope".as_slice())?;
    let (_, rest) = expect_mark(rest, b'(')?;
    let (_, rest) = expect_text(rest)?;
    let (_, rest) = expect_mark(rest, b')')?;
    Ok(((), rest))
}

/// The order of an access, behind its scope.
#[tactic(auto, unfolding(crate::specs::Body::order_at))]
pub(crate) fn read_order<'a>(ahead: Ahead<'a>) -> Reading<'a, Order>
    ensures { Gives result (order_at ahead.entry) }
{
    if ahead.is_at_word(b"syncscope".as_slice()) {
        let (_, rest) = read_scope(ahead)?;
        return read_word(rest);
    }
    read_word(ahead)
}

/// The order of an access that says atomic, and none of another.
#[tactic(auto, unfolding(crate::specs::Body::some_order_at))]
pub(crate) fn read_order_if<'a>(atomic: bool, ahead: Ahead<'a>) -> Reading<'a, Option<Order>>
    ensures { Gives result (order_if_at atomic ahead.entry) }
{
    if !atomic {
        return Ok((None, ahead));
    }
    let (order, rest) = read_order(ahead)?;
    Ok((Some(order), rest))
}

/// `FLAGS T a, b`.
#[tactic(auto, unfolding(crate::specs::Body::binary_at))]
fn read_binary<'a>(alloc: Global, op: BinOp, form: FlagForm, ahead: Ahead<'a>) -> Reading<'a, Kind>
    ensures { Gives result (binary_at op (flags_seen form) ahead.entry) }
{
    let (flags, rest) = read_flags(form, ahead)?;
    let (ty, rest) = read_type(alloc, rest)?;
    let (a, rest) = read_value(alloc, &ty, rest)?;
    let (b, rest) = read_next_value(alloc, &ty, rest)?;
    let (_, rest) = skip_attachments(alloc, rest)?;
    let kind = Kind::Bin {
        op,
        flags,
        ty,
        a,
        b,
    };
    Ok((kind, rest))
}

/// `PRED T a, b`.
#[tactic(auto, unfolding(crate::specs::Body::compare_at))]
fn read_compare<'a>(alloc: Global, ahead: Ahead<'a>) -> Reading<'a, Kind>
    ensures { Gives result (compare_at ahead.entry) }
{
    let (pred, rest) = read_word(ahead)?;
    let (ty, rest) = read_type(alloc, rest)?;
    let (a, rest) = read_value(alloc, &ty, rest)?;
    let (b, rest) = read_next_value(alloc, &ty, rest)?;
    let (_, rest) = skip_attachments(alloc, rest)?;
    Ok((Kind::ICmp { pred, ty, a, b }, rest))
}

/// `T x to T`.
#[tactic(auto, unfolding(crate::specs::Body::cast_at))]
fn read_cast<'a>(alloc: Global, op: CastOp, ahead: Ahead<'a>) -> Reading<'a, Kind>
    ensures { Gives result (cast_at op ahead.entry) }
{
    let (from, rest) = read_typed(alloc, ahead)?;
    let (_, rest) = expect_word(rest, b"to".as_slice())?;
    let (to, rest) = read_type(alloc, rest)?;
    let (_, rest) = skip_attachments(alloc, rest)?;
    Ok((Kind::Cast { op, from, to }, rest))
}

/// `T c, T a, T b`.
#[tactic(auto, unfolding(crate::specs::Body::select_at))]
fn read_select<'a>(alloc: Global, ahead: Ahead<'a>) -> Reading<'a, Kind>
    ensures { Gives result (select_at ahead.entry) }
{
    let (cond, rest) = read_typed(alloc, ahead)?;
    let (a, rest) = read_next_typed(alloc, rest)?;
    let (b, rest) = read_next_typed(alloc, rest)?;
    let (_, rest) = skip_attachments(alloc, rest)?;
    Ok((Kind::Select { cond, a, b }, rest))
}

/// `T [ a, %B ], ..`.
#[tactic(auto, unfolding(crate::specs::Body::phi_at))]
fn read_phi<'a>(alloc: Global, ahead: Ahead<'a>) -> Reading<'a, Kind>
    ensures { Gives result (phi_at ahead.entry) }
{
    let (ty, rest) = read_type(alloc, ahead)?;
    let (first, rest) = read_edge(alloc, &ty, rest)?;
    let (edges, rest) = read_rows(alloc, &EdgeOf { ty: &ty }, first, rest)?;
    Ok((Kind::Phi { ty, edges }, rest))
}

/// `T`, and its alignment.
#[tactic(auto, unfolding(crate::specs::Body::alloca_at))]
fn read_alloca<'a>(alloc: Global, ahead: Ahead<'a>) -> Reading<'a, Kind>
    ensures { Gives result (alloca_at ahead.entry) }
{
    let (ty, rest) = read_type(alloc, ahead)?;
    let (align, rest) = read_tail(alloc, rest)?;
    Ok((Kind::Alloca { ty, align }, rest))
}

/// `T, T p`, atomic or not, and its alignment.
#[tactic(auto, unfolding(crate::specs::Body::load_at))]
fn read_load<'a>(alloc: Global, ahead: Ahead<'a>) -> Reading<'a, Kind>
    ensures { Gives result (load_at ahead.entry) }
{
    let (atomic, rest) = read_flag(ahead, b"atomic".as_slice())?;
    let (ty, rest) = read_type(alloc, rest)?;
    let (at, rest) = read_next_typed(alloc, rest)?;
    let (order, rest) = read_order_if(atomic, rest)?;
    let (align, rest) = read_tail(alloc, rest)?;
    let kind = Kind::Load {
        ty,
        at,
        order,
        align,
    };
    Ok((kind, rest))
}

/// `OP T p, T x ORDER`, and its alignment.
#[tactic(auto, unfolding(crate::specs::Body::change_at))]
fn read_change<'a>(alloc: Global, ahead: Ahead<'a>) -> Reading<'a, Kind>
    ensures { Gives result (change_at ahead.entry) }
{
    let (op, rest) = read_word(ahead)?;
    let (at, rest) = read_typed(alloc, rest)?;
    let (value, rest) = read_next_typed(alloc, rest)?;
    let (order, rest) = read_order(rest)?;
    let (align, rest) = read_tail(alloc, rest)?;
    let kind = Kind::Rmw {
        op,
        at,
        value,
        order,
        align,
    };
    Ok((kind, rest))
}

/// `T, T p, T i, ..`.
#[tactic(auto, unfolding(crate::specs::Body::step_at))]
fn read_step<'a>(alloc: Global, ahead: Ahead<'a>) -> Reading<'a, Kind>
    ensures { Gives result (step_at ahead.entry) }
{
    let (inbounds, rest) = read_flag(ahead, b"inbounds".as_slice())?;
    let (ty, rest) = read_type(alloc, rest)?;
    let (base, rest) = read_next_typed(alloc, rest)?;
    let (first, rest) = read_next_typed(alloc, rest)?;
    let (path, rest) = read_rows(alloc, &Operand, first, rest)?;
    let kind = Kind::Gep {
        inbounds,
        ty,
        base,
        path,
    };
    Ok((kind, rest))
}

/// What stands behind `%x =`, but for calls.
#[tactic(auto, unfolding(crate::specs::Body::value_at))]
pub(crate) fn read_instruction_value<'a>(alloc: Global, ahead: Ahead<'a>) -> Reading<'a, Kind>
    ensures { Gives result (value_at ahead.entry) }
{
    let (form, rest) = read_value_form(ahead)?;
    match form {
        ValueForm::Wraps(op) => read_binary(alloc, op, FlagForm::Wrap, rest),
        ValueForm::Divides(op) => read_binary(alloc, op, FlagForm::Exact, rest),
        ValueForm::Mixes(op) => read_binary(alloc, op, FlagForm::None, rest),
        ValueForm::Compares => read_compare(alloc, rest),
        ValueForm::Casts(op) => read_cast(alloc, op, rest),
        ValueForm::Selects => read_select(alloc, rest),
        ValueForm::Phis => read_phi(alloc, rest),
        ValueForm::Allocas => read_alloca(alloc, rest),
        ValueForm::Loads => read_load(alloc, rest),
        ValueForm::Changes => read_change(alloc, rest),
        ValueForm::Steps => read_step(alloc, rest),
    }
}
