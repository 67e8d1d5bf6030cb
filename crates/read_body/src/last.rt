//! Instructions that end a block.
ghost use Rattle.std.specs.Prelude.{◌≡◌};
ghost use Rattle.read_forms.specs.Read.{Gives};
ghost use Rattle.read_body.specs.Body.{case_at, case_goes, cases_at, switch_at, straight_at, tested_at, branch_at, return_nothing_at, return_value_at, return_at, stop_at, last_at_form, last_at};
ghost use Rattle.read_body.specs.Seen.{last_seen};

use crate::forms::{LastForm, read_last_form};
use ir_core::{Case, Inst, Kind, List};
use read_ends::skip_attachments;
use read_forms::{
    Ahead, Part, Reading, Repeated, expect_mark, expect_word, read_many, read_next_target,
    read_target, read_typed,
};
use std::alloc::Global;

/// `T x, label %B`.
#[tactic(auto, unfolding(crate::specs::Body::case_at))]
fn read_case<'a>(alloc: Global, ahead: Ahead<'a>) -> Reading<'a, Case>
    ensures { Gives result (case_at ahead.entry) }
{
    let (value, rest) = read_typed(alloc, ahead)?;
    let (block, rest) = read_next_target(alloc, rest)?;
    Ok((Case { value, block }, rest))
}

/// Cases, which go on to a `]`.
enum Cases {}

impl Part for Cases {
    type Item = Case;

    ghost reading = { case_at };

    fn read<'a>(alloc: Global, ahead: Ahead<'a>) -> Reading<'a, Case> {
        read_case(alloc, ahead)
    }
}

impl Repeated for Cases {
    ghost goes = { case_goes };

    fn begins(ahead: &Ahead) -> bool {
        match ahead.first() {
            Some(token) => !token.is_mark(b']'),
            None => false,
        }
    }
}

/// `[ CASES ]`.
#[tactic(auto, unfolding(crate::specs::Body::cases_at))]
fn read_cases<'a>(alloc: Global, ahead: Ahead<'a>) -> Reading<'a, List<Case>>
    ensures { Gives result (cases_at ahead.entry) }
{
    let (_, rest) = expect_mark(ahead, b'[')?;
    let (cases, rest) = read_many::<Cases>(alloc, rest)?;
    let (_, rest) = expect_mark(rest, b']')?;
    Ok((cases, rest))
}

/// `T x, label %B [ CASES ]`.
#[tactic(auto, unfolding(crate::specs::Body::switch_at))]
fn read_switch<'a>(alloc: Global, ahead: Ahead<'a>) -> Reading<'a, Kind>
    ensures { Gives result (switch_at ahead.entry) }
{
    let (on, rest) = read_typed(alloc, ahead)?;
    let (other, rest) = read_next_target(alloc, rest)?;
    let (cases, rest) = read_cases(alloc, rest)?;
    let (_, rest) = skip_attachments(alloc, rest)?;
    Ok((Kind::Switch { on, other, cases }, rest))
}

/// `label %B`.
#[tactic(auto, unfolding(crate::specs::Body::straight_at))]
fn read_straight<'a>(alloc: Global, ahead: Ahead<'a>) -> Reading<'a, Kind>
    ensures { Gives result (straight_at ahead.entry) }
{
    let (to, rest) = read_target(alloc, ahead)?;
    let (_, rest) = skip_attachments(alloc, rest)?;
    Ok((Kind::Br { to }, rest))
}

/// `T x, label %B, label %B`.
#[tactic(auto, unfolding(crate::specs::Body::tested_at))]
fn read_tested<'a>(alloc: Global, ahead: Ahead<'a>) -> Reading<'a, Kind>
    ensures { Gives result (tested_at ahead.entry) }
{
    let (cond, rest) = read_typed(alloc, ahead)?;
    let (yes, rest) = read_next_target(alloc, rest)?;
    let (no, rest) = read_next_target(alloc, rest)?;
    let (_, rest) = skip_attachments(alloc, rest)?;
    Ok((Kind::CondBr { cond, yes, no }, rest))
}

#[tactic(auto, unfolding(crate::specs::Body::branch_at))]
fn read_branch<'a>(alloc: Global, ahead: Ahead<'a>) -> Reading<'a, Kind>
    ensures { Gives result (branch_at ahead.entry) }
{
    if ahead.is_at_word(b"label".as_slice()) {
        read_straight(alloc, ahead)
    } else {
        read_tested(alloc, ahead)
    }
}

/// `void`.
#[tactic(auto, unfolding(crate::specs::Body::return_nothing_at))]
fn read_return_nothing<'a>(alloc: Global, ahead: Ahead<'a>) -> Reading<'a, Kind>
    ensures { Gives result (return_nothing_at ahead.entry) }
{
    let (_, rest) = expect_word(ahead, b"void".as_slice())?;
    let (_, rest) = skip_attachments(alloc, rest)?;
    Ok((Kind::Ret { value: None }, rest))
}

/// `T x`.
#[tactic(auto, unfolding(crate::specs::Body::return_value_at))]
fn read_return_value<'a>(alloc: Global, ahead: Ahead<'a>) -> Reading<'a, Kind>
    ensures { Gives result (return_value_at ahead.entry) }
{
    let (value, rest) = read_typed(alloc, ahead)?;
    let (_, rest) = skip_attachments(alloc, rest)?;
    Ok((Kind::Ret { value: Some(value) }, rest))
}

#[tactic(auto, unfolding(crate::specs::Body::return_at))]
fn read_return<'a>(alloc: Global, ahead: Ahead<'a>) -> Reading<'a, Kind>
    ensures { Gives result (return_at ahead.entry) }
{
    if ahead.is_at_word(b"void".as_slice()) {
        read_return_nothing(alloc, ahead)
    } else {
        read_return_value(alloc, ahead)
    }
}

#[tactic(auto, unfolding(crate::specs::Body::stop_at))]
fn read_stop<'a>(alloc: Global, ahead: Ahead<'a>) -> Reading<'a, Kind>
    ensures { Gives result (stop_at ahead.entry) }
{
    let (_, rest) = skip_attachments(alloc, ahead)?;
    Ok((Kind::Unreachable, rest))
}

fn read_last_kind<'a>(alloc: Global, form: LastForm, ahead: Ahead<'a>) -> Reading<'a, Kind>
    ensures { Gives result (last_at_form (last_seen form) ahead.entry) }
{
    match form {
        LastForm::Branches => read_branch(alloc, ahead),
        LastForm::Switches => read_switch(alloc, ahead),
        LastForm::Returns => read_return(alloc, ahead),
        LastForm::Stops => read_stop(alloc, ahead),
    }
}

/// The last instruction of a block.
#[tactic(auto, unfolding(crate::specs::Body::last_at))]
pub(crate) fn read_last<'a>(alloc: Global, ahead: Ahead<'a>) -> Reading<'a, Inst>
    ensures { Gives result (last_at ahead.entry) }
{
    let ((form, line), rest) = read_last_form(ahead)?;
    let (kind, rest) = read_last_kind(alloc, form, rest)?;
    let inst = Inst {
        result: None,
        kind,
        line,
    };
    Ok((inst, rest))
}
