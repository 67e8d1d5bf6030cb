//! Types.
ghost use Rattle.std.specs.Prelude.{◌≡◌, ◌-◌, IfOk, IfSome};
ghost use Rattle.ir_core.specs.Forms.{integer_types};
ghost use Rattle.read_forms.specs.Read.{Gives, one_at, look_up, as_table, after_comma_at, more_at, list_at};
ghost use Rattle.read_forms.specs.Forms.{default_space_at, pointer_at, named_at, flat_at, array_at, struct_at, type_in_at, type_at, result_type_at, void_types};
ghost use Rattle.read_forms.specs.Widths.{HasWidth};

use crate::ahead::Ahead;
use crate::numbers::{expect_zero, read_length};
use crate::tokens::{Reading, expect_mark, expect_word, read_local};
use ir_core::{Boxed, List, Or, Ty};
use std::alloc::Global;

fn integer_type(word: &[u8]) -> Option<Ty>
    ensures found { result ≡ look_up integer_types word.now }
    ensures width { IfSome result (λ ty. HasWidth ty) }
{
    if word == b"i1".as_slice() {
        Some(Ty::Int(1))
    } else if word == b"i8".as_slice() {
        Some(Ty::Int(8))
    } else if word == b"i16".as_slice() {
        Some(Ty::Int(16))
    } else if word == b"i32".as_slice() {
        Some(Ty::Int(32))
    } else if word == b"i64".as_slice() {
        Some(Ty::Int(64))
    } else {
        None
    }
}

fn read_integer_type<'a>(ahead: Ahead<'a>) -> Reading<'a, Ty>
    ensures gives { Gives result (one_at (as_table integer_types) ahead.entry) }
    ensures width { IfOk result (λ p. HasWidth p.0) }
{
    let left = ahead.left();
    match ahead.split() {
        Some((token, rest)) if token.is_word() => match integer_type(token.bytes()) {
            Some(ty) => Ok((ty, rest)),
            None => Err(Or::Refused(left)),
        },
        _ => Err(Or::Refused(left)),
    }
}

/// `addrspace(0)`.
#[tactic(auto, unfolding(crate::specs::Forms::default_space_at))]
fn read_default_space<'a>(ahead: Ahead<'a>) -> Reading<'a, ()>
    ensures { Gives result (default_space_at ahead.entry) }
{
    let (_, rest) = expect_word(ahead, b"addrspace".as_slice())?;
    let (_, rest) = expect_mark(rest, b'(')?;
    let (_, rest) = expect_zero(rest)?;
    let (_, rest) = expect_mark(rest, b')')?;
    Ok(((), rest))
}

/// `ptr`, and its address space.
#[tactic(auto, unfolding(crate::specs::Forms::pointer_at))]
fn read_pointer<'a>(ahead: Ahead<'a>) -> Reading<'a, Ty>
    ensures gives { Gives result (pointer_at ahead.entry) }
    ensures width { IfOk result (λ p. HasWidth p.0) }
{
    let (_, rest) = expect_word(ahead, b"ptr".as_slice())?;
    if rest.is_at_word(b"addrspace".as_slice()) {
        let (_, rest) = read_default_space(rest)?;
        return Ok((Ty::Ptr, rest));
    }
    Ok((Ty::Ptr, rest))
}

/// `%N`.
#[tactic(auto, unfolding(crate::specs::Forms::named_at))]
fn read_named<'a>(alloc: Global, ahead: Ahead<'a>) -> Reading<'a, Ty>
    ensures gives { Gives result (named_at ahead.entry) }
    ensures width { IfOk result (λ p. HasWidth p.0) }
{
    let (name, rest) = read_local(alloc, ahead)?;
    Ok((Ty::Named(name), rest))
}

/// A type without brackets.
fn read_flat_type<'a>(alloc: Global, ahead: Ahead<'a>) -> Reading<'a, Ty>
    ensures gives { Gives result (flat_at ahead.entry) }
    ensures width { IfOk result (λ p. HasWidth p.0) }
{
    let Some(token) = ahead.first() else {
        return Err(Or::Refused(0));
    };
    if token.is_local() {
        read_named(alloc, ahead)
    } else if token.spells(b"ptr".as_slice()) {
        read_pointer(ahead)
    } else {
        read_integer_type(ahead)
    }
}

/// A type with at most so many brackets open at once.
#[tactic(auto, unfolding(crate::specs::Forms::type_in_at))]
#[cycle(read_type)]
fn read_type_in<'a>(alloc: Global, depth: u32, ahead: Ahead<'a>) -> Reading<'a, Ty>
    ensures gives { Gives result (type_in_at depth ahead.entry) }
    ensures width { IfOk result (λ p. HasWidth p.0) }
{
    if depth == 0 {
        return read_flat_type(alloc, ahead);
    }
    if ahead.is_at_mark(b'[') {
        read_array(alloc, depth - 1, ahead)
    } else if ahead.is_at_mark(b'{') {
        read_struct(alloc, depth - 1, ahead)
    } else {
        read_flat_type(alloc, ahead)
    }
}

/// `[n x T]`.
#[tactic(auto, unfolding(crate::specs::Forms::array_at))]
#[cycle(read_type)]
fn read_array<'a>(alloc: Global, depth: u32, ahead: Ahead<'a>) -> Reading<'a, Ty>
    ensures gives { Gives result (array_at (type_in_at depth) ahead.entry) }
    ensures width { IfOk result (λ p. HasWidth p.0) }
{
    let (_, rest) = expect_mark(ahead, b'[')?;
    let (count, rest) = read_length(rest)?;
    let (_, rest) = expect_word(rest, b"x".as_slice())?;
    let (item, rest) = read_type_in(alloc, depth, rest)?;
    let (_, rest) = expect_mark(rest, b']')?;
    Ok((Ty::Array(count, Boxed::new(alloc, item)?), rest))
}

/// `{ T, .. }`.
#[tactic(auto, unfolding(crate::specs::Forms::struct_at))]
#[cycle(read_type)]
fn read_struct<'a>(alloc: Global, depth: u32, ahead: Ahead<'a>) -> Reading<'a, Ty>
    ensures gives { Gives result (struct_at (type_in_at depth) ahead.entry) }
    ensures width { IfOk result (λ p. HasWidth p.0) }
{
    let (_, rest) = expect_mark(ahead, b'{')?;
    let (fields, rest) = read_fields(alloc, depth, rest)?;
    Ok((Ty::Struct(fields), rest))
}

/// `T, .. }`.
#[tactic(auto, unfolding(crate::specs::Read::items_at))]
#[cycle(read_type)]
fn read_fields<'a>(alloc: Global, depth: u32, ahead: Ahead<'a>) -> Reading<'a, List<Ty>>
    ensures { Gives result (list_at 125 (type_in_at depth) ahead.entry) }
{
    let mut fields = List::new(alloc);
    if ahead.is_at_mark(b'}') {
        let (_, rest) = expect_mark(ahead, b'}')?;
        return Ok((fields, rest));
    }
    let (first, rest) = read_type_in(alloc, depth, ahead)?;
    fields.push(first)?;
    let (fields, rest) = read_more_fields(alloc, depth, fields, rest)?;
    let (_, rest) = expect_mark(rest, b'}')?;
    Ok((fields, rest))
}

/// `, T`.
#[tactic(auto, unfolding(crate::specs::Read::after_comma_at))]
#[cycle(read_type)]
fn read_next_field<'a>(alloc: Global, depth: u32, ahead: Ahead<'a>) -> Reading<'a, Ty>
    ensures { Gives result (after_comma_at (type_in_at depth) ahead.entry) }
{
    let (_, rest) = expect_mark(ahead, b',')?;
    read_type_in(alloc, depth, rest)
}

/// As many fields as stand behind commas, after those that were read before.
#[cycle(read_type)]
fn read_more_fields<'a>(
    alloc: Global,
    depth: u32,
    before: List<Ty>,
    ahead: Ahead<'a>,
) -> Reading<'a, List<Ty>>
    ensures { Gives result (more_at (type_in_at depth) before ahead.entry) }
{
    let mut fields = before;
    let mut rest = ahead;
    while rest.is_at_mark(b',') {
        let (field, after) = read_next_field(alloc, depth, rest)?;
        fields.push(field)?;
        rest = after;
    }
    Ok((fields, rest))
}

const NESTING_LIMIT: u32 = 32;

/// The type of a value, with at most 32 brackets open at once.
#[tactic(auto, unfolding(crate::specs::Forms::type_at, ir_core::specs::Forms::nesting_limit))]
pub fn read_type<'a>(alloc: Global, ahead: Ahead<'a>) -> Reading<'a, Ty>
    ensures gives { Gives result (type_at ahead.entry) }
    ensures width { IfOk result (λ p. HasWidth p.0) }
{
    read_type_in(alloc, NESTING_LIMIT, ahead)
}

fn read_void<'a>(ahead: Ahead<'a>) -> Reading<'a, Ty>
    ensures { Gives result (one_at (as_table void_types) ahead.entry) }
{
    let (_, rest) = expect_word(ahead, b"void".as_slice())?;
    Ok((Ty::Void, rest))
}

/// The type of a result, which can be `void`.
#[tactic(auto, unfolding(crate::specs::Forms::result_type_at))]
pub fn read_result_type<'a>(alloc: Global, ahead: Ahead<'a>) -> Reading<'a, Ty>
    ensures { Gives result (result_type_at ahead.entry) }
{
    if ahead.is_at_word(b"void".as_slice()) {
        read_void(ahead)
    } else {
        read_type(alloc, ahead)
    }
}
