//! The words behind the parameters of a function.
ghost use Rattle.std.specs.Prelude.{◌≡◌};
ghost use Rattle.read_forms.specs.Read.{Gives, head, one_at};
ghost use Rattle.read_forms.specs.Seen.{if_some};
ghost use Rattle.read_items.specs.Seen.{function_word_seen};
ghost use Rattle.read_items.specs.Functions.{as_dollar, comdat_name_at, text_value_at, as_kept_group, plain_word_at, text_word_at, section_at, comdat_at, aligned_word_at, attached_word_at, function_word_of, function_word_ahead, function_word_goes, function_word_at, groups_at};

use crate::words::{Words, front, gather, one_name};
use ir_core::{List, Name, Or};
use ir_lex::TokenKind;
use read_ends::{expect_text, plain_function_word, read_attachment};
use read_forms::{Ahead, Lexeme, Reading, expect_mark, expect_word, read_length};
use std::alloc::Global;

/// A word that begins with `$`.
fn expect_dollar<'a>(ahead: Ahead<'a>) -> Reading<'a, ()>
    ensures { Gives result (one_at as_dollar ahead.entry) }
{
    let left = ahead.left();
    match ahead.split() {
        Some((token, rest)) if token.is_word() && front(token.bytes(), 1) == b"$".as_slice() => {
            Ok(((), rest))
        }
        _ => Err(Or::Refused(left)),
    }
}

/// `($N)`.
#[tactic(auto, unfolding(crate::specs::Functions::comdat_name_at))]
fn read_comdat_name<'a>(ahead: Ahead<'a>) -> Reading<'a, ()>
    ensures { Gives result (comdat_name_at ahead.entry) }
{
    let (_, rest) = expect_mark(ahead, b'(')?;
    let (_, rest) = expect_dollar(rest)?;
    let (_, rest) = expect_mark(rest, b')')?;
    Ok(((), rest))
}

/// `= ".."`.
#[tactic(auto, unfolding(crate::specs::Functions::text_value_at))]
fn read_text_value<'a>(ahead: Ahead<'a>) -> Reading<'a, ()>
    ensures { Gives result (text_value_at ahead.entry) }
{
    let (_, rest) = expect_mark(ahead, b'=')?;
    expect_text(rest)
}

/// `#n`, which is kept.
fn read_kept_group<'a>(alloc: Global, ahead: Ahead<'a>) -> Reading<'a, List<Name>>
    ensures { Gives result (one_at as_kept_group ahead.entry) }
{
    let left = ahead.left();
    let Some((token, rest)) = ahead.split() else {
        return Err(Or::Refused(left));
    };
    match token.kind() {
        TokenKind::Group => Ok((one_name(alloc, token.bytes())?, rest)),
        _ => Err(Or::Refused(left)),
    }
}

/// A word that stands for itself.
#[tactic(auto, unfolding(crate::specs::Functions::plain_word_at))]
fn read_plain_word<'a>(alloc: Global, ahead: Ahead<'a>) -> Reading<'a, List<Name>>
    ensures { Gives result (plain_word_at ahead.entry) }
{
    let left = ahead.left();
    match ahead.split() {
        Some((token, rest)) if token.is_word() && plain_function_word(token.bytes()).is_some() => {
            Ok((List::new(alloc), rest))
        }
        _ => Err(Or::Refused(left)),
    }
}

/// `".."` or `".."=".."`.
#[tactic(auto, unfolding(crate::specs::Functions::text_word_at))]
fn read_text_word<'a>(alloc: Global, ahead: Ahead<'a>) -> Reading<'a, List<Name>>
    ensures { Gives result (text_word_at ahead.entry) }
{
    let (_, rest) = expect_text(ahead)?;
    if rest.is_at_mark(b'=') {
        let (_, rest) = read_text_value(rest)?;
        return Ok((List::new(alloc), rest));
    }
    Ok((List::new(alloc), rest))
}

/// `section ".."`.
#[tactic(auto, unfolding(crate::specs::Functions::section_at))]
fn read_section<'a>(alloc: Global, ahead: Ahead<'a>) -> Reading<'a, List<Name>>
    ensures { Gives result (section_at ahead.entry) }
{
    let (_, rest) = expect_word(ahead, b"section".as_slice())?;
    let (_, rest) = expect_text(rest)?;
    Ok((List::new(alloc), rest))
}

/// `comdat` or `comdat($N)`.
#[tactic(auto, unfolding(crate::specs::Functions::comdat_at))]
fn read_comdat<'a>(alloc: Global, ahead: Ahead<'a>) -> Reading<'a, List<Name>>
    ensures { Gives result (comdat_at ahead.entry) }
{
    let (_, rest) = expect_word(ahead, b"comdat".as_slice())?;
    if rest.is_at_mark(b'(') {
        let (_, rest) = read_comdat_name(rest)?;
        return Ok((List::new(alloc), rest));
    }
    Ok((List::new(alloc), rest))
}

/// `align n`.
#[tactic(auto, unfolding(crate::specs::Functions::aligned_word_at))]
fn read_aligned_word<'a>(alloc: Global, ahead: Ahead<'a>) -> Reading<'a, List<Name>>
    ensures { Gives result (aligned_word_at ahead.entry) }
{
    let (_, rest) = expect_word(ahead, b"align".as_slice())?;
    let (_, rest) = read_length(rest)?;
    Ok((List::new(alloc), rest))
}

/// `!N !n`.
#[tactic(auto, unfolding(crate::specs::Functions::attached_word_at))]
fn read_attached_word<'a>(alloc: Global, ahead: Ahead<'a>) -> Reading<'a, List<Name>>
    ensures { Gives result (attached_word_at ahead.entry) }
{
    let (_, rest) = read_attachment(ahead)?;
    Ok((List::new(alloc), rest))
}

/// What can stand behind the parameters of a function.
#[derive(Clone, Copy)]
enum FunctionWord {
    Group,
    Plain,
    Text,
    Section,
    Comdat,
    Aligned,
    Attached,
}

fn function_word(token: &Lexeme) -> Option<FunctionWord>
    ensures { if_some function_word_seen result ≡ function_word_of token.now }
{
    match token.kind() {
        TokenKind::Group => Some(FunctionWord::Group),
        TokenKind::Text => Some(FunctionWord::Text),
        TokenKind::Meta if token.bytes() != b"!{".as_slice() => Some(FunctionWord::Attached),
        TokenKind::Word => {
            let word = token.bytes();
            if plain_function_word(word).is_some() {
                Some(FunctionWord::Plain)
            } else if word == b"section".as_slice() {
                Some(FunctionWord::Section)
            } else if word == b"comdat".as_slice() {
                Some(FunctionWord::Comdat)
            } else if word == b"align".as_slice() {
                Some(FunctionWord::Aligned)
            } else {
                None
            }
        }
        _ => None,
    }
}

fn function_word_ahead(ahead: &Ahead) -> Option<FunctionWord>
    ensures { if_some function_word_seen result ≡ function_word_ahead (head ahead.now) }
{
    let token = ahead.first()?;
    function_word(&token)
}

fn read_function_word<'a>(alloc: Global, ahead: Ahead<'a>) -> Reading<'a, List<Name>>
    ensures { Gives result (function_word_at ahead.entry) }
{
    match function_word_ahead(&ahead) {
        Some(FunctionWord::Group) => read_kept_group(alloc, ahead),
        Some(FunctionWord::Plain) => read_plain_word(alloc, ahead),
        Some(FunctionWord::Text) => read_text_word(alloc, ahead),
        Some(FunctionWord::Section) => read_section(alloc, ahead),
        Some(FunctionWord::Comdat) => read_comdat(alloc, ahead),
        Some(FunctionWord::Aligned) => read_aligned_word(alloc, ahead),
        Some(FunctionWord::Attached) => read_attached_word(alloc, ahead),
        None => Err(Or::Refused(ahead.left())),
    }
}

/// The words behind the parameters of a function.
enum FunctionWords {}

impl Words for FunctionWords {
    ghost reading = { function_word_at };

    ghost goes = { function_word_goes };

    fn begins(ahead: &Ahead) -> bool {
        function_word_ahead(ahead).is_some()
    }

    fn read<'a>(alloc: Global, ahead: Ahead<'a>) -> Reading<'a, List<Name>> {
        read_function_word(alloc, ahead)
    }
}

/// The attribute groups of a function; what else stands there is dropped.
#[tactic(auto, unfolding(crate::specs::Functions::groups_at))]
pub(crate) fn read_groups<'a>(alloc: Global, ahead: Ahead<'a>) -> Reading<'a, List<Name>>
    ensures { Gives result (groups_at ahead.entry) }
{
    gather::<FunctionWords>(alloc, ahead)
}
