//! Globals and named types.
ghost use Rattle.std.specs.Prelude.{◌≡◌};
ghost use Rattle.ir_core.specs.Forms.{begins_with_llvm};
ghost use Rattle.ir_core.specs.Language.{constness};
ghost use Rattle.read_forms.specs.Read.{Gives, head, one_at, as_global, as_table, with_line_of, after_comma_at};
ghost use Rattle.read_forms.specs.Widths.{HasWidth};
ghost use Rattle.read_items.specs.Globals.{last_piece_at, comdat_first_at, last_pieces_at, section_first_at, tail_at, named_contents_at, as_other_init, other_contents_at, init_goes, contents_at, global_at, type_def_at};

use crate::inits::{init_word, read_braces, read_plain_init, read_square};
use crate::words::{front, read_kept_words};
use ir_core::{Global as Variable, Init, Name, Or, Ty, TypeDef};
use ir_lex::TokenKind;
use read_ends::{expect_text, read_next_alignment};
use read_forms::{
    Ahead, Reading, expect_mark, expect_word, read_alignment, read_local_with_line, read_type,
    spelled_name,
};
use std::alloc::Global;

/// A name, and its line.
pub(crate) type Named = (Name, u32);

/// What a global holds, and the name of the next global where that is begun already.
struct Contents {
    init: Option<Init>,
    align: u32,
    next: Option<Named>,
}

/// `@N`, with its line.
pub(crate) fn read_global_with_line<'a>(alloc: Global, ahead: Ahead<'a>) -> Reading<'a, Named>
    ensures { Gives result (one_at (with_line_of as_global) ahead.entry) }
{
    let left = ahead.left();
    match ahead.split() {
        Some((token, rest)) if token.is_global() => {
            let name = spelled_name(alloc, token.name())?;
            Ok(((name, token.line()), rest))
        }
        _ => Err(Or::Refused(left)),
    }
}

/// `comdat`, and an alignment.
#[tactic(auto, unfolding(crate::specs::Globals::comdat_first_at))]
fn read_comdat_first<'a>(ahead: Ahead<'a>) -> Reading<'a, u32>
    ensures { Gives result (comdat_first_at ahead.entry) }
{
    let (_, rest) = expect_word(ahead, b"comdat".as_slice())?;
    read_next_alignment(rest)
}

fn read_last_piece<'a>(ahead: Ahead<'a>) -> Reading<'a, u32>
    ensures { Gives result (last_piece_at ahead.entry) }
{
    if ahead.is_at_word(b"comdat".as_slice()) {
        read_comdat_first(ahead)
    } else {
        read_alignment(ahead)
    }
}

/// `, comdat` and an alignment, each of which can be missing.
#[tactic(auto, unfolding(crate::specs::Globals::last_pieces_at, read_forms::specs::Read::after_comma_at))]
fn read_last_pieces<'a>(ahead: Ahead<'a>) -> Reading<'a, u32>
    ensures { Gives result (last_pieces_at ahead.entry) }
{
    if !ahead.is_at_mark(b',') {
        return Ok((0, ahead));
    }
    let (_, rest) = expect_mark(ahead, b',')?;
    read_last_piece(rest)
}

/// `section ".."`, and what can stand behind it.
#[tactic(auto, unfolding(crate::specs::Globals::section_first_at))]
fn read_section_first<'a>(ahead: Ahead<'a>) -> Reading<'a, u32>
    ensures { Gives result (section_first_at ahead.entry) }
{
    let (_, rest) = expect_word(ahead, b"section".as_slice())?;
    let (_, rest) = expect_text(rest)?;
    read_last_pieces(rest)
}

/// The alignment behind a global's contents; 0 where there is none.
#[tactic(auto, unfolding(crate::specs::Globals::tail_at, read_forms::specs::Read::after_comma_at))]
fn read_tail<'a>(ahead: Ahead<'a>) -> Reading<'a, u32>
    ensures { Gives result (tail_at ahead.entry) }
{
    if !ahead.is_at_mark(b',') {
        return Ok((0, ahead));
    }
    let (_, rest) = expect_mark(ahead, b',')?;
    if rest.is_at_word(b"section".as_slice()) {
        read_section_first(rest)
    } else {
        read_last_piece(rest)
    }
}

/// Whether the name is one of LLVM's own.
pub(crate) fn begins_with_llvm(name: &[u8]) -> bool
    ensures { result ≡ begins_with_llvm name.now }
{
    front(name, 5) == b"llvm.".as_slice()
}

/// The address of a global; or, where a `=` stands behind the name, no initializer and the next global.
#[tactic(auto, unfolding(crate::specs::Globals::named_contents_at, crate::specs::Globals::address_at, crate::specs::Globals::next_begins_at))]
fn read_named_contents<'a>(alloc: Global, ahead: Ahead<'a>) -> Reading<'a, Contents>
    ensures { Gives result (named_contents_at ahead.entry) }
{
    let (name, rest) = read_global_with_line(alloc, ahead)?;
    if !begins_with_llvm(name.0.as_slice()) && rest.is_at_mark(b'=') {
        let (_, rest) = expect_mark(rest, b'=')?;
        let contents = Contents {
            init: None,
            align: 0,
            next: Some(name),
        };
        return Ok((contents, rest));
    }
    let (align, rest) = read_tail(rest)?;
    let contents = Contents {
        init: Some(Init::Addr(name.0)),
        align,
        next: None,
    };
    Ok((contents, rest))
}

/// An initializer of one token that is no name.
fn read_other_init<'a>(alloc: Global, ty: &Ty, ahead: Ahead<'a>) -> Reading<'a, Init>
    requires { HasWidth ty.now }
    ensures { Gives result (one_at (as_other_init ty.now) ahead.entry) }
{
    let left = ahead.left();
    let Some(token) = ahead.first() else {
        return Err(Or::Refused(left));
    };
    match token.kind() {
        TokenKind::Global => Err(Or::Refused(left)),
        _ => read_plain_init(alloc, ty, ahead),
    }
}

/// How many brackets can be open at once behind the first.
const INNER_LIMIT: u32 = 31;

/// An initializer that doesn't begin with a name, and what stands behind it.
#[tactic(auto, unfolding(crate::specs::Globals::other_contents_at, crate::specs::Globals::inner_limit))]
fn read_other_contents<'a>(alloc: Global, ty: &Ty, ahead: Ahead<'a>) -> Reading<'a, Contents>
    requires { HasWidth ty.now }
    ensures { Gives result (other_contents_at ty.now ahead.entry) }
{
    let (init, rest) = if ahead.is_at_mark(b'[') {
        read_square(alloc, INNER_LIMIT, ahead)?
    } else if ahead.is_at_mark(b'{') {
        read_braces(alloc, INNER_LIMIT, ahead)?
    } else {
        read_other_init(alloc, ty, ahead)?
    };
    let (align, rest) = read_tail(rest)?;
    let contents = Contents {
        init: Some(init),
        align,
        next: None,
    };
    Ok((contents, rest))
}

/// Whether an initializer begins here.
fn is_at_init(ahead: &Ahead) -> bool
    ensures { result ≡ init_goes (head ahead.now) }
{
    let Some(token) = ahead.first() else {
        return false;
    };
    match token.kind() {
        TokenKind::Global | TokenKind::Number | TokenKind::CText => true,
        TokenKind::Word => init_word(token.bytes()).is_some(),
        _ => token.is_mark(b'[') || token.is_mark(b'{'),
    }
}

/// What stands behind the type of a global.
#[tactic(auto, unfolding(crate::specs::Globals::bare_at))]
fn read_contents<'a>(alloc: Global, ty: &Ty, ahead: Ahead<'a>) -> Reading<'a, Contents>
    requires { HasWidth ty.now }
    ensures { Gives result (contents_at ty.now ahead.entry) }
{
    if !is_at_init(&ahead) {
        let (align, rest) = read_tail(ahead)?;
        let contents = Contents {
            init: None,
            align,
            next: None,
        };
        return Ok((contents, rest));
    }
    match ahead.first() {
        Some(token) if token.is_global() => read_named_contents(alloc, ahead),
        _ => read_other_contents(alloc, ty, ahead),
    }
}

/// `global` or `constant`.
fn read_constness<'a>(ahead: Ahead<'a>) -> Reading<'a, bool>
    ensures { Gives result (one_at (as_table constness) ahead.entry) }
{
    let left = ahead.left();
    match ahead.split() {
        Some((token, rest)) if token.spells(b"global".as_slice()) => Ok((false, rest)),
        Some((token, rest)) if token.spells(b"constant".as_slice()) => Ok((true, rest)),
        _ => Err(Or::Refused(left)),
    }
}

/// What stands behind a global's name and `=`; and the name of the next global, where that is begun.
#[tactic(auto, unfolding(crate::specs::Globals::global_at))]
pub(crate) fn read_variable<'a>(
    alloc: Global,
    name: Named,
    ahead: Ahead<'a>,
) -> Reading<'a, (Variable, Option<Named>)>
    ensures { Gives result (global_at name ahead.entry) }
{
    let (words, rest) = read_kept_words(alloc, ahead)?;
    let (constant, rest) = read_constness(rest)?;
    let (ty, rest) = read_type(alloc, rest)?;
    let (contents, rest) = read_contents(alloc, &ty, rest)?;
    let Contents { init, align, next } = contents;
    let (name, line) = name;
    let variable = Variable {
        name,
        words,
        constant,
        ty,
        init,
        align,
        line,
    };
    Ok(((variable, next), rest))
}

/// `%N = type T`.
#[tactic(auto, unfolding(crate::specs::Globals::type_def_at))]
pub(crate) fn read_type_def<'a>(alloc: Global, ahead: Ahead<'a>) -> Reading<'a, TypeDef>
    ensures { Gives result (type_def_at ahead.entry) }
{
    let ((name, line), rest) = read_local_with_line(alloc, ahead)?;
    let (_, rest) = expect_mark(rest, b'=')?;
    let (_, rest) = expect_word(rest, b"type".as_slice())?;
    let (body, rest) = read_type(alloc, rest)?;
    Ok((TypeDef { name, body, line }, rest))
}
