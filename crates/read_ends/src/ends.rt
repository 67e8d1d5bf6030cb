//! What stands behind an instruction.
ghost use Rattle.std.specs.Prelude.{◌≡◌};
ghost use Rattle.ir_core.specs.Instructions.{plain_function_words};
ghost use Rattle.read_forms.specs.Read.{Gives, head, at_mark, one_at, look_up, all_for, as_one_of, after_comma_at, goes};
ghost use Rattle.read_forms.specs.Seen.{if_some};
ghost use Rattle.read_ends.specs.Seen.{trailer_seen};
ghost use Rattle.read_ends.specs.Ends.{trailer_form_of, trailer_ahead, is_meta_name, is_group, is_text, as_meta_name, as_group, as_text, attachment_at, attachments_at, next_alignment_at, meta_goes, attached_at, aligned_at, tail_at, trailer_goes, trailer_at, trailers_at, call_end_at, behind_comma_at};

use ir_core::Or;
use ir_lex::TokenKind;
use read_forms::{
    Ahead, Lexeme, Part, Reading, Repeated, expect_mark, read_alignment, read_next, skip_many,
};
use std::alloc::Global;

fn is_meta_name(token: &Lexeme) -> bool
    ensures { result ≡ is_meta_name token.now }
{
    match token.kind() {
        TokenKind::Meta => token.bytes() != b"!{".as_slice(),
        _ => false,
    }
}

fn is_group(token: &Lexeme) -> bool
    ensures { result ≡ is_group token.now.kind }
{
    matches!(token.kind(), TokenKind::Group)
}

fn is_text(token: &Lexeme) -> bool
    ensures { result ≡ is_text token.now.kind }
{
    matches!(token.kind(), TokenKind::Text)
}

fn expect_meta_name<'a>(ahead: Ahead<'a>) -> Reading<'a, ()>
    ensures { Gives result (one_at as_meta_name ahead.entry) }
{
    let left = ahead.left();
    match ahead.split() {
        Some((token, rest)) if is_meta_name(&token) => Ok(((), rest)),
        _ => Err(Or::Refused(left)),
    }
}

/// `#n`, an attribute group.
pub fn expect_group<'a>(ahead: Ahead<'a>) -> Reading<'a, ()>
    ensures { Gives result (one_at as_group ahead.entry) }
{
    let left = ahead.left();
    match ahead.split() {
        Some((token, rest)) if is_group(&token) => Ok(((), rest)),
        _ => Err(Or::Refused(left)),
    }
}

/// A quoted string.
pub fn expect_text<'a>(ahead: Ahead<'a>) -> Reading<'a, ()>
    ensures { Gives result (one_at as_text ahead.entry) }
{
    let left = ahead.left();
    match ahead.split() {
        Some((token, rest)) if is_text(&token) => Ok(((), rest)),
        _ => Err(Or::Refused(left)),
    }
}

/// `!N !n`, which is dropped.
#[tactic(auto, unfolding(crate::specs::Ends::attachment_at))]
pub fn read_attachment<'a>(ahead: Ahead<'a>) -> Reading<'a, ()>
    ensures { Gives result (attachment_at ahead.entry) }
{
    let (_, rest) = expect_meta_name(ahead)?;
    expect_meta_name(rest)
}

/// `!N !n`.
enum Attachments {}

impl Part for Attachments {
    type Item = ();

    ghost reading = { attachment_at };

    fn read<'a>(_: Global, ahead: Ahead<'a>) -> Reading<'a, ()> {
        read_attachment(ahead)
    }
}

/// `, !N !n`.
enum NextAttachments {}

impl Part for NextAttachments {
    type Item = ();

    ghost reading = { after_comma_at attachment_at };

    fn read<'a>(alloc: Global, ahead: Ahead<'a>) -> Reading<'a, ()> {
        read_next::<Attachments>(alloc, ahead)
    }
}

impl Repeated for NextAttachments {
    ghost goes = { at_mark 44 };

    fn begins(ahead: &Ahead) -> bool {
        ahead.is_at_mark(b',')
    }
}

/// As many `, !N !n` as stand here, which are dropped.
#[tactic(auto, unfolding(crate::specs::Ends::attachments_at))]
pub fn skip_attachments<'a>(alloc: Global, ahead: Ahead<'a>) -> Reading<'a, ()>
    ensures { Gives result (attachments_at ahead.entry) }
{
    skip_many::<NextAttachments>(alloc, ahead)
}

/// `, align A`, or 0 where no comma stands.
#[tactic(auto, unfolding(crate::specs::Ends::next_alignment_at, read_forms::specs::Read::after_comma_at))]
pub fn read_next_alignment<'a>(ahead: Ahead<'a>) -> Reading<'a, u32>
    ensures { Gives result (next_alignment_at ahead.entry) }
{
    if !ahead.is_at_mark(b',') {
        return Ok((0, ahead));
    }
    let (_, rest) = expect_mark(ahead, b',')?;
    read_alignment(rest)
}

/// Whether an attachment begins here.
pub fn is_at_attachment(ahead: &Ahead) -> bool
    ensures { result ≡ meta_goes (head ahead.now) }
{
    match ahead.first() {
        Some(token) => is_meta_name(&token),
        None => false,
    }
}

/// An attachment and those behind it, for which the value stands.
#[tactic(auto, unfolding(crate::specs::Ends::attached_at))]
pub fn read_attached<'a, X: Drop>(alloc: Global, value: X, ahead: Ahead<'a>) -> Reading<'a, X>
    ensures { Gives result (attached_at value ahead.entry) }
{
    let (_, rest) = read_attachment(ahead)?;
    let (_, rest) = skip_attachments(alloc, rest)?;
    Ok((value, rest))
}

#[tactic(auto, unfolding(crate::specs::Ends::aligned_at))]
fn read_aligned<'a>(alloc: Global, ahead: Ahead<'a>) -> Reading<'a, u32>
    ensures { Gives result (aligned_at ahead.entry) }
{
    let (align, rest) = read_alignment(ahead)?;
    let (_, rest) = skip_attachments(alloc, rest)?;
    Ok((align, rest))
}

#[tactic(auto, unfolding(crate::specs::Ends::behind_comma_at, read_forms::specs::Read::after_comma_at))]
fn read_tail_behind_comma<'a>(alloc: Global, ahead: Ahead<'a>) -> Reading<'a, u32>
    ensures { Gives result (behind_comma_at 0 aligned_at ahead.entry) }
{
    let (_, rest) = expect_mark(ahead, b',')?;
    if is_at_attachment(&rest) {
        read_attached(alloc, 0, rest)
    } else {
        read_aligned(alloc, rest)
    }
}

/// `, align A` and the attachments; the alignment is 0 where there is none.
#[tactic(auto, unfolding(crate::specs::Ends::tail_at))]
pub fn read_tail<'a>(alloc: Global, ahead: Ahead<'a>) -> Reading<'a, u32>
    ensures { Gives result (tail_at ahead.entry) }
{
    if ahead.is_at_mark(b',') {
        read_tail_behind_comma(alloc, ahead)
    } else {
        Ok((0, ahead))
    }
}

/// The word of a function's or a call's that stands for itself and is dropped.
pub fn plain_function_word(word: &[u8]) -> Option<()>
    ensures { result ≡ look_up (all_for (tt {0}) plain_function_words) word.now }
{
    if word == b"nounwind".as_slice()
        || word == b"alwaysinline".as_slice()
        || word == b"noinline".as_slice()
        || word == b"convergent".as_slice()
        || word == b"norecurse".as_slice()
        || word == b"optnone".as_slice()
        || word == b"willreturn".as_slice()
        || word == b"mustprogress".as_slice()
        || word == b"nofree".as_slice()
        || word == b"nosync".as_slice()
        || word == b"local_unnamed_addr".as_slice()
        || word == b"unnamed_addr".as_slice()
    {
        Some(())
    } else {
        None
    }
}

fn read_trailer_word<'a>(ahead: Ahead<'a>) -> Reading<'a, ()>
    ensures { Gives result (one_at (as_one_of plain_function_words) ahead.entry) }
{
    let left = ahead.left();
    match ahead.split() {
        Some((token, rest)) if token.is_word() => match plain_function_word(token.bytes()) {
            Some(()) => Ok(((), rest)),
            None => Err(Or::Refused(left)),
        },
        _ => Err(Or::Refused(left)),
    }
}

/// Behind a call, an attribute group or a word.
#[derive(Clone, Copy)]
enum Trailer {
    Group,
    Word,
}

fn trailer_form(token: &Lexeme) -> Option<Trailer>
    ensures { if_some trailer_seen result ≡ trailer_form_of token.now }
{
    if is_group(token) {
        Some(Trailer::Group)
    } else if token.is_word() && plain_function_word(token.bytes()).is_some() {
        Some(Trailer::Word)
    } else {
        None
    }
}

fn trailer_ahead(ahead: &Ahead) -> Option<Trailer>
    ensures { if_some trailer_seen result ≡ trailer_ahead (head ahead.now) }
{
    let token = ahead.first()?;
    trailer_form(&token)
}

#[tactic(auto, unfolding(crate::specs::Ends::trailer_at))]
fn read_trailer<'a>(ahead: Ahead<'a>) -> Reading<'a, ()>
    ensures { Gives result (trailer_at ahead.entry) }
{
    match trailer_ahead(&ahead) {
        Some(Trailer::Group) => expect_group(ahead),
        Some(Trailer::Word) => read_trailer_word(ahead),
        None => Err(Or::Refused(ahead.left())),
    }
}

/// What is dropped behind a call.
enum Trailers {}

impl Part for Trailers {
    type Item = ();

    ghost reading = { trailer_at };

    fn read<'a>(_: Global, ahead: Ahead<'a>) -> Reading<'a, ()> {
        read_trailer(ahead)
    }
}

impl Repeated for Trailers {
    ghost goes = { trailer_goes };

    fn begins(ahead: &Ahead) -> bool {
        trailer_ahead(ahead).is_some()
    }
}

#[tactic(auto, unfolding(crate::specs::Ends::trailers_at))]
fn skip_trailers<'a>(alloc: Global, ahead: Ahead<'a>) -> Reading<'a, ()>
    ensures { Gives result (trailers_at ahead.entry) }
{
    skip_many::<Trailers>(alloc, ahead)
}

/// The words and attachments behind a call, which are dropped.
#[tactic(auto, unfolding(crate::specs::Ends::call_end_at))]
pub fn skip_call_end<'a>(alloc: Global, ahead: Ahead<'a>) -> Reading<'a, ()>
    ensures { Gives result (call_end_at ahead.entry) }
{
    let (_, rest) = skip_trailers(alloc, ahead)?;
    skip_attachments(alloc, rest)
}
