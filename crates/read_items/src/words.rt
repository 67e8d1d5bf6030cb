//! Words of items, some of which are kept.
ghost use Rattle.std.specs.Prelude.{◌≡◌, [], ◌∷◌, take, drop, Some, None, false, Bool, Option, List as Listed, ℕ, IfOk};
ghost use Rattle.ir_core.specs.Tokens.{Lexeme};
ghost use Rattle.ir_core.specs.Language.{item_words};
ghost use Rattle.read_forms.specs.Read.{Read, Gives, Shrinks, head, one_at, look_up, all_for};
ghost use Rattle.read_items.specs.Gathered.{gathered_at};
ghost use Rattle.read_items.specs.Globals.{as_item_word, item_word_goes, kept_words_at};

use ir_core::{List, Name, Or};
use read_body::convention;
use read_forms::{Ahead, Reading};
use std::alloc::{AllocError, Global};

/// A part of an item that stands any number of times in a row, and of which names are kept.
/// The type names the part, and has no values.
pub(crate) trait Words {
    /// The part's reading function.
    ghost reading: { Read (Listed (Listed ℕ)) };

    /// Whether the part begins with this token.
    ghost goes: { Option Lexeme → Bool };

    /// Whether the part stands next.
    fn begins(ahead: &Ahead) -> bool
        ensures { result ≡ goes (head ahead.now) };

    /// Reads the part.
    fn read<'a>(alloc: Global, ahead: Ahead<'a>) -> Reading<'a, List<Name>>
        ensures { Gives result (reading ahead.entry) };
}

/// What is kept of as many as begin, one after another.
pub(crate) fn gather<'a, T: Words>(alloc: Global, ahead: Ahead<'a>) -> Reading<'a, List<Name>>
    requires ends { T.goes None ≡ false }
    requires shrinks { Shrinks T.reading }
    ensures { Gives result (gathered_at T.goes T.reading ahead.entry) }
{
    let mut out = List::new(alloc);
    let mut rest = ahead;
    while T::begins(&rest) {
        let (names, after) = T::read(alloc, rest)?;
        out.append(names)?;
        rest = after;
    }
    Ok((out, rest))
}

/// The first bytes, so many as this or all.
pub(crate) fn front(bytes: &[u8], count: usize) -> &[u8]
    ensures { result.now ≡ take count bytes.now }
{
    if bytes.len() < count {
        bytes
    } else {
        &bytes[..count]
    }
}

/// A list of one name.
pub(crate) fn one_name(alloc: Global, bytes: &[u8]) -> Result<List<Name>, AllocError>
    ensures { IfOk result (λ names. names ≡ bytes.now ∷ []) }
{
    let mut names = List::new(alloc);
    names.push(Name::from_slice(alloc, bytes)?)?;
    Ok(names)
}

/// A word that stands behind the linkage.
fn style_word(word: &[u8]) -> Option<()>
    ensures { result ≡ look_up (all_for (tt {0}) (drop 10 item_words)) word.now }
{
    if word == b"default".as_slice()
        || word == b"hidden".as_slice()
        || word == b"protected".as_slice()
        || word == b"dso_local".as_slice()
        || word == b"dso_preemptable".as_slice()
        || word == b"local_unnamed_addr".as_slice()
        || word == b"unnamed_addr".as_slice()
        || word == b"ptx_kernel".as_slice()
        || word == b"amdgpu_kernel".as_slice()
    {
        Some(())
    } else {
        None
    }
}

/// A word of linkage, or one that stands behind it.
fn item_word(word: &[u8]) -> Option<()>
    ensures { result ≡ look_up (all_for (tt {0}) item_words) word.now }
{
    if word == b"private".as_slice()
        || word == b"internal".as_slice()
        || word == b"available_externally".as_slice()
        || word == b"linkonce".as_slice()
        || word == b"linkonce_odr".as_slice()
        || word == b"weak".as_slice()
        || word == b"weak_odr".as_slice()
        || word == b"common".as_slice()
        || word == b"appending".as_slice()
        || word == b"external".as_slice()
    {
        Some(())
    } else {
        style_word(word)
    }
}

fn is_item_word(token: &read_forms::Lexeme) -> bool
    ensures { result ≡ item_word_goes (Some token.now) }
{
    token.is_word() && (item_word(token.bytes()).is_some() || convention(token.bytes()).is_some())
}

/// A word that is kept, or a calling convention, which is dropped.
fn read_item_word<'a>(alloc: Global, ahead: Ahead<'a>) -> Reading<'a, List<Name>>
    ensures { Gives result (one_at as_item_word ahead.entry) }
{
    let left = ahead.left();
    let Some((token, rest)) = ahead.split() else {
        return Err(Or::Refused(left));
    };
    if !is_item_word(&token) {
        return Err(Or::Refused(left));
    }
    if item_word(token.bytes()).is_some() {
        Ok((one_name(alloc, token.bytes())?, rest))
    } else {
        Ok((List::new(alloc), rest))
    }
}

/// Words of linkage and the like.
enum ItemWords {}

impl Words for ItemWords {
    ghost reading = { one_at as_item_word };

    ghost goes = { item_word_goes };

    fn begins(ahead: &Ahead) -> bool {
        match ahead.first() {
            Some(token) => is_item_word(&token),
            None => false,
        }
    }

    fn read<'a>(alloc: Global, ahead: Ahead<'a>) -> Reading<'a, List<Name>> {
        read_item_word(alloc, ahead)
    }
}

/// The words before a global's or a function's type; calling conventions are dropped.
#[tactic(auto, unfolding(crate::specs::Globals::kept_words_at))]
pub(crate) fn read_kept_words<'a>(alloc: Global, ahead: Ahead<'a>) -> Reading<'a, List<Name>>
    ensures { Gives result (kept_words_at ahead.entry) }
{
    gather::<ItemWords>(alloc, ahead)
}
