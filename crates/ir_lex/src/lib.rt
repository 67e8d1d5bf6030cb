//! The tokens of a module's text (LLVM Language Reference, "Syntax").
#![tactic(auto)]

mod class;
mod gaps;
mod limit;
mod literal;
mod passive;
mod place;
mod read;
mod scan;
mod token;

ghost use Rattle.std.specs.Prelude.{List as SpecList, ℕ, ◌≡◌, ◌<◌, ◌^◌, length, take, IfOk};
ghost use Rattle.ir_core.specs.Tokens as meaning;
ghost use Rattle.ir_core.specs.Tokens.{Lexes, text_limit};
ghost use Rattle.ir_lex.specs.Seen.{tokens_seen};

use ir_core::{List, OutOfMemory};
use limit::{front, text_limit, with_past};
pub use place::line_ends;
use read::read_all;
use std::alloc::Global;
pub use token::{Token, TokenKind};

/// The bytes of the text that are looked at: all of them, or the first 4,194,304.
pub fn looked_at(text: &[u8]) -> &[u8]
    ensures value { result.now ≡ take text_limit text.now }
    ensures short { length result.now < 2 ^ 30 }
{
    front(text, text_limit() as usize)
}

/// The tokens of the text, in order. They end at the first byte that begins none, with a token `Bad`.
/// A text above the limit ends with a token `Past` behind the tokens up to there, unless a `Bad` has ended them.
pub fn lex(alloc: Global, text: &[u8]) -> Result<List<Token>, OutOfMemory>
    ensures { IfOk result (λ v. Lexes text.now (tokens_seen v)) }
{
    let limit = text_limit();
    let read = read_all(alloc, front(text, limit as usize))?;
    with_past(text, limit, read)
}

/// A text has no two lists of tokens.
pub fn one_list()
    ensures { (text : SpecList ℕ) (a b : SpecList meaning.Token) → Lexes text a → Lexes text b → a ≡ b }
{}
