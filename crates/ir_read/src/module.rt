//! Modules, and the refusals of texts that spell none.
ghost use Rattle.std.specs.Prelude.{◌≡◌, ◌≤◌, ◌<◌, ◌-◌, ◌^◌, IfOk, IfErr, length, take, drop, List as Listed, ℕ};
ghost use Rattle.ir_core.specs.Language.{Reads};
ghost use Rattle.ir_core.specs.Tokens.{lexemes};
ghost use Rattle.ir_core.specs.TextRefusals.{IsRefusalAt, last_line};
ghost use Rattle.ir_lex.specs.Seen.{tokens_seen};
ghost use Rattle.ir_read.specs.Probes.{AreWithin};
ghost use Rattle.ir_read.specs.Refused.{IsReadRefusal};

use crate::stopped::Stopped;
use ir_core::{Construct, Module, Or, OutOfMemory, Refusal};
use ir_lex::{Token, lex, line_ends, looked_at};
use read_forms::Ahead;
use read_items::read_tokens;
use std::alloc::Global;

/// The line of a text's last byte, or 1.
fn last_line(text: &[u8]) -> u32
    requires { length text.now < 2 ^ 30 }
    ensures { result ≡ last_line text.now }
{
    if text.is_empty() {
        return 1;
    }
    line_ends(&text[..text.len() - 1]) + 1
}

/// The refusal of a text where so many of its tokens are left.
fn refusal_at(
    alloc: Global,
    text: &[u8],
    tokens: &[Token],
    left: usize,
) -> Result<Refusal, OutOfMemory>
    requires short { length text.now < 2 ^ 30 }
    requires left { left ≤ length tokens.now }
    requires within { AreWithin text.now (take (length tokens.now - 1) tokens.now) }
    ensures { IfOk result (λ r. IsRefusalAt text.now (lexemes text.now (tokens_seen (take (length tokens.now - left) tokens.now))) (lexemes text.now (tokens_seen (drop (length tokens.now - left) tokens.now))) r) }
{
    let (before, rest) = tokens.split_at(tokens.len() - left);
    let Some(token) = Ahead::new(text, rest).first() else {
        return Ok(Refusal {
            construct: Construct::Syntax,
            line: last_line(text),
        });
    };
    let line = token.line();
    let stopped = Stopped::new(alloc, text, before, token)?;
    Ok(Refusal {
        construct: stopped.construct()?,
        line,
    })
}

/// The module that the text spells.
///
/// # Errors
///
/// A text that spells none is refused at its first token with which no text of the grammar goes on, of which the end counts as
/// one: for a construct that the token and its place tell, at the token's line.
pub fn read_module(alloc: Global, text: &[u8]) -> Result<Module, Or<Refusal>>
    ensures found { IfOk result (λ m. Reads text.now m) }
    ensures refused { IfErr result (λ e. IsReadRefusal text.now e) }
{
    let tokens = lex(alloc, text)?;
    let looked = looked_at(text);
    match read_tokens(alloc, Ahead::new(looked, tokens.as_slice())) {
        Ok(module) => Ok(module),
        Err(Or::Refused(left)) => {
            Err(Or::Refused(refusal_at(alloc, looked, tokens.as_slice(), left)?))
        }
        Err(Or::Memory) => Err(Or::Memory),
    }
}

/// No bytes spell two modules.
pub fn one_module()
    ensures { (text : Listed ℕ) (a b : Module) → Reads text a → Reads text b → a ≡ b }
{}
