//! The limit of a text.
ghost use Rattle.std.specs.Prelude.{◌≡◌, ◌≤◌, ◌<◌, ◌+◌, ◌++◌, ◌^◌, [], ◌∷◌, length, take, IfOk};
ghost use Rattle.ir_core.specs.Tokens.{text_limit, Lexes};
ghost use Rattle.ir_lex.specs.Seen.{tokens_seen};
ghost use Rattle.ir_lex.specs.Scanned.{IsRead};

use crate::read::Read;
use crate::token::{Token, TokenKind};
use ir_core::{List, OutOfMemory};

/// How many bytes of a text are looked at.
pub fn text_limit() -> u32
    ensures value { result ≡ text_limit }
    ensures small { result < 2 ^ 30 }
{
    4_194_304
}

/// The text, or its first bytes up to the limit.
pub fn front(text: &[u8], limit: usize) -> &[u8]
    ensures value { result.now ≡ take limit text.now }
    ensures within { length result.now ≤ limit }
{
    if text.len() <= limit {
        text
    } else {
        &text[..limit]
    }
}

/// The tokens of the text, from those of its front.
pub fn with_past(text: &[u8], limit: u32, read: Read) -> Result<List<Token>, OutOfMemory>
    requires limit_is { limit ≡ text_limit }
    requires small { limit < 2 ^ 30 }
    requires is_read { IsRead (take limit text.now) read }
    ensures { IfOk result (λ v. Lexes text.now (tokens_seen v)) }
{
    let Read {
        mut tokens,
        bad,
        line,
    } = read;
    if text.len() <= limit as usize {
        return Ok(tokens);
    }
    if bad {
        return Ok(tokens);
    }
    tokens.push(Token {
        kind: TokenKind::Past,
        start: limit,
        end: limit + 1,
        line,
    })?;
    Ok(tokens)
}
