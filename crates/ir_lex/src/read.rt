//! The tokens of a text, one after another.
ghost use Rattle.std.specs.Prelude.{◌≡◌, ◌<◌, ◌^◌, length, IfOk};
ghost use Rattle.ir_core.specs.Tokens.{is_bad_kind};
ghost use Rattle.ir_lex.specs.Seen.{kind_seen};
ghost use Rattle.ir_lex.specs.Scanned.{IsRead};

use crate::gaps::{Place, skip_gaps};
use crate::place::{behind, token_at};
use crate::token::{Token, TokenKind};
use ir_core::{List, OutOfMemory};
use std::alloc::Global;

/// The tokens of a text, in order.
#[derive(Drop)]
pub struct Read {
    pub tokens: List<Token>,
    /// Whether a byte that begins no token ended them.
    pub bad: bool,
    /// The line of the text's end, if none did.
    pub line: u32,
}

/// Whether it is the kind of a byte that begins no token.
fn is_bad(kind: TokenKind) -> bool
    ensures { result ≡ is_bad_kind (kind_seen kind) }
{
    matches!(kind, TokenKind::Bad)
}

/// All the tokens of a text that is not above the limit.
pub fn read_all(alloc: Global, text: &[u8]) -> Result<Read, OutOfMemory>
    requires { length text.now < 2 ^ 31 }
    ensures { IfOk result (λ read. IsRead text.now read) }
{
    let mut tokens = List::new(alloc);
    let start = Place {
        at: 0,
        line: 1,
        depth: 0,
        first: true,
    };
    let mut place = skip_gaps(text, start);
    'tokens: while place.at < text.len() {
        let piece = token_at(text, place);
        let end = place.at + piece.size;
        let line = place.line;
        tokens.push(Token {
            kind: piece.kind,
            start: place.at as u32,
            end: end as u32,
            line,
        })?;
        if is_bad(piece.kind) {
            return Ok(Read {
                tokens,
                bad: true,
                line,
            });
        }
        place = skip_gaps(text, behind(text, place, piece));
    }
    Ok(Read {
        tokens,
        bad: false,
        line: place.line,
    })
}
