//! From a token to the place behind it.
ghost use Rattle.std.specs.Prelude.{◌≡◌, ◌+◌, ◌<◌, ◌≤◌, ◌^◌, length, take, drop, Some, false};
ghost use Rattle.ir_core.specs.Tokens.{line_ends, open_behind, is_outside};
ghost use Rattle.ir_core.specs.Scan.{class_at, is_gap, plain_at, by_passive, passive_size, piece_at};
ghost use Rattle.ir_lex.specs.Seen.{kind_seen};
ghost use Rattle.ir_lex.specs.Scanned.{piece_seen, spot_seen, BeginsToken, IsPlace, IsBehind};

use crate::gaps::Place;
use crate::passive::passive_size;
use crate::scan::{Piece, make_piece, token_piece};
use crate::token::TokenKind;

/// Whether a passive line may stand at a place.
fn is_outside(place: Place) -> bool
    ensures { result ≡ is_outside (spot_seen place) }
{
    place.first && place.depth == 0
}

/// The passive line at the front of a text, or else the token there.
fn outside_piece(rest: &[u8]) -> Piece
    requires room { length rest.now < 2 ^ 32 }
    requires begins { is_gap (class_at rest.now) ≡ false }
    ensures { piece_seen result ≡ by_passive (passive_size rest.now) (plain_at rest.now) }
{
    let size = passive_size(rest);
    if size == 0 {
        token_piece(rest)
    } else {
        make_piece(TokenKind::Passive, size)
    }
}

/// The token at the front of a text that begins at a place.
fn piece_at(rest: &[u8], place: Place) -> Piece
    requires room { length rest.now < 2 ^ 32 }
    requires begins { is_gap (class_at rest.now) ≡ false }
    ensures { piece_seen result ≡ piece_at (spot_seen place) rest.now }
{
    if is_outside(place) {
        outside_piece(rest)
    } else {
        token_piece(rest)
    }
}

/// The token that begins at a place.
pub fn token_at(text: &[u8], place: Place) -> Piece
    requires room { length text.now < 2 ^ 32 }
    requires inside { place.at < length text.now }
    requires begins { BeginsToken text.now place.at }
    ensures piece { piece_seen result ≡ piece_at (spot_seen place) (drop place.at text.now) }
    ensures some { 0 < result.size }
    ensures within { place.at + result.size ≤ length text.now }
{
    piece_at(&text[place.at..], place)
}

/// How many line ends there are.
pub fn line_ends(bytes: &[u8]) -> u32
    requires { length bytes.now < 2 ^ 31 }
    ensures value { result ≡ line_ends bytes.now }
    ensures within { result ≤ length bytes.now }
{
    let mut count = 0;
    for byte in bytes {
        if *byte == b'\n' {
            count += 1;
        }
    }
    count
}

/// How many braces are open behind a token.
fn open_behind(kind: TokenKind, bytes: &[u8], depth: u32) -> u32
    requires { depth + 1 < 2 ^ 32 }
    ensures { result ≡ open_behind (kind_seen kind) bytes.now depth }
{
    match kind {
        TokenKind::Mark(b'{') => depth + 1,
        TokenKind::Mark(b'}') => depth.saturating_sub(1),
        TokenKind::Meta => {
            if bytes == b"!{".as_slice() {
                depth + 1
            } else {
                depth
            }
        }
        _ => depth,
    }
}

/// The place behind a token.
pub fn behind(text: &[u8], place: Place, token: Piece) -> Place
    requires room { length text.now < 2 ^ 31 }
    requires is_place { IsPlace text.now place }
    requires some { 0 < token.size }
    requires within { place.at + token.size ≤ length text.now }
    ensures { IsBehind text.now place token result }
{
    let end = place.at + token.size;
    let bytes = &text[place.at..end];
    Place {
        at: end,
        line: place.line + line_ends(bytes),
        depth: open_behind(token.kind, bytes, place.depth),
        first: false,
    }
}
