//! The tokens that are still to be read.
ghost use Rattle.std.specs.Prelude.{◌≡◌, ◌+◌, ◌-◌, [], ◌∷◌, length, take, drop, Option, MatchOption, IsTrue};
ghost use Rattle.ir_core.specs.Tokens.{lexemes};
ghost use Rattle.ir_lex.specs.Seen.{kind_seen, tokens_seen};
ghost use Rattle.read_forms.specs.Read.{head, is_word, is_local, is_global, is_label, is_number, is_mark, at_mark, at_word, spells_word};

use ir_lex::{Token, TokenKind};
use std::marker::Model;

/// A token with its bytes. Contracts see it as the grammar does.
#[derive(Drop)]
pub struct Lexeme<'a> {
    kind: TokenKind,
    bytes: &'a [u8],
    line: u32,
}

impl<'a> Model for Lexeme<'a> {
    ghost use Rattle.ir_core.specs.Tokens.{Lexeme as Seen};
    ghost use Rattle.ir_lex.specs.Seen.{kind_seen};

    ghost Value = { Seen };

    ghost view = { λ t. record { kind = kind_seen t.kind; bytes = t.bytes.now; line = t.line } };
}

/// The tokens that are still to be read. Contracts see them as the grammar does.
#[derive(Drop)]
pub struct Ahead<'a> {
    text: &'a [u8],
    tokens: &'a [Token],
}

impl<'a> Model for Ahead<'a> {
    ghost use Rattle.std.specs.Prelude.{List};
    ghost use Rattle.ir_core.specs.Tokens.{Lexeme as Seen, lexemes};
    ghost use Rattle.ir_lex.specs.Seen.{tokens_seen};

    ghost Value = { List Seen };

    ghost view = { λ a. lexemes a.text.now (tokens_seen a.tokens.now) };
}

impl<'a> Lexeme<'a> {
    /// The token's kind.
    pub fn kind(&self) -> TokenKind
        ensures { kind_seen result ≡ self.now.kind }
    {
        self.kind
    }

    /// The token's bytes.
    pub fn bytes(&self) -> &'a [u8]
        ensures { result.now ≡ self.now.bytes }
    {
        self.bytes
    }

    /// The token's line, counted from 1.
    pub fn line(&self) -> u32
        ensures { result ≡ self.now.line }
    {
        self.line
    }

    /// Whether it is a word.
    pub fn is_word(&self) -> bool
        ensures { result ≡ is_word self.now.kind }
    {
        matches!(self.kind, TokenKind::Word)
    }

    /// Whether it is `%N`.
    pub fn is_local(&self) -> bool
        ensures { result ≡ is_local self.now.kind }
    {
        matches!(self.kind, TokenKind::Local)
    }

    /// Whether it is `@N`.
    pub fn is_global(&self) -> bool
        ensures { result ≡ is_global self.now.kind }
    {
        matches!(self.kind, TokenKind::Global)
    }

    /// Whether it is a number.
    pub fn is_number(&self) -> bool
        ensures { result ≡ is_number self.now.kind }
    {
        matches!(self.kind, TokenKind::Number)
    }

    /// Whether it is `N:`.
    pub fn is_label(&self) -> bool
        ensures { result ≡ is_label self.now.kind }
    {
        matches!(self.kind, TokenKind::Label)
    }

    /// Whether it is this mark.
    pub fn is_mark(&self, mark: u8) -> bool
        ensures { result ≡ is_mark mark self.now.kind }
    {
        match self.kind {
            TokenKind::Mark(found) => found == mark,
            _ => false,
        }
    }

    /// Whether it is this word.
    pub fn spells(&self, word: &[u8]) -> bool
        ensures { result ≡ spells_word word.now self.now }
    {
        self.is_word() && self.bytes == word
    }

    /// The name behind a `%` or `@`.
    pub fn name(&self) -> &'a [u8]
        ensures { result.now ≡ drop 1 self.now.bytes }
    {
        let bytes = self.bytes;
        if bytes.is_empty() { bytes } else { &bytes[1..] }
    }

    /// The name before a `:`.
    pub fn label_name(&self) -> &'a [u8]
        ensures { result.now ≡ take (length self.now.bytes - 1) self.now.bytes }
    {
        let bytes = self.bytes;
        if bytes.is_empty() {
            bytes
        } else {
            &bytes[..bytes.len() - 1]
        }
    }
}

/// The part of the text from `start` to `end`, as far as the text reaches.
fn part(text: &[u8], start: u32, end: u32) -> &[u8]
    ensures { result.now ≡ take (end - start) (drop start text.now) }
{
    let start = (start as usize).min(text.len());
    let end = (end as usize).min(text.len());
    if start < end {
        &text[start..end]
    } else {
        &text[..0]
    }
}

impl<'a> Ahead<'a> {
    /// All tokens of the text.
    pub fn new(text: &'a [u8], tokens: &'a [Token]) -> Ahead<'a>
        ensures { result ≡ lexemes text.now (tokens_seen tokens.now) }
    {
        Ahead { text, tokens }
    }

    /// How many tokens are left.
    pub fn left(&self) -> usize
        ensures { result ≡ length self.now }
    {
        self.tokens.len()
    }

    /// Whether this mark comes next.
    pub fn is_at_mark(&self, mark: u8) -> bool
        ensures { result ≡ at_mark mark (head self.now) }
    {
        match self.first() {
            Some(token) => token.is_mark(mark),
            None => false,
        }
    }

    /// Whether this word comes next.
    pub fn is_at_word(&self, word: &[u8]) -> bool
        ensures { result ≡ at_word word.now (head self.now) }
    {
        match self.first() {
            Some(token) => token.spells(word),
            None => false,
        }
    }

    /// The next token.
    pub fn first(&self) -> Option<Lexeme<'a>>
        ensures { result ≡ head self.now }
    {
        match self.tokens {
            [token, ..] => Some(Lexeme {
                kind: token.kind,
                bytes: part(self.text, token.start, token.end),
                line: token.line,
            }),
            [] => None,
        }
    }

    /// The next token, and those behind it.
    pub fn split(self) -> Option<(Lexeme<'a>, Ahead<'a>)>
        ensures { MatchOption result (self.entry ≡ []) (λ p. self.entry ≡ p.0 ∷ p.1) }
    {
        let token = self.first()?;
        let rest = Ahead {
            text: self.text,
            tokens: &self.tokens[1..],
        };
        Some((token, rest))
    }
}
