//! Tokens.

/// What a token is.
#[derive(Clone, Copy)]
pub enum TokenKind {
    /// Letters, digits and `$ . _ -`, not beginning with a digit, that are neither a number nor a float literal.
    Word,
    /// A name behind `%`: a word, digits or a quoted string.
    Local,
    /// A name behind `@`.
    Global,
    /// A name with a colon behind it.
    Label,
    /// Digits, with a `-` before them or not.
    Number,
    /// A number with a point, or `0x` and hexadecimal digits.
    Float,
    /// A quoted string, from one quote to the next.
    Text,
    /// A quoted string behind a `c`.
    CText,
    /// Digits behind a `#`.
    Group,
    /// A name behind a `!`, or `!{`.
    Meta,
    /// One of the bytes `( ) [ ] { } < > , = *`.
    Mark(u8),
    /// A line outside braces that is kept whole, without blanks at its ends.
    Passive,
    /// The first byte that begins no token. It ends the list.
    Bad,
    /// The first byte past the limit of a text. It ends the list.
    Past,
}

/// A token: the slice of its text from `start` to `end`, and the line of its first byte, counted from 1.
#[derive(Clone, Copy)]
pub struct Token {
    pub kind: TokenKind,
    pub start: u32,
    pub end: u32,
    pub line: u32,
}
