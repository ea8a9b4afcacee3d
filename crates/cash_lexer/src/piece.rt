//! What a text begins with.

use cash_tree::TokenKind;

/// What a text begins with, and how many bytes it takes.
#[derive(Clone, Copy, Debug, PartialEq, Eq)]
pub enum Piece {
    /// Blanks, or a comment.
    Gap(usize),
    /// A token.
    Known(TokenKind, usize),
    /// Neither: the bytes that are at fault.
    Flawed(Flaw, usize),
}

/// Why no token begins at a place.
#[derive(Clone, Copy, Debug, PartialEq, Eq)]
pub enum Flaw {
    BadCharacter,
    OpenString,
    OpenComment,
    NumberTooWide,
    OddHex,
    BadDate,
}
