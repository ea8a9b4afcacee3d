//! What a text begins with, by rows: the first that fits counts.

ghost use Rattle.std.specs.Prelude.{◌≡◌, ◌≤◌, ◌==◌, nat_eq, length, IfSome};
ghost use Rattle.std.specs.List.{prefix_len, list_any, starts_with};
ghost use Rattle.cash_lexer.specs.Rows.{is_word_start, is_word_byte, word, is_escapable, is_line_end, string_len, string, sign, char_len, bad_character, gap, literal, other, piece_of};

use crate::dates::{date, is_quote};
use crate::gap::{blanks, comment};
use crate::numbers::{hex, number, version};
use crate::piece::{Flaw, Piece};
use cash_tree::TokenKind;

/// The signs of two characters.
const DOUBLE_SIGNS: [&[u8]; 6] = [b"&&", b"||", b"==", b"!=", b"<=", b">="];

/// The signs of one character.
const SINGLE_SIGNS: &[u8] = b"()[]{},;.=<>+-*/%!&|^~";

fn is_word_start(byte: u8) -> bool
    ensures { result ≡ is_word_start byte }
{
    byte.is_ascii_alphabetic() || byte == b'_'
}

fn is_word_byte(byte: u8) -> bool
    ensures { result ≡ is_word_byte byte }
{
    byte.is_ascii_alphanumeric() || byte == b'_'
}

/// How many letters, digits and `_` a text begins with.
fn word_len(text: &[u8]) -> usize
    ensures { result ≡ prefix_len is_word_byte text.now }
{
    text.iter().take_while(|byte| is_word_byte(**byte)).count()
}

/// A letter or `_`, and then letters, digits and `_`.
#[tactic(auto, unfolding(crate::specs::Rows::word))]
fn word(text: &[u8]) -> Option<Piece>
    ensures { result ≡ word text.now }
{
    match text.first() {
        Some(byte) if is_word_start(*byte) => Some(Piece::Known(TokenKind::Word, word_len(text))),
        _ => None,
    }
}

fn is_escapable(byte: u8) -> bool
    ensures { result ≡ is_escapable byte }
{
    is_quote(byte) || byte == b'\\'
}

fn is_line_end(byte: u8) -> bool
    ensures { result ≡ is_line_end byte }
{
    byte == b'\n' || byte == b'\r'
}

/// How many bytes a text has up to the quote that ends a string and with it, unless the line ends before.
#[tactic(auto, using(crate::proofs::Lengths::string_at))]
fn string_len(quote: u8, text: &[u8]) -> Option<usize>
    ensures value { result ≡ string_len quote text.now }
    ensures within { IfSome result (λ n. n ≤ length text.now) }
{
    let mut escaped = false;
    for (i, byte) in text.iter().enumerate() {
        if escaped && is_escapable(*byte) {
            escaped = false;
        } else if *byte == quote {
            return Some(i + 1);
        } else if is_line_end(*byte) {
            return None;
        } else {
            escaped = *byte == b'\\';
        }
    }
    None
}

/// A text between quotes.
#[tactic(auto, unfolding(crate::specs::Rows::string))]
fn string(text: &[u8]) -> Option<Piece>
    ensures { result ≡ string text.now }
{
    let (quote, rest) = text.split_first()?;
    if !is_quote(*quote) {
        return None;
    }
    match string_len(*quote, rest) {
        Some(len) => Some(Piece::Known(TokenKind::Text, len + 1)),
        None => Some(Piece::Flawed(Flaw::OpenString, 1)),
    }
}

fn begins_with_any(text: &[u8], signs: &[&[u8]]) -> bool
    ensures { result ≡ list_any (λ s. starts_with nat_eq text.now s.now) signs.now }
{
    signs.iter().any(|sign| text.starts_with(sign))
}

fn is_among(byte: u8, signs: &[u8]) -> bool
    ensures { result ≡ list_any (λ s. s == byte) signs.now }
{
    signs.iter().any(|sign| *sign == byte)
}

/// A sign of two characters, or else of one.
#[tactic(auto, unfolding(crate::specs::Rows::sign))]
fn sign(text: &[u8]) -> Option<Piece>
    ensures { result ≡ sign text.now }
{
    let first = text.first()?;
    if begins_with_any(text, &DOUBLE_SIGNS) {
        Some(Piece::Known(TokenKind::Sign, 2))
    } else if is_among(*first, SINGLE_SIGNS) {
        Some(Piece::Known(TokenKind::Sign, 1))
    } else {
        None
    }
}

/// How many bytes a character takes whose first byte this is.
fn char_len(byte: u8) -> usize
    ensures { result ≡ char_len byte }
{
    match byte {
        0..128 => 1,
        128..224 => 2,
        224..240 => 3,
        240.. => 4,
    }
}

/// A character with which no token begins.
#[tactic(auto, unfolding(crate::specs::Rows::bad_character))]
fn bad_character(text: &[u8]) -> Option<Piece>
    ensures { result ≡ bad_character text.now }
{
    let first = text.first()?;
    Some(Piece::Flawed(Flaw::BadCharacter, char_len(*first)))
}

fn gap(text: &[u8]) -> Option<Piece>
    ensures { result ≡ gap text.now }
{
    blanks(text).or_else(|| comment(text))
}

fn literal(text: &[u8]) -> Option<Piece>
    ensures { result ≡ literal text.now }
{
    date(text)
        .or_else(|| hex(text))
        .or_else(|| version(text))
        .or_else(|| number(text))
}

fn other(text: &[u8]) -> Option<Piece>
    ensures { result ≡ other text.now }
{
    word(text)
        .or_else(|| string(text))
        .or_else(|| sign(text))
        .or_else(|| bad_character(text))
}

/// What a text begins with, unless it is empty.
#[tactic(auto, unfolding(crate::specs::Rows::piece_of))]
pub fn piece(text: &[u8]) -> Option<Piece>
    ensures { result ≡ piece_of text.now }
{
    gap(text).or_else(|| literal(text)).or_else(|| other(text))
}
