//! Blanks and comments.

ghost use Rattle.std.specs.Prelude.{◌≡◌, ◌≤◌, length, IfSome};
ghost use Rattle.std.specs.List.{prefix_len};
ghost use Rattle.cash_lexer.specs.Gap.{is_blank, is_in_line, blank_len, line_len, closing_len, blanks, comment};

use crate::piece::{Flaw, Piece};

fn is_blank(byte: u8) -> bool
    ensures { result ≡ is_blank byte }
{
    matches!(byte, b' ' | b'\t' | b'\r' | b'\n')
}

/// How many blanks a text begins with.
fn blank_len(text: &[u8]) -> usize
    ensures { result ≡ blank_len text.now }
{
    text.iter().take_while(|byte| is_blank(**byte)).count()
}

/// How many bytes are left of the line, without its line feed.
fn line_len(text: &[u8]) -> usize
    ensures { result ≡ line_len text.now }
{
    text.iter().take_while(|byte| **byte != b'\n').count()
}

/// How many bytes a text has up to its first `*/` and with it.
#[tactic(auto, using(crate::proofs::Lengths::closing_step, crate::proofs::Lengths::closing_found, crate::proofs::Lengths::closing_none))]
fn closing_len(text: &[u8]) -> Option<usize>
    ensures value { result ≡ closing_len text.now }
    ensures within { IfSome result (λ n. n ≤ length text.now) }
{
    for i in 0..text.len() {
        if text[i..].starts_with(b"*/") {
            return Some(i + 2);
        }
    }
    None
}

/// The blanks in front of a text.
#[tactic(auto, unfolding(crate::specs::Gap::blanks))]
pub fn blanks(text: &[u8]) -> Option<Piece>
    ensures { result ≡ blanks text.now }
{
    match blank_len(text) {
        0 => None,
        len => Some(Piece::Gap(len)),
    }
}

/// The comment in front of a text, which may be open.
#[tactic(auto, unfolding(crate::specs::Gap::comment))]
pub fn comment(text: &[u8]) -> Option<Piece>
    ensures { result ≡ comment text.now }
{
    if text.starts_with(b"//") {
        return Some(Piece::Gap(line_len(text)));
    }
    if !text.starts_with(b"/*") {
        return None;
    }
    match closing_len(&text[2..]) {
        Some(len) => Some(Piece::Gap(len + 2)),
        None => Some(Piece::Flawed(Flaw::OpenComment, text.len())),
    }
}
