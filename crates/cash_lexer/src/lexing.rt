//! The tokens of a source.

ghost use Rattle.std.specs.Prelude.{◌≡◌, ◌≢◌, ◌+◌, ◌≤◌, ◌^◌, ◌<◌, length, drop, Ok, Err, IfOk, IfErr};
ghost use Rattle.cash_lexer.specs.declared.fault.LexFault.TheVariants.{Memory};
ghost use Rattle.cash_lexer.specs.Tokens.{most_bytes, span_at, fault_of, first_found, lexed};

use crate::fault::LexFault;
use crate::piece::{Flaw, Piece};
use crate::rows::piece;
use cash_base::Span;
use cash_tree::Token;
use std::alloc::Global;

fn span_at(at: usize, len: usize) -> Span
    requires { at + len < 2 ^ 32 }
    ensures { result ≡ span_at at len }
{
    Span {
        from: at as u32,
        to: (at + len) as u32,
    }
}

fn fault_of(flaw: Flaw, span: Span) -> LexFault
    ensures value { result ≡ fault_of flaw span }
    ensures sure { result ≢ Memory }
{
    match flaw {
        Flaw::BadCharacter => LexFault::BadCharacter { span },
        Flaw::OpenString => LexFault::OpenString { span },
        Flaw::OpenComment => LexFault::OpenComment { span },
        Flaw::NumberTooWide => LexFault::NumberTooWide { span },
        Flaw::OddHex => LexFault::OddHex { span },
        Flaw::BadDate => LexFault::BadDate { span },
    }
}

/// What stands from a place on.
fn from_place(source: &[u8], at: usize) -> &[u8]
    requires { at ≤ length source.now }
    ensures { result.now ≡ drop at source.now }
{
    let (_, rest) = source.split_at(at);
    rest
}

/// The first token from a place on, or the fault before any, or `None`.
fn next_from(source: &[u8], from: usize) -> Result<Option<Token>, LexFault>
    requires long { length source.now ≤ most_bytes }
    requires within { from ≤ length source.now }
    ensures value { result ≡ first_found from (drop from source.now) }
    ensures sure { IfErr result (λ fault. fault ≢ Memory) }
{
    let mut at = from;
    loop {
        match piece(from_place(source, at)) {
            None => return Ok(None),
            Some(Piece::Gap(len)) => at += len,
            Some(Piece::Known(kind, len)) => {
                let span = span_at(at, len);
                return Ok(Some(Token { kind, span }));
            }
            Some(Piece::Flawed(flaw, len)) => return Err(fault_of(flaw, span_at(at, len))),
        }
    }
}

/// The first token of the text that begins at a place, also where the place lies inside a token or a comment of the
/// whole source.
///
/// It answers `None` where only blanks and comments are left. Spans count bytes from the start of the source, and a
/// token's text is the slice of the source at its span. The place is meant to be on a character's border: inside a
/// character its later bytes are read as if one began there. It takes no memory.
///
/// # Errors
///
/// The fault that comes before any token, with its span; never `Memory`.
pub fn next_token(source: &str, from: usize) -> Result<Option<Token>, LexFault>
    requires long { length source.now ≤ most_bytes }
    requires within { from ≤ length source.now }
    ensures value { result ≡ first_found from (drop from source.now) }
    ensures sure { IfErr result (λ fault. fault ≢ Memory) }
{
    next_from(source.as_bytes(), from)
}

/// All tokens of a source, in order.
///
/// Each is the one with which the source goes on after blanks and comments, as long as it can be, and the first row
/// of the rules that fits counts. It goes over the source once.
///
/// # Errors
///
/// The first fault of the source, or `Memory`, where memory ran out.
pub fn tokens(alloc: Global, source: &str) -> Result<Vec<Token>, LexFault>
    requires { length source.now ≤ most_bytes }
    ensures found { IfOk result (λ tokens. lexed source.now ≡ Ok tokens.items) }
    ensures fault { IfErr result (λ fault. fault ≢ Memory → lexed source.now ≡ Err fault) }
{
    let source = source.as_bytes();
    let mut tokens = Vec::new(alloc);
    let mut at = 0;
    while let Some(token) = next_from(source, at)? {
        at = token.span.to as usize;
        tokens.push(token)?;
    }
    Ok(tokens)
}
