//! The bytes of literals.

ghost use Rattle.std.specs.Prelude.{◌≡◌, drop, IfOk, IfErr};
ghost use Rattle.cash_symbols.specs.declared.fault.Stop.TheVariants.{Memory};
ghost use Rattle.cash_symbols.specs.Lexemes;
ghost use Rattle.hex.specs.Hex.{decode_of};

use crate::fault::Stop;
use hex::FromHexError;
use sqlite_items::Items;
use std::alloc::{AllocError, Global};

/// Whether a backslash makes this stand for itself.
fn is_escapable(byte: u8) -> bool
    ensures { result ≡ Lexemes.is_escapable byte }
{
    byte == b'"' || byte == b'\'' || byte == b'\\'
}

/// The bytes of a text, its escapes resolved.
pub fn unescaped(alloc: Global, text: &[u8]) -> Result<Items<u8>, AllocError>
    ensures { IfOk result (λ bytes. bytes ≡ Lexemes.unescaped text.now) }
{
    let mut bytes = Items::new(alloc);
    let mut rest = text;
    loop {
        match rest {
            [] => return Ok(bytes),
            [b'\\', b, tail @ ..] if is_escapable(*b) => {
                bytes.push(*b)?;
                rest = tail;
            }
            [a, tail @ ..] => {
                bytes.push(*a)?;
                rest = tail;
            }
        }
    }
}

/// A text without its quotes.
fn between_quotes(text: &[u8]) -> &[u8]
    ensures { result.now ≡ Lexemes.between_quotes text.now }
{
    let rest = text.get(1..).unwrap_or(&[]);
    let len = text.len().saturating_sub(2);
    rest.get(..len).unwrap_or(rest)
}

/// The bytes of a text token.
pub fn text_bytes(alloc: Global, text: &[u8]) -> Result<Items<u8>, AllocError>
    ensures { IfOk result (λ bytes. bytes ≡ Lexemes.unescaped (Lexemes.between_quotes text.now)) }
{
    unescaped(alloc, between_quotes(text))
}

/// The bytes of a hexadecimal token after its `0x`, or `None` where its digits spell none.
pub fn hex_bytes(alloc: Global, text: &[u8]) -> Result<Option<Items<u8>>, Stop>
    ensures value { IfOk result (λ o. o ≡ Lexemes.hex_bytes (decode_of (drop 2 text.now))) }
    ensures memory { IfErr result (λ e. e ≡ Memory) }
{
    match hex::decode(alloc, text.get(2..).unwrap_or(&[])) {
        Ok(bytes) => Ok(Some(Items::from_vec(bytes))),
        Err(FromHexError::OutOfMemory) => Err(Stop::Memory),
        Err(_) => Ok(None),
    }
}
