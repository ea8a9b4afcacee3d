//! Bytes as words, and back.

use anyhow::{Result, ensure};
use cash_base::element::copy_of;
use cash_base::{Cause, Element, MAX_ELEMENT_LEN};
use std::alloc::Global;

/// The bytes that a word spells.
pub fn bytes(alloc: Global, word: &str) -> Result<Vec<u8>> {
    ensure!(!word.is_empty(), "an operand is missing");
    let mut all = Vec::new(alloc);
    if word == "-" {
        return Ok(all);
    }
    for piece in word.split('+') {
        let (digits, count) = match piece.split_once('*') {
            Some((digits, count)) => (digits, count.parse::<u32>()?),
            None => (piece, 1),
        };
        let bytes = hex::decode(alloc, digits)?;
        for _ in 0..count {
            all.extend_from_slice(bytes.as_slice())?;
        }
    }
    Ok(all)
}

/// The element that a word spells.
pub fn element(alloc: Global, word: &str) -> Result<Element> {
    let bytes = bytes(alloc, word)?;
    ensure!(bytes.len() <= MAX_ELEMENT_LEN, "an element is too long");
    Ok(copy_of(bytes.as_slice()))
}

/// The word of some bytes.
pub fn word(alloc: Global, bytes: &[u8]) -> Result<String> {
    if bytes.is_empty() {
        return Ok(String::from_str(alloc, "-")?);
    }
    Ok(hex::encode(alloc, bytes)?)
}

/// The word of an element, or the cause that there is none.
pub fn outcome(alloc: Global, outcome: Result<Element, Cause>) -> Result<String> {
    match outcome {
        Ok(element) => word(alloc, element.as_slice()),
        Err(cause) => Ok(format!(in alloc; "!{cause:?}")?),
    }
}
