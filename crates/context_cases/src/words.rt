//! Bytes as words, and back.

use anyhow::{Result, ensure};
use cash_base::element::copy_of;
use cash_base::{Element, MAX_ELEMENT_LEN};
use std::alloc::Global;

/// The bytes that a word spells.
pub fn bytes(alloc: Global, word: &str) -> Result<Vec<u8>> {
    ensure!(!word.is_empty(), "an operand is missing");
    let mut all = Vec::new(alloc);
    if word == "-" {
        return Ok(all);
    }
    for piece in word.split('+') {
        let (digits, count) = match piece.split_once('*') {
            Some((digits, count)) => (digits, count.parse::<u32>()?),
            None => (piece, 1),
        };
        let bytes = hex::decode(alloc, digits)?;
        for _ in 0..count {
            all.extend_from_slice(bytes.as_slice())?;
        }
    }
    Ok(all)
}

/// The element that a word spells.
pub fn element(alloc: Global, word: &str) -> Result<Element> {
    let bytes = bytes(alloc, word)?;
    ensure!(bytes.len() <= MAX_ELEMENT_LEN, "an element is too long");
    Ok(copy_of(bytes.as_slice()))
}

/// The word of some bytes.
pub fn word(alloc: Global, bytes: &[u8]) -> Result<String> {
    if bytes.is_empty() {
        return Ok(String::from_str(alloc, "-")?);
    }
    Ok(hex::encode(alloc, bytes)?)
}

/// The elements that a word spells, with commas between them; `none` is no element.
pub fn elements(alloc: Global, word: &str) -> Result<Vec<Element>> {
    let mut all = Vec::new(alloc);
    if word == "none" {
        return Ok(all);
    }
    for part in word.split(',') {
        all.push(element(alloc, part)?)?;
    }
    Ok(all)
}

/// The number that a word spells.
pub fn number(word: &str) -> Result<u32> {
    Ok(word.parse::<u32>()?)
}

/// The first word of a line, and the six after it; one that isn't there is empty.
pub fn words_of(line: &str) -> (&str, [&str; 6]) {
    let mut words = line.split_whitespace();
    let call = words.next().unwrap_or("");
    let a = words.next().unwrap_or("");
    let b = words.next().unwrap_or("");
    let c = words.next().unwrap_or("");
    let d = words.next().unwrap_or("");
    let e = words.next().unwrap_or("");
    let f = words.next().unwrap_or("");
    (call, [a, b, c, d, e, f])
}
