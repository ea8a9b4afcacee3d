//! The words of a line.

use anyhow::Result;
use std::alloc::Global;

/// The first word of a text, and what stands after the blank behind it.
pub fn split(text: &str) -> (&str, &str) {
    text.split_once(' ').unwrap_or((text, ""))
}

/// The bytes that digits spell, or none for `-`.
pub fn bytes(alloc: Global, digits: &str) -> Result<Vec<u8>> {
    if digits == "-" {
        return Ok(Vec::new(alloc));
    }
    Ok(hex::decode(alloc, digits)?)
}
