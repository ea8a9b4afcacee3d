//! The words of a case.

use anyhow::{Result, bail};
use cash_base::element::copy_of;
use cash_base::{Element, MAX_ELEMENT_LEN};
use spend_debug::{InputStop, input_text};
use std::alloc::Global;

/// The first word of a text, and what stands after the blank behind it.
pub fn split(text: &str) -> (&str, &str) {
    text.split_once(' ').unwrap_or((text, ""))
}

/// The bytes that digits spell, or none for `-`.
pub fn bytes(alloc: Global, digits: &str) -> Result<Vec<u8>> {
    if digits == "-" {
        return Ok(Vec::new(alloc));
    }
    Ok(hex::decode(alloc, digits)?)
}

/// The elements of a list.
pub fn elements(alloc: Global, list: &str) -> Result<Vec<Element>> {
    let mut elements = Vec::new(alloc);
    if list == "none" {
        return Ok(elements);
    }
    for digits in list.split(',') {
        elements.push(element(alloc, digits)?)?;
    }
    Ok(elements)
}

fn element(alloc: Global, digits: &str) -> Result<Element> {
    let bytes = bytes(alloc, digits)?;
    if bytes.len() > MAX_ELEMENT_LEN {
        bail!("an element has more than {MAX_ELEMENT_LEN} bytes");
    }
    Ok(copy_of(&bytes))
}

/// The line that says why no spend is made; without a cause memory ran out.
pub fn stop_text(alloc: Global, stop: Option<InputStop>) -> Result<String> {
    let Some(stop) = stop else {
        bail!("out of memory");
    };
    let Ok(text) = input_text(alloc, stop) else {
        bail!("out of memory");
    };
    Ok(String::from_utf8(text)?)
}
