//! How cases write bytes, code and texts.

use anyhow::{Result, bail, ensure};
use cash_base::element::copy_of;
use cash_base::{Element, MAX_ELEMENT_LEN};
use script_codec::{Instr, Opcode};
use std::alloc::Global;

/// A piece, and how often it stands.
fn repeated(piece: &str) -> Result<(&str, u32)> {
    match piece.split_once('*') {
        Some((piece, count)) => Ok((piece, count.parse::<u32>()?)),
        None => Ok((piece, 1)),
    }
}

/// The element that a word spells.
pub fn element(alloc: Global, word: &str) -> Result<Element> {
    ensure!(!word.is_empty(), "an operand is missing");
    let mut all = Vec::new(alloc);
    if word != "-" {
        let (digits, count) = repeated(word)?;
        let bytes = hex::decode(alloc, digits)?;
        for _ in 0..count {
            all.extend_from_slice(bytes.as_slice())?;
        }
    }
    ensure!(all.len() <= MAX_ELEMENT_LEN, "an element is too long");
    Ok(copy_of(all.as_slice()))
}

/// The code that an operand writes.
pub fn code(alloc: Global, operand: &str) -> Result<Vec<Instr>> {
    let mut code = Vec::new(alloc);
    if operand == "nothing" {
        return Ok(code);
    }
    for item in operand.split(", ") {
        code.push(instr(alloc, item)?)?;
    }
    Ok(code)
}

fn instr(alloc: Global, item: &str) -> Result<Instr> {
    match item.split_once(' ') {
        Some(("push", word)) => Ok(Instr::Push(element(alloc, word)?)),
        Some(("do", digits)) => Ok(Instr::Do(Opcode(u8::from_str_radix(digits, 16)?))),
        _ => bail!("{item} is no instruction"),
    }
}

/// How code is written.
pub fn code_text(alloc: Global, code: &[Instr]) -> Result<String> {
    if code.is_empty() {
        return Ok(String::from_str(alloc, "nothing")?);
    }
    let mut text = String::new(alloc);
    for instr in code {
        if !text.is_empty() {
            text.push_str(", ")?;
        }
        push_instr(alloc, &mut text, instr)?;
    }
    Ok(text)
}

fn push_instr(alloc: Global, text: &mut String, instr: &Instr) -> Result<()> {
    match instr {
        Instr::Push(element) => {
            text.push_str("push ")?;
            if element.is_empty() {
                text.push_str("-")?;
            } else {
                text.push_str(hex::encode(alloc, element.as_slice())?.as_str())?;
            }
        }
        Instr::Do(opcode) => {
            let opcode = opcode.0;
            write!(text, "do {opcode:02x}")?;
        }
    }
    Ok(())
}

/// The text that an operand writes.
pub fn text_of(alloc: Global, operand: &str) -> Result<String> {
    let mut text = String::new(alloc);
    for piece in operand.split('+') {
        match piece {
            "\\s" => text.push_str(" ")?,
            "\\t" => text.push_str("\t")?,
            "\\r" => text.push_str("\r")?,
            "\\n" => text.push_str("\n")?,
            "\\f" => text.push_str("\x0c")?,
            _ => {
                let (piece, count) = repeated(piece)?;
                for _ in 0..count {
                    text.push_str(piece)?;
                }
            }
        }
    }
    Ok(text)
}
