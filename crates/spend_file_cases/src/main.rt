//! Reads cases of spend files, one on each line, and prints of each what the reader answers.
//!
//! `try TEXT` reads a text. A longer file is built by `add TEXT`, `many COUNT TEXT` for so many copies, and `bytes HEX`, and
//! is read by `read`. After ` = ` stands the answer: the fault and its field, or all that the file holds. Bytes stand in
//! hexadecimal, none as `-`; a list of more than 20 items as their number. Other lines are printed as they are.
#![tactic(auto)]

mod shown;

use anyhow::{Result, bail};
use spend_json::read;
use std::alloc::Global;

/// The line in two, its first word and the rest.
fn cut(line: &str) -> (&str, &str) {
    line.split_once(' ').unwrap_or((line, ""))
}

/// Adds to a text so many copies of a piece.
fn add(text: &mut Vec<u8>, count: u32, piece: &[u8]) -> Result<()> {
    for _ in 0..count {
        text.extend_from_slice(piece)?;
    }
    Ok(())
}

/// What the reader answers on a file.
fn answer(alloc: Global, bytes: &[u8]) -> Result<String> {
    match read(alloc, bytes) {
        Ok(file) => shown::file(alloc, &file),
        Err(fault) => shown::fault(alloc, fault),
    }
}

/// What a line gives, or `None` where it is no case.
fn answered(alloc: Global, text: &mut Vec<u8>, line: &str) -> Result<Option<String>> {
    let (call, rest) = cut(line);
    match call {
        "try" => Ok(Some(answer(alloc, rest.as_bytes())?)),
        "read" => {
            let answer = answer(alloc, text.as_slice())?;
            text.clear();
            Ok(Some(answer))
        }
        "add" => {
            add(text, 1, rest.as_bytes())?;
            Ok(None)
        }
        "many" => {
            let (count, piece) = cut(rest);
            let Ok(count) = count.parse::<u32>() else {
                bail!("a count is needed");
            };
            add(text, count, piece.as_bytes())?;
            Ok(None)
        }
        "bytes" => {
            let bytes = hex::decode(alloc, rest)?;
            add(text, 1, bytes.as_slice())?;
            Ok(None)
        }
        _ => Ok(None),
    }
}

fn main(rt: HostRuntime) -> Result<()> {
    let mut text = Vec::new(rt.alloc());
    for line in rt.lines(rt.alloc()) {
        let line = line?;
        let line = line.as_str();
        match answered(rt.alloc(), &mut text, line)? {
            Some(answer) => println!(rt; "{line} = {answer}")?,
            None => println!(rt; "{line}")?,
        }
    }
    Ok(())
}
