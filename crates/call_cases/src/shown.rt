//! What is printed of what a call writes.

use anyhow::{Context, Result};
use artifact_json::types::spelling;
use artifact_json::{AbiInput, Program};
use sha2::{Digest, Sha256};
use std::alloc::{AllocError, Global};

/// Whether a word is bytes in hexadecimal.
fn is_hex(word: &str) -> bool {
    let even = word.len() % 2 == 0;
    even && word
        .bytes()
        .all(|b| b.is_ascii_digit() || (b'a'..=b'f').contains(&b))
}

/// What stands before the last so many bytes of a word, which push the redeem script.
fn before_push<'w>(word: &'w str, redeem: &str) -> Option<&'w str> {
    let front = word.strip_suffix(redeem)?;
    let (front, size) = front.split_at_checked(front.len().checked_sub(2)?)?;
    let size = usize::from_str_radix(size, 16).ok()?;
    if size != redeem.len() / 2 {
        return None;
    }
    Some(front)
}

/// Prints a line; in place of the code, of the script that it becomes, of that script's hash and of all that is told of an instruction
/// in it stands `..`.
fn show_line(text: &mut String, line: &str, redeem: &str) -> Result<(), AllocError> {
    let (name, word) = line.split_once(' ').unwrap_or((line, ""));
    match name {
        "redeem" => write!(text, "{name} .."),
        "unlocking" => match before_push(word, redeem) {
            Some(front) => write!(text, "{name} {front}.."),
            None => text.push_str(line),
        },
        "locking" if is_hash_script(word) => write!(text, "{name} a914..87"),
        "refused" => show_refusal(text, line),
        _ => text.push_str(line),
    }
}

/// Prints a refusal; in place of the index of an instruction, and of a number over the limit, stands `..`.
fn show_refusal(text: &mut String, line: &str) -> Result<(), AllocError> {
    if let Some((front, _index)) = line.split_once(" opcode ") {
        return write!(text, "{front} opcode ..");
    }
    if is_over(line, "refused CodeTooLong ", 520) {
        return text.push_str("refused CodeTooLong ..");
    }
    if is_over(line, "refused TooManyOps ", 201) {
        return text.push_str("refused TooManyOps ..");
    }
    text.push_str(line)
}

/// Whether a line has this beginning, and then a number over the limit.
fn is_over(line: &str, front: &str, limit: u32) -> bool {
    match line.strip_prefix(front) {
        Some(number) => match number.parse::<u32>() {
            Ok(number) => number > limit,
            Err(_) => false,
        },
        None => false,
    }
}

/// Whether these are bytes of a script that wants the script with some hash.
fn is_hash_script(word: &str) -> bool {
    is_hex(word) && word.len() == 46 && word.starts_with("a914") && word.ends_with("87")
}

/// Whether a line of a trace is that of an instruction of the redeem script.
fn is_redeem_row(line: &str) -> bool {
    match line.strip_prefix("redeem ") {
        Some(tail) => tail.contains(' '),
        None => false,
    }
}

/// The redeem script that the first line shows.
fn redeem_of(written: &str) -> &str {
    let Some(tail) = written.strip_prefix("redeem ") else {
        return "";
    };
    match tail.split_once('\n') {
        Some((redeem, _after)) => redeem,
        None => "",
    }
}

/// The parameters of the constructor or of a function.
fn inputs_of(alloc: Global, inputs: &[AbiInput]) -> Result<String> {
    let mut text = String::new(alloc);
    for (at, input) in inputs.iter().enumerate() {
        if at > 0 {
            text.push_str(", ")?;
        }
        let ty = spelling(alloc, &input.ty)?;
        let name = input.name.as_str();
        write!(text, "{ty} {name}")?;
    }
    Ok(text)
}

/// Prints what doesn't hang on the emitted code of an artifact: its name, its parameters, when it was compiled, and its functions.
fn show_artifact(alloc: Global, text: &mut String, program: &Program) -> Result<()> {
    let name = program.name.as_str();
    let ctor = inputs_of(alloc, program.ctor.as_slice())?;
    let updated = program.updated.as_str();
    write!(text, "artifact {name} ({ctor}) of {updated}")?;
    for function in &program.abi {
        let name = function.name.as_str();
        let inputs = inputs_of(alloc, function.inputs.as_slice())?;
        write!(text, "; {name} ({inputs})")?;
    }
    text.push_str("~")?;
    Ok(())
}

/// Prints what was written to a sink, where anything was.
pub fn show_written(alloc: Global, text: &mut String, name: &str, written: &[u8]) -> Result<()> {
    if written.is_empty() {
        return Ok(());
    }
    if let Ok(program) = artifact_json::read(alloc, written) {
        write!(text, " {name} ")?;
        return show_artifact(alloc, text, &program);
    }
    let written = str::from_utf8(written)?;
    let redeem = redeem_of(written);
    write!(text, " {name} ")?;
    for line in written.split_inclusive('\n') {
        if is_redeem_row(line) {
            continue;
        }
        match line.strip_suffix('\n') {
            Some(line) => {
                show_line(text, line, redeem)?;
                text.push_str("~")?;
            }
            None => show_line(text, line, redeem)?,
        }
    }
    Ok(())
}

/// Prints the last line of what was written to a sink, where anything was, as it is or with `..` for what hangs on the emitted code.
pub fn show_last(text: &mut String, exact: bool, written: &[u8]) -> Result<()> {
    let written = str::from_utf8(written)?;
    if let Some(line) = written.lines().last() {
        text.push_str(" ")?;
        if exact {
            text.push_str(line)?;
        } else {
            show_line(text, line, "")?;
        }
    }
    Ok(())
}

/// Prints the first 16 hexadecimal digits of the SHA-256 of what was written to a sink, where anything was.
pub fn show_digest(alloc: Global, text: &mut String, written: &[u8]) -> Result<()> {
    if written.is_empty() {
        return Ok(());
    }
    let digest = hex::encode(alloc, &Sha256::digest(written))?;
    let front = digest.get(..16).context("16 digits")?;
    write!(text, " {front}")?;
    Ok(())
}
