//! Reads cases of assembly text and of the names of opcodes, one on each line, and prints of each what the call answers.
//!
//! A line is a call and its operand. `name` takes an opcode, `own` an element, `text` code, and `read` a text. Bytes stand in
//! hexadecimal: `-` is none of them, and `5a*520` those of `5a` 520 times. Code is its instructions, each `push` and an
//! element or `do` and an opcode, with a comma and a blank between two of them; `nothing` is no code. A text is its pieces
//! with `+` between two of them: `11*521` is `11` 521 times, and `\s`, `\t`, `\r`, `\n` and `\f` are a space, a tab, a
//! carriage return, a line feed and a form feed. After ` = ` stands the answer, or `!` and the fault. Empty lines, and those
//! that begin with `#`, are printed as they are.
#![tactic(auto)]

mod notation;

use anyhow::{Result, bail, ensure};
use asm_text::{AsmFault, asm_text, read_asm};
use notation::{code, code_text, element, text_of};
use script_codec::{are_named, opcode_name, own_opcode};
use std::alloc::Global;

/// What a case gives.
fn answer(alloc: Global, case: &str) -> Result<String> {
    let (call, operand) = case.split_once(' ').unwrap_or((case, ""));
    match call {
        "name" => name(alloc, operand),
        "own" => own(alloc, operand),
        "text" => text(alloc, operand),
        "read" => read(alloc, operand),
        _ => bail!("there is no call {call}"),
    }
}

/// The name of an opcode.
fn name(alloc: Global, operand: &str) -> Result<String> {
    let opcode = u8::from_str_radix(operand, 16)?;
    Ok(String::from_str(alloc, opcode_name(opcode).unwrap_or("none"))?)
}

/// The opcode of its own that an element has.
fn own(alloc: Global, operand: &str) -> Result<String> {
    let element = element(alloc, operand)?;
    match own_opcode(element.as_slice()) {
        Some(opcode) => Ok(format!(in alloc; "{opcode:02x}")?),
        None => Ok(String::from_str(alloc, "none")?),
    }
}

/// The text of some code.
fn text(alloc: Global, operand: &str) -> Result<String> {
    let code = code(alloc, operand)?;
    ensure!(
        are_named(code.as_slice()),
        "an opcode has no name, or is a push"
    );
    Ok(asm_text(alloc, code.as_slice())?)
}

/// The code of a text, or its fault.
fn read(alloc: Global, operand: &str) -> Result<String> {
    let text = text_of(alloc, operand)?;
    match read_asm(alloc, text.as_str()) {
        Ok(code) => code_text(alloc, code.as_slice()),
        Err(AsmFault::UnknownWord { word }) => Ok(format!(in alloc; "!UnknownWord {word}")?),
        Err(AsmFault::BadHex { word }) => Ok(format!(in alloc; "!BadHex {word}")?),
        Err(AsmFault::TooLong { word }) => Ok(format!(in alloc; "!TooLong {word}")?),
        Err(AsmFault::Memory) => bail!("out of memory"),
    }
}

fn main(rt: HostRuntime) -> Result<()> {
    for line in rt.lines(rt.alloc()) {
        let line = line?;
        let case = line.as_str();
        if case.is_empty() || case.starts_with('#') {
            println!(rt; "{case}")?;
        } else {
            let answer = answer(rt.alloc(), case)?;
            println!(rt; "{case} = {answer}")?;
        }
    }
    Ok(())
}
