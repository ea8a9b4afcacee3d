//! Scripts: their instructions, one at a time, and their counted opcodes.

ghost use Rattle.std.specs.Prelude.{◌≤◌, length};

use crate::words;
use crate::words::{bytes, word};
use anyhow::{Result, ensure};
use cash_base::MAX_ELEMENT_LEN;
use script_codec::{CodecFault, Instr, Opcode, counted, encode, next_instr, weight};
use std::alloc::Global;

/// The longest script that is read.
const LONGEST: usize = 10_000;

/// What stands at a place of a script; of a push that is cut off, with the place where it begins.
#[derive(Clone, Copy, Debug, PartialEq, Eq)]
enum Found {
    Instruction,
    End,
    CutOff(u32),
}

/// What a call of these gives, or `None` where it is none of them.
pub fn answer(alloc: Global, call: &str, a: &str, b: &str) -> Result<Option<String>> {
    Ok(Some(match call {
        "encode" => {
            if b.is_empty() {
                push(alloc, a)?
            } else {
                push_then(alloc, a, b)?
            }
        }
        "next_instr" => {
            let script = bytes(alloc, a)?;
            read(alloc, script.as_slice(), b.parse::<usize>()?)?
        }
        "pushed" => {
            let script = bytes(alloc, a)?;
            pushed(alloc, script.as_slice(), b.parse::<usize>()?)?
        }
        "fronts" => {
            let script = bytes(alloc, a)?;
            fronts(alloc, script.as_slice(), b.parse::<usize>()?)?
        }
        "meaning" => {
            let script = bytes(alloc, a)?;
            meaning(alloc, script.as_slice())?
        }
        "counted" => {
            let script = bytes(alloc, a)?;
            ensure!(script.len() <= LONGEST, "the script is too long");
            let count = counted(script.as_slice());
            format!(in alloc; "{count}")?
        }
        "weight" => {
            let opcode = u8::from_str_radix(a, 16)?;
            let weight = weight(opcode);
            format!(in alloc; "{weight}")?
        }
        _ => return Ok(None),
    }))
}

/// The spelling of a push.
fn push(alloc: Global, element: &str) -> Result<String> {
    let code = [Instr::Push(words::element(alloc, element)?)];
    let bytes = encode(alloc, &code)?;
    word(alloc, bytes.as_slice())
}

/// The spelling of a push, and of an opcode after it.
fn push_then(alloc: Global, element: &str, opcode: &str) -> Result<String> {
    let opcode = u8::from_str_radix(opcode, 16)?;
    ensure!(opcode > 0x60, "a push has no spelling as an opcode");
    let element = words::element(alloc, element)?;
    let code = [Instr::Push(element), Instr::Do(Opcode(opcode))];
    let bytes = encode(alloc, &code)?;
    word(alloc, bytes.as_slice())
}

/// The instruction at a place: its opcode, the places of what it pushes, and the place after it.
fn read(alloc: Global, script: &[u8], at: usize) -> Result<String> {
    ensure!(script.len() <= LONGEST, "the script is too long");
    ensure!(at <= script.len(), "the script is shorter");
    Ok(match next_instr(script, at) {
        Ok(Some((instr, next))) => {
            let (opcode, from, to) = (instr.opcode, instr.from, instr.to);
            format!(in alloc; "{opcode:02x} pushes {from} to {to}, then {next}")?
        }
        Ok(None) => String::from_str(alloc, "end")?,
        Err(CodecFault { at }) => format!(in alloc; "!CutOff {at}")?,
    })
}

/// The bytes of the script that the instruction at a place pushes.
fn pushed(alloc: Global, script: &[u8], at: usize) -> Result<String> {
    ensure!(script.len() <= LONGEST, "the script is too long");
    ensure!(at <= script.len(), "the script is shorter");
    match next_instr(script, at) {
        Ok(Some((instr, _))) => word(alloc, instr.pushed(script)),
        _ => Ok(String::from_str(alloc, "nothing")?),
    }
}

/// What stands at a place of each front of a script that reaches it, where that differs from the front before: the length of
/// the front, and what stands there.
fn fronts(alloc: Global, script: &[u8], at: usize) -> Result<String> {
    ensure!(script.len() <= LONGEST, "the script is too long");
    ensure!(at <= script.len(), "the script is shorter");
    let mut text = String::new(alloc);
    let mut before = None;
    for len in at..=script.len() {
        let found = standing(&script[..len], at);
        if before != Some(found) {
            write!(text, "{len} {found:?}, ")?;
            before = Some(found);
        }
    }
    text.push_str("no more")?;
    Ok(text)
}

/// What stands at a place of a script.
fn standing(script: &[u8], at: usize) -> Found
    requires within { at ≤ length script.now }
    requires size { length script.now ≤ 10000 }
{
    match next_instr(script, at) {
        Ok(Some(_)) => Found::Instruction,
        Ok(None) => Found::End,
        Err(fault) => Found::CutOff(fault.at),
    }
}

/// What the first instruction of a script stands for, and of a push whether it is minimal.
fn meaning(alloc: Global, script: &[u8]) -> Result<String> {
    ensure!(script.len() <= MAX_ELEMENT_LEN, "the script is too long");
    let Ok(Some((instr, _))) = next_instr(script, 0) else {
        return Ok(String::from_str(alloc, "nothing")?);
    };
    let spelling = if instr.is_minimal(script) {
        "minimal"
    } else {
        "not minimal"
    };
    Ok(match instr.meaning(script) {
        Instr::Push(element) => {
            let pushed = word(alloc, element.as_slice())?;
            format!(in alloc; "push {pushed}, {spelling}")?
        }
        Instr::Do(Opcode(opcode)) => format!(in alloc; "do {opcode:02x}, {spelling}")?,
    })
}
