//! What an artifact holds, as text.

use anyhow::Result;
use artifact_json::{AbiFunction, AbiInput, ArtifactFault, Program};
use script_codec::Instr;
use span_map::SpanRow;
use std::alloc::Global;

/// A fault, and what it tells.
pub fn fault(alloc: Global, fault: ArtifactFault) -> Result<String> {
    match fault {
        ArtifactFault::Missing { field } => Ok(format!(in alloc; "Missing {field}")?),
        ArtifactFault::WrongKind { field } => Ok(format!(in alloc; "WrongKind {field}")?),
        ArtifactFault::TooMany { field } => Ok(format!(in alloc; "TooMany {field}")?),
        ArtifactFault::BadAsm { word } => Ok(format!(in alloc; "BadAsm {word}")?),
        ArtifactFault::TooLong { bytes } => Ok(format!(in alloc; "TooLong {bytes}")?),
        ArtifactFault::SpanCount { rows, opcodes } => Ok(format!(in alloc;
            "SpanCount {rows} {opcodes}"
        )?),
        ArtifactFault::NotJson => Ok(String::from_str(alloc, "NotJson")?),
        ArtifactFault::Memory => Ok(String::from_str(alloc, "Memory")?),
    }
}

/// All that a program holds.
pub fn program(alloc: Global, program: &Program) -> Result<String> {
    let name = word(alloc, program.name.as_bytes())?;
    let ctor = inputs(alloc, program.ctor.as_slice())?;
    let functions = functions(alloc, program.abi.as_slice())?;
    let code = code(alloc, program.code.as_slice())?;
    let source = word(alloc, program.source.as_bytes())?;
    let updated = word(alloc, program.updated.as_bytes())?;
    let spans = spans(alloc, &program.spans)?;
    Ok(format!(in alloc; "{name} ({ctor}); {functions}; [{code}]; {source}; {updated}; {spans}")?)
}

fn word(alloc: Global, bytes: &[u8]) -> Result<String> {
    if bytes.is_empty() {
        return Ok(String::from_str(alloc, "-")?);
    }
    Ok(hex::encode(alloc, bytes)?)
}

/// Adds an item to a list of them.
fn add(text: &mut String, item: &str) -> Result<()> {
    if !text.is_empty() {
        text.push_str(", ")?;
    }
    text.push_str(item)?;
    Ok(())
}

fn input(alloc: Global, input: &AbiInput) -> Result<String> {
    let name = word(alloc, input.name.as_bytes())?;
    let ty = &input.ty;
    Ok(format!(in alloc; "{ty:?} {name}")?)
}

fn inputs(alloc: Global, inputs: &[AbiInput]) -> Result<String> {
    let mut text = String::new(alloc);
    for item in inputs {
        let item = input(alloc, item)?;
        add(&mut text, item.as_str())?;
    }
    Ok(text)
}

fn function(alloc: Global, function: &AbiFunction) -> Result<String> {
    let name = word(alloc, function.name.as_bytes())?;
    let inputs = inputs(alloc, function.inputs.as_slice())?;
    Ok(format!(in alloc; "{name} ({inputs})")?)
}

fn functions(alloc: Global, functions: &[AbiFunction]) -> Result<String> {
    let mut text = String::new(alloc);
    for item in functions {
        let item = function(alloc, item)?;
        add(&mut text, item.as_str())?;
    }
    Ok(text)
}

fn instr(alloc: Global, instr: &Instr) -> Result<String> {
    match instr {
        Instr::Push(element) => {
            let word = word(alloc, element.as_slice())?;
            Ok(format!(in alloc; "push {word}")?)
        }
        Instr::Do(opcode) => {
            let opcode = word(alloc, &[opcode.0])?;
            Ok(format!(in alloc; "do {opcode}")?)
        }
    }
}

fn code(alloc: Global, code: &[Instr]) -> Result<String> {
    let mut text = String::new(alloc);
    for item in code {
        let item = instr(alloc, item)?;
        add(&mut text, item.as_str())?;
    }
    Ok(text)
}

fn row(alloc: Global, row: &SpanRow) -> Result<String> {
    let (doing, checking) = (row.doing, row.checking);
    Ok(format!(in alloc;
        "{}-{} {}-{}",
        doing.from, doing.to, checking.from, checking.to
    )?)
}

fn spans(alloc: Global, spans: &Option<Vec<SpanRow>>) -> Result<String> {
    let Some(rows) = spans else {
        return Ok(String::from_str(alloc, "no spans")?);
    };
    let mut text = String::new(alloc);
    for item in rows.iter() {
        let item = row(alloc, item)?;
        add(&mut text, item.as_str())?;
    }
    Ok(format!(in alloc; "spans [{text}]")?)
}
