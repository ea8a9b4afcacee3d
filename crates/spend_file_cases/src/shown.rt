//! What a spend file holds, as text.

use anyhow::Result;
use cash_base::TypedValue;
use spend_json::{Choice, SpendFault, SpendFile};
use std::alloc::Global;
use tx_context::{Bytecode, Frame, Input, Output, VerdictRow, Verdicts};

/// A list of more items than these is shown as their number.
const MOST_SHOWN: usize = 20;

/// A fault, and its field.
pub fn fault(alloc: Global, fault: SpendFault) -> Result<String> {
    match fault {
        SpendFault::Missing { field } => Ok(format!(in alloc; "Missing {field}")?),
        SpendFault::WrongKind { field } => Ok(format!(in alloc; "WrongKind {field}")?),
        SpendFault::TooMany { field } => Ok(format!(in alloc; "TooMany {field}")?),
        SpendFault::BadHex { field } => Ok(format!(in alloc; "BadHex {field}")?),
        SpendFault::Range { field } => Ok(format!(in alloc; "Range {field}")?),
        SpendFault::Frame(fault) => Ok(format!(in alloc; "{fault:?}")?),
        SpendFault::Table(fault) => Ok(format!(in alloc; "{fault:?} of the verdicts")?),
        SpendFault::NotJson => Ok(String::from_str(alloc, "NotJson")?),
        SpendFault::Memory => Ok(String::from_str(alloc, "Memory")?),
    }
}

/// All that a file holds: the constructor's values, the call or the pushes, the transaction and the verdicts.
pub fn file(alloc: Global, file: &SpendFile) -> Result<String> {
    let ctor = values(alloc, file.ctor.as_slice())?;
    let choice = choice(alloc, &file.choice)?;
    let frame = frame(alloc, &file.frame)?;
    let verdicts = verdicts(alloc, &file.verdicts)?;
    Ok(format!(in alloc; "[{ctor}] {choice}; {frame}; {verdicts}")?)
}

fn word(alloc: Global, bytes: &[u8]) -> Result<String> {
    if bytes.is_empty() {
        return Ok(String::from_str(alloc, "-")?);
    }
    Ok(hex::encode(alloc, bytes)?)
}

fn value(alloc: Global, value: &TypedValue) -> Result<String> {
    match value {
        TypedValue::Int(number) => Ok(format!(in alloc; "{number}")?),
        TypedValue::Bool(truth) => Ok(format!(in alloc; "{truth}")?),
        TypedValue::Text(text) => Ok(format!(in alloc; "'{text}'")?),
        TypedValue::Raw(element) => {
            let word = word(alloc, element.as_slice())?;
            Ok(format!(in alloc; "raw {word}")?)
        }
    }
}

/// Adds an item to a list of them.
fn add(text: &mut String, item: &str) -> Result<()> {
    if !text.is_empty() {
        text.push_str(", ")?;
    }
    text.push_str(item)?;
    Ok(())
}

fn values(alloc: Global, values: &[TypedValue]) -> Result<String> {
    let mut text = String::new(alloc);
    for item in values {
        let item = value(alloc, item)?;
        add(&mut text, item.as_str())?;
    }
    Ok(text)
}

fn choice(alloc: Global, choice: &Choice) -> Result<String> {
    match choice {
        Choice::Call { function, args } => {
            let args = values(alloc, args.as_slice())?;
            match function {
                Some(name) => Ok(format!(in alloc; "call '{name}' [{args}]")?),
                None => Ok(format!(in alloc; "call [{args}]")?),
            }
        }
        Choice::Pushes(elements) => {
            let count = elements.len();
            if count > MOST_SHOWN {
                return Ok(format!(in alloc; "{count} pushes")?);
            }
            let mut text = String::new(alloc);
            for element in elements.iter() {
                let item = word(alloc, element.as_slice())?;
                add(&mut text, item.as_str())?;
            }
            Ok(format!(in alloc; "pushes [{text}]")?)
        }
    }
}

fn locking(alloc: Global, bytecode: &Bytecode) -> Result<String> {
    match bytecode {
        Bytecode::Own => Ok(String::from_str(alloc, "self")?),
        Bytecode::Given(bytes) => word(alloc, bytes.as_slice()),
    }
}

fn input(alloc: Global, input: &Input) -> Result<String> {
    let hash = word(alloc, &input.hash)?;
    let locking = locking(alloc, &input.locking)?;
    let unlocking = word(alloc, input.unlocking.as_slice())?;
    let (index, sequence, value) = (input.index, input.sequence, input.value);
    Ok(format!(in alloc; "{hash} {index} {sequence} {value} {locking} {unlocking}")?)
}

fn inputs(alloc: Global, inputs: &[Input]) -> Result<String> {
    let count = inputs.len();
    if count > MOST_SHOWN {
        return Ok(format!(in alloc; "{count} inputs")?);
    }
    let mut text = String::new(alloc);
    for item in inputs {
        let item = input(alloc, item)?;
        add(&mut text, item.as_str())?;
    }
    Ok(text)
}

fn output(alloc: Global, output: &Output) -> Result<String> {
    let locking = locking(alloc, &output.locking)?;
    let value = output.value;
    Ok(format!(in alloc; "{value} {locking}")?)
}

fn outputs(alloc: Global, outputs: &[Output]) -> Result<String> {
    let count = outputs.len();
    if count > MOST_SHOWN {
        return Ok(format!(in alloc; "{count} outputs")?);
    }
    let mut text = String::new(alloc);
    for item in outputs {
        let item = output(alloc, item)?;
        add(&mut text, item.as_str())?;
    }
    Ok(text)
}

fn frame(alloc: Global, frame: &Frame) -> Result<String> {
    let (version, locktime, active) = (frame.version(), frame.locktime(), frame.active());
    let inputs = inputs(alloc, frame.inputs())?;
    let outputs = outputs(alloc, frame.outputs())?;
    Ok(format!(in alloc; "{version} {locktime} [{inputs}] [{outputs}] {active}")?)
}

fn row(alloc: Global, row: &VerdictRow) -> Result<String> {
    let sig = word(alloc, row.sig.as_slice())?;
    let key = word(alloc, row.key.as_slice())?;
    let message = word(alloc, row.message.as_slice())?;
    let (kind, answer) = (row.kind, row.answer);
    Ok(format!(in alloc; "{kind:?} {sig} {key} {message} {answer:?}")?)
}

fn verdicts(alloc: Global, verdicts: &Verdicts) -> Result<String> {
    let rows = verdicts.rows();
    let count = rows.len();
    if count > MOST_SHOWN {
        return Ok(format!(in alloc; "{count} verdicts")?);
    }
    let mut text = String::new(alloc);
    for item in rows {
        let item = row(alloc, item)?;
        add(&mut text, item.as_str())?;
    }
    Ok(format!(in alloc; "[{text}]")?)
}
