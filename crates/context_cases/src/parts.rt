//! The parts of a frame and of a table, and what is made of them.

use crate::words::{bytes, number, word};
use anyhow::{Result, bail, ensure};
use std::alloc::Global;
use std::mem;
use tx_context::{
    Answer, Bytecode, Context, Frame, FrameFault, Input, Kind, LONGEST_BYTECODE, Output,
    VerdictRow, Verdicts, fill, plain_input,
};

/// More parts than any case has.
const MANY: usize = 100_000;

/// The parts that were read since the frame began.
#[derive(Drop)]
pub struct Parts {
    version: u32,
    locktime: u32,
    active: u32,
    inputs: Vec<Input>,
    outputs: Vec<Output>,
    rows: Vec<VerdictRow>,
}

impl Parts {
    /// None yet.
    pub fn new(alloc: Global) -> Parts {
        Parts {
            version: 0,
            locktime: 0,
            active: 0,
            inputs: Vec::new(alloc),
            outputs: Vec::new(alloc),
            rows: Vec::new(alloc),
        }
    }
}

fn locking(alloc: Global, word: &str) -> Result<Bytecode> {
    if word == "self" {
        return Ok(Bytecode::Own);
    }
    Ok(Bytecode::Given(bytes(alloc, word)?))
}

fn hash(alloc: Global, word: &str) -> Result<[u8; 32]> {
    let bytes = bytes(alloc, word)?;
    let mut hash = [0; 32];
    ensure!(bytes.len() == 32, "a hash has 32 bytes");
    hash.copy_from_slice(bytes.as_slice());
    Ok(hash)
}

/// The kind of a name.
pub fn kind(word: &str) -> Result<Kind> {
    match word {
        "single" => Ok(Kind::Single),
        "multi" => Ok(Kind::Multi),
        "data" => Ok(Kind::DataSig),
        _ => bail!("there is no kind {word}"),
    }
}

fn answer(word: &str) -> Result<Answer> {
    match word {
        "good" => Ok(Answer::Good),
        "malformed" => Ok(Answer::Malformed),
        _ => bail!("there is no answer {word}"),
    }
}

fn input(alloc: Global, words: &[&str; 6]) -> Result<Input> {
    Ok(Input {
        hash: hash(alloc, words[0])?,
        index: number(words[1])?,
        sequence: number(words[2])?,
        value: words[3].parse::<u64>()?,
        locking: locking(alloc, words[4])?,
        unlocking: bytes(alloc, words[5])?,
    })
}

fn add_plain_inputs(alloc: Global, inputs: &mut Vec<Input>, words: &[&str; 6]) -> Result<()> {
    let count = number(words[0])?;
    let value = words[1].parse::<u64>()?;
    for _ in 0..count {
        let locking = locking(alloc, words[2])?;
        let unlocking = bytes(alloc, words[3])?;
        inputs.push(plain_input(value, locking, unlocking))?;
    }
    Ok(())
}

fn output(alloc: Global, words: &[&str; 6]) -> Result<Output> {
    Ok(Output {
        value: words[0].parse::<u64>()?,
        locking: locking(alloc, words[1])?,
    })
}

fn add_outputs(alloc: Global, outputs: &mut Vec<Output>, count: u32) -> Result<()> {
    for _ in 0..count {
        outputs.push(Output {
            value: 0,
            locking: Bytecode::Given(Vec::new(alloc)),
        })?;
    }
    Ok(())
}

fn row(alloc: Global, words: &[&str; 6]) -> Result<VerdictRow> {
    Ok(VerdictRow {
        kind: kind(words[0])?,
        sig: bytes(alloc, words[2])?,
        key: bytes(alloc, words[3])?,
        message: bytes(alloc, words[4])?,
        answer: answer(words[1])?,
    })
}

fn add_rows(alloc: Global, rows: &mut Vec<VerdictRow>, count: u32) -> Result<()> {
    for sig in 0..count {
        rows.push(VerdictRow {
            kind: Kind::Single,
            sig: Vec::from_slice(alloc, &sig.to_le_bytes())?,
            key: Vec::new(alloc),
            message: Vec::new(alloc),
            answer: Answer::Good,
        })?;
    }
    Ok(())
}

/// Adds the parts of a line; false where it has none.
pub fn read(alloc: Global, parts: &mut Parts, call: &str, words: &[&str; 6]) -> Result<bool> {
    match call {
        "frame" => {
            parts.version = number(words[0])?;
            parts.locktime = number(words[1])?;
            parts.active = number(words[2])?;
            parts.inputs.clear();
            parts.outputs.clear();
            parts.rows.clear();
        }
        "input" => parts.inputs.push(input(alloc, words)?)?,
        "plain" => add_plain_inputs(alloc, &mut parts.inputs, words)?,
        "output" => parts.outputs.push(output(alloc, words)?)?,
        "outputs" => add_outputs(alloc, &mut parts.outputs, number(words[0])?)?,
        "verdict" => parts.rows.push(row(alloc, words)?)?,
        "verdicts" => add_rows(alloc, &mut parts.rows, number(words[0])?)?,
        _ => return Ok(false),
    }
    Ok(true)
}

/// Takes the parts of the frame.
fn frame(alloc: Global, parts: &mut Parts) -> Result<Result<Frame, FrameFault>> {
    let inputs = mem::replace(&mut parts.inputs, Vec::new(alloc));
    let outputs = mem::replace(&mut parts.outputs, Vec::new(alloc));
    ensure!(inputs.len() <= MANY, "there are too many inputs");
    ensure!(outputs.len() <= MANY, "there are too many outputs");
    Ok(Frame::new(parts.version, parts.locktime, inputs, outputs, parts.active))
}

/// The fault of the frame, or its five parts in short.
pub fn fault(alloc: Global, parts: &mut Parts) -> Result<String> {
    match frame(alloc, parts)? {
        Ok(frame) => {
            let (version, locktime, active) = (frame.version(), frame.locktime(), frame.active());
            let (inputs, outputs) = (frame.inputs().len(), frame.outputs().len());
            Ok(format!(in alloc; "{version} {locktime} {active}, {inputs} and {outputs}")?)
        }
        Err(fault) => Ok(format!(in alloc; "{fault:?}, {fault}")?),
    }
}

/// The context of the frame with these scripts, and what it shows.
pub fn filled(
    alloc: Global,
    parts: &mut Parts,
    locking: &str,
    unlocking: &str,
) -> Result<(Option<Context>, String)> {
    let locking = bytes(alloc, locking)?;
    let unlocking = bytes(alloc, unlocking)?;
    ensure!(locking.len() <= LONGEST_BYTECODE, "the script is too long");
    ensure!(
        unlocking.len() <= LONGEST_BYTECODE,
        "the script is too long"
    );
    match frame(alloc, parts)? {
        Ok(frame) => match fill(alloc, &frame, locking.as_slice(), unlocking.as_slice()) {
            Ok(context) => {
                let text = shown(alloc, &context)?;
                Ok((Some(context), text))
            }
            Err(_) => bail!("memory ran out"),
        },
        Err(fault) => Ok((None, format!(in alloc; "{fault:?}")?)),
    }
}

/// All that a context holds.
fn shown(alloc: Global, context: &Context) -> Result<String> {
    let mut text = String::new(alloc);
    let (version, locktime, active) = (context.version(), context.locktime(), context.active());
    write!(text, "{version} {locktime} {active}")?;
    for input in context.inputs() {
        let hash = word(alloc, &input.hash)?;
        let locking = word(alloc, input.locking.as_slice())?;
        let unlocking = word(alloc, input.unlocking.as_slice())?;
        let (index, sequence, value) = (input.index, input.sequence, input.value);
        write!(
            text,
            "; {hash} {index} {sequence} {value} {locking} {unlocking}"
        )?;
    }
    for output in context.outputs() {
        let locking = word(alloc, output.locking.as_slice())?;
        let value = output.value;
        write!(text, "; {value} {locking}")?;
    }
    Ok(text)
}

/// The table of the rows, and how many they are, or their fault.
pub fn table(alloc: Global, parts: &mut Parts) -> Result<(Option<Verdicts>, String)> {
    let rows = mem::replace(&mut parts.rows, Vec::new(alloc));
    ensure!(rows.len() <= MANY, "there are too many rows");
    match Verdicts::from_rows(alloc, rows) {
        Ok(verdicts) => {
            let count = verdicts.rows().len();
            Ok((Some(verdicts), format!(in alloc; "{count} rows")?))
        }
        Err(fault) => Ok((None, format!(in alloc; "{fault:?}, {fault}")?)),
    }
}
