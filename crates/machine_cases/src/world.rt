//! Transactions and tables of verdicts, as lines spell them.

use crate::text::{bytes, split};
use anyhow::{Result, bail};
use hex::FromHex;
use std::alloc::Global;
use tx_context::{
    Answer, Bytecode, Context, Frame, Input, Kind, Output, VerdictRow, Verdicts, fill,
};

/// The most inputs, outputs and verdicts that are read.
const MOST: usize = 10_000;

/// The longest script of a spend.
const LONGEST: usize = 20_000;

/// A transaction in which the locking bytecode of the spend is left open, and its table of verdicts.
#[derive(Drop)]
pub struct World {
    pub frame: Frame,
    pub verdicts: Verdicts,
}

impl World {
    /// The transaction of the spend by these scripts.
    pub fn context(&self, alloc: Global, unlocking: &[u8], locking: &[u8]) -> Result<Context> {
        if unlocking.len() > LONGEST || locking.len() > LONGEST {
            bail!("a script has more than {LONGEST} bytes");
        }
        match fill(alloc, &self.frame, locking, unlocking) {
            Ok(context) => Ok(context),
            Err(_) => bail!("out of memory"),
        }
    }
}

fn bytecode(alloc: Global, word: &str) -> Result<Bytecode> {
    if word == "self" {
        return Ok(Bytecode::Own);
    }
    Ok(Bytecode::Given(bytes(alloc, word)?))
}

fn input(alloc: Global, text: &str) -> Result<Input> {
    let (hash, rest) = split(text);
    let (index, rest) = split(rest);
    let (sequence, rest) = split(rest);
    let (value, rest) = split(rest);
    let (locking, unlocking) = split(rest);
    Ok(Input {
        hash: <[u8; 32] as FromHex>::from_hex(hash)?,
        index: index.parse::<u32>()?,
        sequence: sequence.parse::<u32>()?,
        value: value.parse::<u64>()?,
        locking: bytecode(alloc, locking)?,
        unlocking: bytes(alloc, unlocking)?,
    })
}

fn output(alloc: Global, text: &str) -> Result<Output> {
    let (value, locking) = split(text);
    Ok(Output {
        value: value.parse::<u64>()?,
        locking: bytecode(alloc, locking)?,
    })
}

fn verdict(alloc: Global, text: &str) -> Result<VerdictRow> {
    let (kind, rest) = split(text);
    let (answer, rest) = split(rest);
    let (sig, rest) = split(rest);
    let (key, message) = split(rest);
    Ok(VerdictRow {
        kind: kind_of(kind)?,
        sig: bytes(alloc, sig)?,
        key: bytes(alloc, key)?,
        message: bytes(alloc, message)?,
        answer: answer_of(answer)?,
    })
}

fn kind_of(word: &str) -> Result<Kind> {
    match word {
        "single" => Ok(Kind::Single),
        "multi" => Ok(Kind::Multi),
        "data" => Ok(Kind::DataSig),
        _ => bail!("{word} is no kind of a verdict"),
    }
}

fn answer_of(word: &str) -> Result<Answer> {
    match word {
        "good" => Ok(Answer::Good),
        "malformed" => Ok(Answer::Malformed),
        _ => bail!("{word} is no answer of a verdict"),
    }
}

/// The lines of a transaction in their kinds.
#[derive(Drop)]
struct Lines {
    numbers: [u32; 3],
    inputs: Vec<Input>,
    outputs: Vec<Output>,
    rows: Vec<VerdictRow>,
}

fn numbers_of(text: &str) -> Result<[u32; 3]> {
    let (version, rest) = split(text);
    let (locktime, active) = split(rest);
    Ok([
        version.parse::<u32>()?,
        locktime.parse::<u32>()?,
        active.parse::<u32>()?,
    ])
}

fn lines_of(alloc: Global, lines: &[String]) -> Result<Lines> {
    let mut read = Lines {
        numbers: [0; 3],
        inputs: Vec::new(alloc),
        outputs: Vec::new(alloc),
        rows: Vec::new(alloc),
    };
    for line in lines {
        let (word, rest) = split(line.as_str());
        match word {
            "frame" => read.numbers = numbers_of(rest)?,
            "input" => read.inputs.push(input(alloc, rest)?)?,
            "output" => read.outputs.push(output(alloc, rest)?)?,
            "verdict" => read.rows.push(verdict(alloc, rest)?)?,
            _ => bail!("{word} begins no line"),
        }
    }
    Ok(read)
}

/// The transaction of these lines, and its table.
pub fn world_of(alloc: Global, lines: &[String]) -> Result<World> {
    let Lines {
        numbers,
        inputs,
        outputs,
        rows,
    } = lines_of(alloc, lines)?;
    if inputs.len() > MOST || outputs.len() > MOST || rows.len() > MOST {
        bail!("a transaction has more than {MOST} lines of a kind");
    }
    let [version, locktime, active] = numbers;
    let frame = match Frame::new(version, locktime, inputs, outputs, active) {
        Ok(frame) => frame,
        Err(fault) => bail!("{fault}"),
    };
    let verdicts = match Verdicts::from_rows(alloc, rows) {
        Ok(verdicts) => verdicts,
        Err(fault) => bail!("{fault}"),
    };
    Ok(World { frame, verdicts })
}

/// A transaction of one input, of zeros and without bytecodes, and no verdict.
pub fn plain_world(alloc: Global) -> Result<World> {
    let zeros = "0000000000000000000000000000000000000000000000000000000000000000";
    let mut lines = Vec::new(alloc);
    lines.push(String::from_str(alloc, "frame 2 0 0")?)?;
    lines.push(format!(in alloc; "input {zeros} 0 0 0 - -")?)?;
    world_of(alloc, &lines)
}
