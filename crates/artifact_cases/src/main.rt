//! Reads artifacts from its standard input, and prints what each holds, or its first fault.
//!
//! A case is a line `KIND LENGTH`, so many bytes, and a line feed. The kinds are
//!
//! - `read`: prints the fault and what it tells, or what the artifact holds on one line: the contract's name, the types and
//!   names of the constructor's parameters, each function's in the same way, the code, the source, when it was compiled, and
//!   the spans.
//! - `again`: writes what was read, prints that text, and then what is read of it.
//!
//! Texts and elements stand in hexadecimal, none as `-`.
#![tactic(auto)]

mod shown;

use anyhow::{Context, Result, bail};
use artifact_json::{read, write};
use case_text::{block, line};
use std::alloc::Global;
use std::io::Read;

/// What the reader answers.
fn answer(alloc: Global, artifact: &[u8]) -> Result<String> {
    match read(alloc, artifact) {
        Ok(program) => shown::program(alloc, &program),
        Err(fault) => shown::fault(alloc, fault),
    }
}

/// The text that is written for what was read, and what is read of that.
fn answer_again(alloc: Global, artifact: &[u8]) -> Result<String> {
    let program = match read(alloc, artifact) {
        Ok(program) => program,
        Err(fault) => return shown::fault(alloc, fault),
    };
    let Ok(mut text) = write(alloc, &program) else {
        bail!("out of memory");
    };
    let answer = answer(alloc, text.as_bytes())?;
    text.push_str(answer.as_str())?;
    Ok(text)
}

/// Prints what is found of the first case, and answers the cases after it.
fn show<'a>(rt: &impl Print, alloc: Global, cases: &'a [u8]) -> Result<&'a [u8]> {
    let (head, after) = line(cases).context("a line")?;
    let (kind, tail) = str::from_utf8(head)?.split_once(' ').context("a kind")?;
    let len = tail.parse::<usize>()?;
    let (artifact, after) = block(after, len).context("so many bytes")?;
    let answer = match kind {
        "read" => answer(alloc, artifact)?,
        "again" => answer_again(alloc, artifact)?,
        _ => bail!("{kind} is no kind of case"),
    };
    println!(rt; "{answer}")?;
    Ok(after)
}

fn main(rt: HostRuntime) -> Result<()> {
    let mut input = Vec::new(rt.alloc());
    rt.reader().read_to_end(&mut input)?;
    let mut cases = input.as_slice();
    for _ in 0..u64::MAX {
        if cases.is_empty() {
            break;
        }
        cases = show(&rt, rt.alloc(), cases)?;
    }
    Ok(())
}
