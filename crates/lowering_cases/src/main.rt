//! Runs the slot code of sources beside their own runs, and prints how each run ends.
//!
//! `spend TEXT` reads a spend file. It holds the constructor's values, the arguments, the transaction and the verdicts of the
//! runs after it. A value is a number, a truth value, or bytes as `{"raw": HEX}`. Bytecodes that the file leaves open are
//! empty, and the active bytecode is 51.
//!
//! `run PLACE SOURCE` runs the function at this place of a source, counted from 0, with these values. After ` = ` stands how the
//! run of its slot code ends, `met`, or `failed` with the line and the column of the failure and its cause. Where the source's
//! run ends in another way, that follows after `, and its source`. Other lines are printed as they are.
#![tactic(auto)]

mod board;
mod lowered;
mod runs;
mod slots;

use anyhow::{Result, bail};
use runs::ending;
use spend_json::{SpendFile, read};
use std::alloc::Global;

/// The line in two, its first word and the rest.
fn cut(line: &str) -> (&str, &str) {
    line.split_once(' ').unwrap_or((line, ""))
}

/// The spend file of a text.
fn spend_of(alloc: Global, text: &str) -> Result<SpendFile> {
    match read(alloc, text.as_bytes()) {
        Ok(file) => Ok(file),
        Err(fault) => bail!("{fault:?}"),
    }
}

/// What a line gives, or `None` where it is no case.
fn answer(alloc: Global, spend: &mut SpendFile, line: &str) -> Result<Option<String>> {
    let (call, rest) = cut(line);
    match call {
        "spend" => {
            *spend = spend_of(alloc, rest)?;
            Ok(None)
        }
        "run" => {
            let (place, source) = cut(rest);
            let Ok(place) = place.parse::<usize>() else {
                bail!("a place is needed");
            };
            Ok(Some(ending(alloc, spend, place, source)?))
        }
        _ => Ok(None),
    }
}

fn main(rt: HostRuntime) -> Result<()> {
    let mut spend = spend_of(rt.alloc(), "{}")?;
    for line in rt.lines(rt.alloc()) {
        let line = line?;
        let line = line.as_str();
        match answer(rt.alloc(), &mut spend, line)? {
            Some(answer) => println!(rt; "{line} = {answer}")?,
            None => println!(rt; "{line}")?,
        }
    }
    Ok(())
}
