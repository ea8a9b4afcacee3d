//! Compiles sources, and prints how long the code of each is before and after the rewrite rules make it shorter.
//!
//! A line has the most bytes that the code may have, a name, and the source of a contract, with spaces between. What is printed
//! of it is the name, the numbers of bytes and of counted opcodes of the code as its functions' code is put together, and those
//! of the code that is compiled; and whether this is short enough.
#![tactic(auto)]

mod sizes;

use anyhow::{Context, Result, ensure};
use cash_compile::MAX_SOURCE_LEN;
use sizes::sizes_of;
use std::alloc::Global;

/// What is printed of a line.
fn answer(alloc: Global, line: &str) -> Result<String> {
    let (most, rest) = line
        .split_once(' ')
        .context("a number of bytes is missing")?;
    let (name, source) = rest.split_once(' ').context("a source is missing")?;
    let most = most.parse::<usize>()?;
    ensure!(source.len() <= MAX_SOURCE_LEN, "the source is too long");
    let sizes = sizes_of(alloc, source)?;
    let (before, after) = (sizes.before, sizes.after);
    let (first, last) = (before.bytes, after.bytes);
    let (counted, left) = (before.opcodes, after.opcodes);
    let verdict = if last <= most { "at most" } else { "more than" };
    Ok(format!(in alloc;
        "{name}: {first} bytes to {last}, {counted} opcodes to {left}, {verdict} {most} bytes"
    )?)
}

fn main(rt: HostRuntime) -> Result<()> {
    for line in rt.lines(rt.alloc()) {
        let line = line?;
        let answer = answer(rt.alloc(), line.as_str())?;
        println!(rt; "{answer}")?;
    }
    Ok(())
}
