//! Reads cases of the lowest crates' calls, one on each line, and prints of each what the call answers.
//!
//! A line is a call and its operands. Bytes stand in hexadecimal: `-` is none of them, `5a*520` those of `5a` 520 times, and
//! `+` joins such pieces. After ` = ` stand the bytes of the answer, its value, or `!` and the cause. Empty lines, and those
//! that begin with `#`, are printed as they are.
#![tactic(auto)]

mod numbers;
mod operations;
mod scripts;
mod words;

use anyhow::{Result, bail};
use std::alloc::Global;

/// What a case gives.
fn answer(alloc: Global, case: &str) -> Result<String> {
    let mut words = case.split_whitespace();
    let call = words.next().unwrap_or("");
    let a = words.next().unwrap_or("");
    let b = words.next().unwrap_or("");
    let c = words.next().unwrap_or("");
    if let Some(text) = operations::answer(alloc, call, a, b, c)? {
        return Ok(text);
    }
    if let Some(text) = numbers::answer(alloc, call, a, b, c)? {
        return Ok(text);
    }
    if let Some(text) = scripts::answer(alloc, call, a, b)? {
        return Ok(text);
    }
    bail!("there is no call {call}")
}

fn main(rt: HostRuntime) -> Result<()> {
    for line in rt.lines(rt.alloc()) {
        let line = line?;
        let case = line.as_str();
        if case.is_empty() || case.starts_with('#') {
            println!(rt; "{case}")?;
        } else {
            let answer = answer(rt.alloc(), case)?;
            println!(rt; "{case} = {answer}")?;
        }
    }
    Ok(())
}
