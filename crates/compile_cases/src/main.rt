//! Compiles sources, and spends the code of each beside the run of its source in the world of that spend.
//!
//! A line has a spend file and a source, with a tab between them: the answer is how the run ends, `met`, or `failed` with the
//! line, the column and the cause, and how the machine judges the spend, `accepted`, or `refused` with the same three. Or it has
//! two arguments in hexadecimal, `-` for the empty one, and a source: the answer is `met` or `failed`, and `accepted` or `refused`.
//! Of a source that isn't compiled the name of the refusal is printed.
#![tactic(auto)]

mod spends;
mod told;

use anyhow::{Context, Result};
use std::alloc::Global;
use told::{told, told_briefly};

/// What is printed of a line.
fn answer(alloc: Global, line: &str) -> Result<String> {
    match line.split_once('\t') {
        Some((file, source)) => told(alloc, file, source),
        None => brief(alloc, line),
    }
}

/// What is printed of two arguments and a source.
fn brief(alloc: Global, line: &str) -> Result<String> {
    let (x, rest) = line.split_once(' ').context("an argument is missing")?;
    let (y, source) = rest.split_once(' ').context("a source is missing")?;
    let (x, y) = (digits_of(x), digits_of(y));
    let file = format!(in alloc; "{{\"arguments\":[{{\"raw\":\"{x}\"}},{{\"raw\":\"{y}\"}}]}}")?;
    told_briefly(alloc, file.as_str(), source)
}

/// The digits of an argument.
fn digits_of(word: &str) -> &str {
    if word == "-" { "" } else { word }
}

fn main(rt: HostRuntime) -> Result<()> {
    for line in rt.lines(rt.alloc()) {
        let line = line?;
        let answer = answer(rt.alloc(), line.as_str())?;
        println!(rt; "{answer}")?;
    }
    Ok(())
}
