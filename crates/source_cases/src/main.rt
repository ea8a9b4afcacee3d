//! Reads sources from its standard input, and prints what is found of each.
//!
//! A case is a line `KIND LENGTH`, so many bytes, and a line feed. The kinds are
//!
//! - `source`: prints `accepted` where the source is well typed, or the line that refuses it; a `Syntax` without its place.
//! - `tree`: prints the tree with its spans, or the fault of the parser.
//! - `names`: prints the slots of the names in text order, those of the constructor and of each function after a bar, or the
//!   fault of the names.
//! - `types`: prints `typed`, or where the fault of the types begins and ends, its name, and what it tells.
//!
//! A line `cast TO FROM` prints what a cast does, or `-` where there is none, and after a `+` what it does with a size, where
//! it may have one.
#![tactic(auto)]

mod judged;
mod names;
mod tree;
mod types;

use anyhow::{Context, Result, bail};
use case_text::{block, line};
use std::alloc::Global;
use std::io::Read;

/// What is printed of a source.
fn answer(alloc: Global, kind: &str, source: &[u8]) -> Result<String> {
    match kind {
        "source" => judged::answer(alloc, source),
        "tree" => tree::answer(alloc, source),
        "names" => names::answer(alloc, source),
        "types" => types::answer(alloc, source),
        _ => bail!("{kind} is no kind of case"),
    }
}

/// Prints what is found of the first case, and answers the cases after it.
fn show<'a>(rt: &impl Print, alloc: Global, cases: &'a [u8]) -> Result<&'a [u8]> {
    let (head, after) = line(cases).context("a line")?;
    let (kind, tail) = str::from_utf8(head)?.split_once(' ').context("a kind")?;
    if kind == "cast" {
        let (to, from) = tail.split_once(' ').context("two types")?;
        let answer = types::cast_answer(alloc, to, from)?;
        println!(rt; "{answer}")?;
        return Ok(after);
    }
    let len = tail.parse::<usize>()?;
    let (source, after) = block(after, len).context("so many bytes")?;
    let answer = answer(alloc, kind, source)?;
    println!(rt; "{answer}")?;
    Ok(after)
}

fn main(rt: HostRuntime) -> Result<()> {
    let mut input = Vec::new(rt.alloc());
    rt.reader().read_to_end(&mut input)?;
    let mut cases = input.as_slice();
    for _ in 0..u64::MAX {
        if cases.is_empty() {
            break;
        }
        cases = show(&rt, rt.alloc(), cases)?;
    }
    Ok(())
}
