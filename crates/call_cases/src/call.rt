//! The calls of a file of cases.

use anyhow::{Context, Result, bail};
use case_text::{block, line};
use std::alloc::Global;

/// The numbers of the calls of the store and of the sinks that fail.
#[derive(Drop)]
pub struct Failing {
    pub store: Vec<u32>,
    pub out: Vec<u32>,
    pub err: Vec<u32>,
}

/// A call: its words, its files, and what fails.
#[derive(Drop)]
pub struct Call {
    pub words: Vec<String>,
    pub files: Vec<(String, Vec<u8>)>,
    pub failing: Failing,
    pub sure: bool,
    pub brief: bool,
}

impl Call {
    /// A call without words, files and faults.
    pub fn new(alloc: Global) -> Call {
        let failing = Failing {
            store: Vec::new(alloc),
            out: Vec::new(alloc),
            err: Vec::new(alloc),
        };
        Call {
            words: Vec::new(alloc),
            files: Vec::new(alloc),
            failing,
            sure: false,
            brief: false,
        }
    }
}

/// Adds the words of a line.
fn add_words(alloc: Global, words: &mut Vec<String>, tail: &str) -> Result<()> {
    for word in tail.split_whitespace() {
        words.push(String::from_str(alloc, word)?)?;
    }
    Ok(())
}

/// Adds the numbers of a line.
fn add_numbers(numbers: &mut Vec<u32>, tail: &str) -> Result<()> {
    for word in tail.split_whitespace() {
        numbers.push(word.parse::<u32>()?)?;
    }
    Ok(())
}

/// Adds the calls that fail.
fn add_failing(failing: &mut Failing, tail: &str) -> Result<()> {
    let (name, numbers) = tail.split_once(' ').context("a name and numbers")?;
    match name {
        "store" => add_numbers(&mut failing.store, numbers),
        "out" => add_numbers(&mut failing.out, numbers),
        "err" => add_numbers(&mut failing.err, numbers),
        _ => bail!("{name} can't fail"),
    }
}

/// Adds a file, and answers what stands after it.
fn add_file<'a>(
    alloc: Global,
    files: &mut Vec<(String, Vec<u8>)>,
    tail: &str,
    cases: &'a [u8],
) -> Result<&'a [u8]> {
    let (name, len) = tail.split_once(' ').context("a name and a length")?;
    let len = len.parse::<usize>()?;
    let (bytes, after) = block(cases, len).context("so many bytes")?;
    files.push((
        String::from_str(alloc, name)?,
        Vec::from_slice(alloc, bytes)?,
    ))?;
    Ok(after)
}

/// Reads one line of a call with what belongs to it, and answers whether the call goes on, and what stands after it.
fn read_part<'a>(alloc: Global, cases: &'a [u8], call: &mut Call) -> Result<(bool, &'a [u8])> {
    let (head, after) = line(cases).context("a line")?;
    let head = str::from_utf8(head)?;
    let (kind, tail) = head.split_once(' ').unwrap_or((head, ""));
    match kind {
        "call" => add_words(alloc, &mut call.words, tail)?,
        "failing" => add_failing(&mut call.failing, tail)?,
        "sure" => call.sure = true,
        "brief" => call.brief = true,
        "file" => return Ok((true, add_file(alloc, &mut call.files, tail, after)?)),
        "end" => return Ok((false, after)),
        _ => bail!("{kind} is no line of a call"),
    }
    Ok((true, after))
}

/// Reads a call, and answers what stands after it.
pub fn read<'a>(alloc: Global, cases: &'a [u8], call: &mut Call) -> Result<&'a [u8]> {
    let mut rest = cases;
    for _ in 0..u64::MAX {
        let (more, after) = read_part(alloc, rest, call)?;
        rest = after;
        if !more {
            return Ok(rest);
        }
    }
    bail!("a call without an end")
}
