//! Makes calls of the whole program over files in memory, and prints the status and what is written, one line a call.
//!
//! A case is a line `call WORD ..` and then, in any order, its files, each a line `file NAME LENGTH`, so many bytes and a line
//! feed; lines `failing store NUMBER ..`, `failing out NUMBER ..` and `failing err NUMBER ..`, with the numbers of the calls
//! that fail, counted from 0; a line `sure`, by which the store and the sinks are those that never fail and show nothing; and a
//! line `brief`. A line `end` ends it.
//!
//! After the status stand `out` and what was written there, and `err` and what was written there, each only where something
//! was. A line feed is printed as `~`, and what hangs on the emitted code as `..`. Of a `brief` call only the last line of what is
//! written stands there, and behind one that `spend` wrote to `out` the first 16 hexadecimal digits of the SHA-256 of all of it.
#![tactic(auto)]

mod call;
mod shown;

use anyhow::{Context, Result};
use call::{Call, Failing, read};
use cash_base::{MemorySink, MemoryStore, SureSink, SureStore};
use cashc::top_call::cashc;
use std::alloc::Global;
use std::io::Read;

/// Whether an artifact is spent, so that nothing hangs on emitted code.
fn is_spend(words: &[String]) -> bool {
    match words {
        [command, ..] => command.as_str() == "spend",
        [] => false,
    }
}

/// The status of a call whose outside never fails.
fn sure_answer(alloc: Global, call: Call) -> Result<String> {
    let words = call.words;
    let mut store = SureStore::new(call.files);
    let mut out = SureSink::new();
    let mut err = SureSink::new();
    let status = cashc(alloc, words.as_slice(), &mut store, &mut out, &mut err);
    Ok(format!(in alloc; "{status}")?)
}

/// The status of a call, and what it writes.
fn answer(alloc: Global, call: Call) -> Result<String> {
    let Call {
        words,
        files,
        failing,
        sure: _,
        brief,
    } = call;
    let Failing { store, out, err } = failing;
    let mut store = MemoryStore::new(files, store);
    let mut out = MemorySink::new(alloc, out).ok().context("memory")?;
    let mut err = MemorySink::new(alloc, err).ok().context("memory")?;
    let status = cashc(alloc, words.as_slice(), &mut store, &mut out, &mut err);
    let mut text = format!(in alloc; "{status}")?;
    if brief {
        let exact = is_spend(words.as_slice());
        shown::show_last(&mut text, exact, out.bytes())?;
        if exact {
            shown::show_digest(alloc, &mut text, out.bytes())?;
        }
        shown::show_last(&mut text, exact, err.bytes())?;
    } else {
        shown::show_written(alloc, &mut text, "out", out.bytes())?;
        shown::show_written(alloc, &mut text, "err", err.bytes())?;
    }
    Ok(text)
}

/// Prints what the first call does, and answers the cases after it.
fn show<'a>(rt: &impl Print, alloc: Global, cases: &'a [u8]) -> Result<&'a [u8]> {
    let mut call = Call::new(alloc);
    let after = read(alloc, cases, &mut call)?;
    let sure = call.sure;
    let answer = if sure {
        sure_answer(alloc, call)?
    } else {
        answer(alloc, call)?
    };
    println!(rt; "{answer}")?;
    Ok(after)
}

fn main(rt: HostRuntime) -> Result<()> {
    let mut input = Vec::new(rt.alloc());
    rt.reader().read_to_end(&mut input)?;
    let mut cases = input.as_slice();
    for _ in 0..u64::MAX {
        if cases.is_empty() {
            break;
        }
        cases = show(&rt, rt.alloc(), cases)?;
    }
    Ok(())
}
