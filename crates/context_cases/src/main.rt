//! Reads cases of frames, contexts and tables of verdicts, one on each line, and prints of each what the call answers.
//!
//! `frame VERSION LOCKTIME ACTIVE` begins a frame and a table of verdicts; a context and a table that were made before stay until
//! the next `fill` or `table`. After it come its parts:
//! `input HASH INDEX SEQUENCE VALUE LOCKING UNLOCKING`, or `plain COUNT VALUE LOCKING UNLOCKING` for so many ordinary inputs;
//! `output VALUE LOCKING`, or `outputs COUNT` for so many of value 0 and without bytes; `verdict KIND ANSWER SIGNATURE KEY
//! MESSAGE`, or `verdicts COUNT` for so many different ones. A locking bytecode `self` is the open one.
//!
//! A case is `new`, the fault of the frame; `fill LOCKING UNLOCKING`, the context; `table`, the fault of the table; and what is
//! asked of these: `spent`, the value of the spent input, `look0 WHAT ACTIVE`, `look_at WHAT INDEX`, `time ELEMENT`, `age
//! ELEMENT`, `one KIND SIGNATURE KEY MESSAGE`, `many SIGNATURES KEYS`. After ` = ` stands the answer. Bytes stand in
//! hexadecimal: `-` is none of them, `5a*520` those of `5a` 520 times, and `+` joins such pieces. Other lines are printed as
//! they are.
#![tactic(auto)]

mod asked;
mod parts;
mod words;

use crate::parts::Parts;
use crate::words::words_of;
use anyhow::Result;
use std::alloc::Global;
use tx_context::{Context, Verdicts};

/// What was made last, and is asked.
#[derive(Drop)]
struct Made {
    context: Option<Context>,
    verdicts: Option<Verdicts>,
}

/// What is asked of what was made last, or `None` where the line is no case.
fn asked_of(alloc: Global, made: &Made, call: &str, words: &[&str; 6]) -> Result<Option<String>> {
    match (call, &made.context, &made.verdicts) {
        ("one" | "many", _, Some(verdicts)) => asked::of_verdicts(alloc, verdicts, call, words),
        (_, Some(context), _) => asked::of_context(alloc, context, call, words),
        _ => Ok(None),
    }
}

/// What a line gives, or `None` where it is no case.
fn answer(alloc: Global, parts: &mut Parts, made: &mut Made, line: &str) -> Result<Option<String>> {
    let (call, words) = words_of(line);
    match call {
        "new" => Ok(Some(parts::fault(alloc, parts)?)),
        "table" => {
            let (verdicts, answer) = parts::table(alloc, parts)?;
            made.verdicts = verdicts;
            Ok(Some(answer))
        }
        "fill" => {
            let (context, answer) = parts::filled(alloc, parts, words[0], words[1])?;
            made.context = context;
            Ok(Some(answer))
        }
        _ => {
            if parts::read(alloc, parts, call, &words)? {
                return Ok(None);
            }
            asked_of(alloc, made, call, &words)
        }
    }
}

fn main(rt: HostRuntime) -> Result<()> {
    let mut parts = Parts::new(rt.alloc());
    let mut made = Made {
        context: None,
        verdicts: None,
    };
    for line in rt.lines(rt.alloc()) {
        let line = line?;
        let line = line.as_str();
        match answer(rt.alloc(), &mut parts, &mut made, line)? {
            Some(answer) => println!(rt; "{line} = {answer}")?,
            None => println!(rt; "{line}")?,
        }
    }
    Ok(())
}
