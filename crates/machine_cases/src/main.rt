//! Judges spends, and prints how each ends. It reads a line each from the standard input:
//!
//! - `frame VERSION LOCKTIME ACTIVE` begins a transaction, and ends the one before and its table of verdicts. After it stand
//!   `input HASH INDEX SEQUENCE VALUE LOCKING UNLOCKING` and `output VALUE LOCKING`, in order, where the locking bytecode `self`
//!   is that of the spend; and `verdict KIND ANSWER SIGNATURE KEY MESSAGE`, where KIND is `single`, `multi` or `data`, and
//!   ANSWER `good` or `malformed`.
//! - `spend UNLOCKING LOCKING` is a spend by these scripts in the transaction before it. Its answer is the verdict, and then
//!   `rows N mark M`: N instructions were executed, and M, which is 0 at first, is after each of them (31 M + 7 S + 3 I + H)
//!   modulo 2^32, where S is 0, 1 or 2 for the unlocking, the locking and the redeem script, I the index of the instruction in
//!   its script, and H the height of the stack after it.
//! - `end UNLOCKING LOCKING` is answered by the verdict alone.
//! - `steps UNLOCKING LOCKING` is answered by a line for each instruction that is passed, `SCRIPT INDEX executed HEIGHT` or
//!   `SCRIPT INDEX passed HEIGHT`, and by the verdict.
//!
//! A verdict is `accepted`, or `refused SCRIPT CAUSE INDEX`. Bytes stand in hexadecimal, and `-` is none.
//!
//! Each spend is run step by step, one step further in another transaction, and then as a whole; where these don't end alike
//! that is the answer.
#![tactic(auto)]

mod spends;
mod text;
mod world;

use anyhow::Result;
use spends::Judge;
use std::alloc::Global;
use std::io::{BufRead, BufReader};
use text::{bytes, split};
use world::world_of;

/// The answer to a case in the transaction of these lines.
fn answer(
    alloc: Global,
    judge: &mut Judge,
    frame: &[String],
    case: &str,
    scripts: &str,
) -> Result<String> {
    let (unlocking, locking) = split(scripts);
    let world = world_of(alloc, frame)?;
    let context = world.context(alloc, &bytes(alloc, unlocking)?, &bytes(alloc, locking)?)?;
    judge.answer(alloc, case, &world, &context)
}

fn main(rt: HostRuntime) -> Result<()> {
    let alloc = rt.alloc();
    let mut judge = Judge::new(alloc)?;
    let mut frame = Vec::new(alloc);
    for line in BufReader::new(alloc, rt.reader())?.lines(alloc) {
        let line = line?;
        let (word, rest) = split(line.as_str());
        match word {
            "spend" | "end" | "steps" => {
                let answer = answer(alloc, &mut judge, &frame, word, rest)?;
                println!(rt; "{answer}")?;
            }
            "frame" => {
                frame.clear();
                frame.push(String::from_str(alloc, line.as_str())?)?;
            }
            _ => frame.push(String::from_str(alloc, line.as_str())?)?,
        }
    }
    Ok(())
}
