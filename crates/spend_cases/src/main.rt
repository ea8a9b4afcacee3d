//! Builds and tells spends, and prints what comes of each. It reads a case a line from the standard input:
//!
//! - `scripts PARAMETERS FUNCTIONS CHOSEN CONSTANTS ARGUMENTS`: the scripts of a spend of a contract whose code is NUMEQUAL, whose
//!   constructor has so many parameters, and whose functions have so many each, as `0,2`. Function CHOSEN, counted from 0, is
//!   called. The answer is `REDEEM UNLOCKING LOCKING`.
//! - `arguments FILE`: what a file of arguments has, each element with a comma after it.
//! - `spend CODE PLACES CHOSEN CONSTANTS ARGUMENTS`: the report on a spend of `contract Eq(int a) { function f(int b) { require(a
//!   == b); } }` by the code `NUMEQUAL`, or by `none`, with its places, `placed`, or without, `unplaced`.
//! - `report accepted` and `report SCRIPT CAUSE INDEX FROM TO`: a report on such a verdict, at the place from byte FROM to TO
//!   of a text of 50 blanks, ten empty lines and five blanks, or at none where FROM is `-`.
//! - `elements TYPE FILE`: the elements of the values of a spend file's constructor as parameters of the type, each with a comma
//!   after it.
//! - `file ARTIFACT FILE`, with a tab between the files: the report on the spend that a spend file asks for, of the program of an
//!   artifact.
//! - `trace ARTIFACT FILE`: the same, and before it a line `SCRIPT INDEX OPCODE PLACE HEIGHT` for each instruction that is executed;
//!   the place as FROM-TO in bytes of the source, or `-`.
//! - `meaning ARTIFACT FILE`: how the run of the artifact's source ends, `met` or `failed LINE:COL CAUSE`.
//!
//! Bytes stand in hexadecimal, and `-` is none. Elements stand with commas between them, and `none` is no element. Where no
//! spend is made, the answer is the line that says why.
#![tactic(auto)]

mod contracts;
mod elements;
mod files;
mod reports;
mod scripts;

use anyhow::{Result, bail};
use elements::elements;
use files::{judged, meant, traced};
use reports::{arguments, report, spend};
use scripts::scripts;
use spend_case_files::text::split;
use std::alloc::Global;
use std::io::{BufRead, BufReader};

fn answer(alloc: Global, line: &str) -> Result<String> {
    let (case, rest) = split(line);
    match case {
        "scripts" => scripts(alloc, rest),
        "arguments" => arguments(alloc, rest),
        "spend" => spend(alloc, rest),
        "report" => report(alloc, rest),
        "elements" => elements(alloc, rest),
        "file" => judged(alloc, rest),
        "trace" => traced(alloc, rest),
        "meaning" => meant(alloc, rest),
        _ => bail!("{case} is no case"),
    }
}

fn main(rt: HostRuntime) -> Result<()> {
    let alloc = rt.alloc();
    for line in BufReader::new(alloc, rt.reader())?.lines(alloc) {
        let line = line?;
        let answer = answer(alloc, line.as_str())?;
        print!(rt; "{answer}")?;
    }
    Ok(())
}
