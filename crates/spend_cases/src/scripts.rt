//! The scripts of spends.

use crate::contracts::contract;
use anyhow::Result;
use artifact_json::Program;
use cash_base::Element;
use spend_case_files::text::{elements, split, stop_text};
use spend_debug::build_stop;
use std::alloc::Global;
use unlocker::{BuildFault, locking, redeem, unlocking};

/// The three scripts of a spend, or why they aren't built.
pub fn scripts(alloc: Global, case: &str) -> Result<String> {
    let (params, rest) = split(case);
    let (functions, rest) = split(rest);
    let (chosen, rest) = split(rest);
    let (ctor, args) = split(rest);
    let program = contract(alloc, params, functions)?;
    let chosen = chosen.parse::<usize>()?;
    let ctor = elements(alloc, ctor)?;
    let args = elements(alloc, args)?;
    match built(alloc, &program, chosen, &ctor, &args) {
        Ok(text) => Ok(text),
        Err(fault) => stop_text(alloc, build_stop(fault)),
    }
}

fn built(
    alloc: Global,
    program: &Program,
    chosen: usize,
    ctor: &[Element],
    args: &[Element],
) -> Result<String, BuildFault> {
    let redeem = redeem(alloc, program, ctor)?;
    let unlocking = unlocking(alloc, program, chosen, args, redeem.as_slice())?;
    let locking = locking(redeem.as_slice());
    let redeem = hex::encode(alloc, redeem.as_slice())?;
    let unlocking = hex::encode(alloc, unlocking.as_slice())?;
    let locking = hex::encode(alloc, locking.as_slice())?;
    Ok(format!(in alloc; "{redeem} {unlocking} {locking}\n")?)
}
