//! Files of arguments, spends and reports.

ghost use Rattle.artifact_json.specs.Artifact.{HasFewInputs};

use crate::contracts::{SOURCE, equality};
use anyhow::{Result, bail};
use artifact_json::Program;
use bch_vm::{Machine, MachineCause, MachineOutcome, Which};
use cash_base::{Cause, Span};
use spend_case_files::files::stopped;
use spend_case_files::text::{bytes, elements, split, stop_text};
use spend_debug::spend_lines::read;
use spend_debug::{Report, Spend, debug, line_stop, plain_frame, report_text};
use std::alloc::Global;
use tx_context::Verdicts;

/// What a file of arguments has.
pub fn arguments(alloc: Global, case: &str) -> Result<String> {
    let file = bytes(alloc, case)?;
    let elements = match read(alloc, &file) {
        Ok(elements) => elements,
        Err(fault) => return stop_text(alloc, line_stop(fault)),
    };
    let mut text = String::new(alloc);
    for element in &elements {
        text.push_str(hex::encode(alloc, element.as_slice())?.as_str())?;
        text.push_str(",")?;
    }
    text.push_str("\n")?;
    Ok(text)
}

/// The report on a spend of the contract.
pub fn spend(alloc: Global, case: &str) -> Result<String> {
    let (code, rest) = split(case);
    let (places, rest) = split(rest);
    let (chosen, rest) = split(rest);
    let (ctor, args) = split(rest);
    let spend = spend_of(alloc, chosen, ctor, args)?;
    let program = equality(alloc, code == "NUMEQUAL", places == "placed")?;
    report_of(alloc, &program, &spend)
}

fn report_of(alloc: Global, program: &Program, spend: &Spend) -> Result<String>
    requires { HasFewInputs program.now }
{
    let mut machine = machine(alloc)?;
    match debug(alloc, program, spend, &mut machine) {
        Ok(report) => told(alloc, SOURCE, &report),
        Err(stop) => stopped(alloc, stop),
    }
}

/// A machine at the beginning of a spend.
pub fn machine(alloc: Global) -> Result<Machine> {
    let Ok(machine) = Machine::new(alloc) else {
        bail!("out of memory");
    };
    Ok(machine)
}

fn spend_of(alloc: Global, chosen: &str, ctor: &str, args: &str) -> Result<Spend> {
    let Ok(frame) = plain_frame(alloc) else {
        bail!("out of memory");
    };
    let Ok(verdicts) = Verdicts::from_rows(alloc, Vec::new(alloc)) else {
        bail!("out of memory");
    };
    Ok(Spend {
        ctor: elements(alloc, ctor)?,
        chosen: chosen.parse::<usize>()?,
        args: elements(alloc, args)?,
        frame,
        verdicts,
    })
}

/// The text of a report.
pub fn told(alloc: Global, source: &str, report: &Report) -> Result<String> {
    if source.len() > 1_000_000 {
        bail!("the source is too long");
    }
    match report_text(alloc, source.as_bytes(), report) {
        Ok(text) => Ok(String::from_utf8(text)?),
        Err(_) => bail!("out of memory"),
    }
}

/// The report on a verdict, with other scripts.
pub fn report(alloc: Global, case: &str) -> Result<String> {
    let (script, rest) = split(case);
    let (cause, rest) = split(rest);
    let (at, place) = split(rest);
    let outcome = if script == "accepted" {
        MachineOutcome::Accepted
    } else {
        MachineOutcome::Refused {
            script: which(script)?,
            at: at.parse::<u32>()?,
            cause: cause_of(cause)?,
        }
    };
    let report = Report {
        redeem: vec![in alloc; 0x55, 0x9c]?,
        unlocking: vec![in alloc; 0x01, 0xab]?,
        locking: [0x1f; 23],
        outcome,
        place: span(place)?,
    };
    let line = "                                                  \n";
    let source = format!(in alloc; "{line}\n\n\n\n\n\n\n\n\n\n     ")?;
    told(alloc, source.as_str(), &report)
}

fn span(place: &str) -> Result<Option<Span>> {
    let (from, to) = split(place);
    if to.is_empty() {
        return Ok(None);
    }
    Ok(Some(Span {
        from: from.parse::<u32>()?,
        to: to.parse::<u32>()?,
    }))
}

fn which(name: &str) -> Result<Which> {
    match name {
        "unlocking" => Ok(Which::Unlocking),
        "locking" => Ok(Which::Locking),
        "redeem" => Ok(Which::Redeem),
        _ => bail!("{name} is no script"),
    }
}

fn cause_of(name: &str) -> Result<MachineCause> {
    match name {
        "EndFalse" => Ok(MachineCause::EndFalse),
        "NotANumber" => Ok(MachineCause::Shared(Cause::NotANumber)),
        "NotPushOnly" => Ok(MachineCause::NotPushOnly),
        "HashDiffers" => Ok(MachineCause::HashDiffers),
        _ => bail!("{name} is no cause of a case"),
    }
}
