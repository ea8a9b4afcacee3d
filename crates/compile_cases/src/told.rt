//! What is printed of a source and a spend.

ghost use Rattle.std.specs.Prelude.{◌≤◌, length};
ghost use Rattle.artifact_json.specs.Artifact.{HasFewInputs};
ghost use Rattle.spend_meaning.specs.Meant.{HasRoom};

use crate::spends::{Verdict, compiled_of, run_of, verdict_of};
use anyhow::{Result, ensure};
use bch_vm::MachineOutcome;
use cash_base::MachineCause;
use cash_compile::compile::Compiled;
use cash_compile::{MAX_SOURCE_LEN, Refusal};
use source_meaning::SourceOutcome;
use span_map::line_col;
use spend_case_files::files::spend_of;
use spend_json::SpendFile;
use std::alloc::Global;

/// Both endings of a source and the spend that a file asks for, with places.
pub fn told(alloc: Global, file: &str, source: &str) -> Result<String> {
    ensure!(source.len() <= MAX_SOURCE_LEN, "the source is too long");
    let spend = spend_of(alloc, file)?;
    match compiled_of(alloc, source) {
        Ok(compiled) => placed(alloc, source, &compiled, &spend),
        Err(refusal) => Ok(String::from_str(alloc, name_of(&refusal))?),
    }
}

/// Both endings, without places.
pub fn told_briefly(alloc: Global, file: &str, source: &str) -> Result<String> {
    ensure!(source.len() <= MAX_SOURCE_LEN, "the source is too long");
    let spend = spend_of(alloc, file)?;
    match compiled_of(alloc, source) {
        Ok(compiled) => unplaced(alloc, &compiled, &spend),
        Err(refusal) => Ok(String::from_str(alloc, name_of(&refusal))?),
    }
}

fn placed(alloc: Global, source: &str, compiled: &Compiled, spend: &SpendFile) -> Result<String>
    requires few { HasFewInputs compiled.now.program }
    requires room { HasRoom compiled.now.contract }
    requires short { length source.now ≤ 65536 }
{
    let run = run_of(alloc, compiled, spend)?;
    let verdict = verdict_of(alloc, &compiled.program, spend)?;
    let run = run_text(alloc, source, run)?;
    let verdict = verdict_text(alloc, source, verdict)?;
    Ok(format!(in alloc; "{run}, {verdict}")?)
}

fn unplaced(alloc: Global, compiled: &Compiled, spend: &SpendFile) -> Result<String>
    requires few { HasFewInputs compiled.now.program }
    requires room { HasRoom compiled.now.contract }
{
    let run = run_of(alloc, compiled, spend)?;
    let verdict = verdict_of(alloc, &compiled.program, spend)?;
    let run = if run == SourceOutcome::Met {
        "met"
    } else {
        "failed"
    };
    let verdict = if verdict.outcome == MachineOutcome::Accepted {
        "accepted"
    } else {
        "refused"
    };
    Ok(format!(in alloc; "{run} {verdict}")?)
}

fn run_text(alloc: Global, source: &str, outcome: SourceOutcome) -> Result<String>
    requires { length source.now ≤ 65536 }
{
    match outcome {
        SourceOutcome::Met => Ok(String::from_str(alloc, "met")?),
        SourceOutcome::Failed { span, cause } => {
            let (line, column) = line_col(source, span.from);
            Ok(format!(in alloc; "failed {line}:{column} {cause:?}")?)
        }
    }
}

fn verdict_text(alloc: Global, source: &str, verdict: Verdict) -> Result<String>
    requires { length source.now ≤ 65536 }
{
    let MachineOutcome::Refused {
        script,
        at: _,
        cause,
    } = verdict.outcome
    else {
        return Ok(String::from_str(alloc, "accepted")?);
    };
    let cause = cause_text(alloc, cause)?;
    match verdict.place {
        Some(span) => {
            let (line, column) = line_col(source, span.from);
            Ok(format!(in alloc; "refused {line}:{column} {cause}")?)
        }
        None => Ok(format!(in alloc; "refused {script:?} {cause}")?),
    }
}

/// The name of a cause, as the run of a source has it.
fn cause_text(alloc: Global, cause: MachineCause) -> Result<String> {
    match cause {
        MachineCause::Shared(cause) => Ok(format!(in alloc; "{cause:?}")?),
        MachineCause::EndFalse => Ok(String::from_str(alloc, "CheckFailed")?),
        _ => Ok(format!(in alloc; "{cause:?}")?),
    }
}

fn name_of(refusal: &Refusal) -> &'static str {
    match refusal {
        Refusal::SourceTooLong { .. } => "SourceTooLong",
        Refusal::NotUtf8 { .. } => "NotUtf8",
        Refusal::Lex(_) => "Lex",
        Refusal::Parse(_) => "Parse",
        Refusal::Name(_) => "Name",
        Refusal::Typing(_) => "Typing",
        Refusal::CodeTooLong { .. } => "CodeTooLong",
        Refusal::TooManyOps { .. } => "TooManyOps",
        Refusal::Memory => "Memory",
    }
}
