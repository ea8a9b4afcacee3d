//! Spends that spend files ask for, of programs that artifacts keep.

ghost use Rattle.std.specs.Prelude.{IfOk, IsTrue};
ghost use Rattle.artifact_json.specs.Artifact.{HasFewInputs};
ghost use Rattle.spend_meaning.specs.Meant.{HasRoom, has_parameters_of};

use crate::reports::{machine, told};
use anyhow::{Result, bail, ensure};
use artifact_json::Program;
use bch_vm::Which;
use cash_tree::TypedContract;
use source_meaning::{SourceOutcome, SourceRoom};
use span_map::line_col;
use spend_case_files::files::{files, program_of, spend_of, stopped};
use spend_case_files::sources::{LONGEST, contract_of};
use spend_debug::Report;
use spend_json::SpendFile;
use spend_meaning::{has_parameters_of, meaning};
use spend_trace::{TraceRow, debug, trace};
use std::alloc::Global;

/// What a case names.
#[derive(Drop)]
struct Case {
    program: Program,
    spend: SpendFile,
}

fn case_of(alloc: Global, case: &str) -> Result<Case>
    ensures { IfOk result (λ case. HasFewInputs case.program) }
{
    let (artifact, file) = files(case)?;
    let program = program_of(alloc, artifact)?;
    let spend = spend_of(alloc, file)?;
    Ok(Case { program, spend })
}

/// The report on a spend.
pub fn judged(alloc: Global, case: &str) -> Result<String> {
    let case = case_of(alloc, case)?;
    report_of(alloc, &case.program, &case.spend)
}

fn report_of(alloc: Global, program: &Program, spend: &SpendFile) -> Result<String>
    requires { HasFewInputs program.now }
{
    let mut machine = machine(alloc)?;
    match debug(alloc, program, spend, &mut machine) {
        Ok(report) => told(alloc, program.source.as_str(), &report),
        Err(stop) => stopped(alloc, stop),
    }
}

fn script_name(script: Which) -> &'static str {
    match script {
        Which::Unlocking => "unlocking",
        Which::Locking => "locking",
        Which::Redeem => "redeem",
    }
}

/// `SCRIPT INDEX OPCODE PLACE HEIGHT`
fn add_row(alloc: Global, text: &mut String, row: &TraceRow) -> Result<()> {
    let (script, at, opcode, height) = (script_name(row.script), row.at, row.opcode, row.height);
    let place = match row.place {
        None => String::from_str(alloc, "-")?,
        Some(span) => {
            let (from, to) = (span.from, span.to);
            format!(in alloc; "{from}-{to}")?
        }
    };
    text.push_str(format!(in alloc; "{script} {at} {opcode} {place} {height}\n")?.as_str())?;
    Ok(())
}

/// The instructions that a spend executes, and the report on it.
pub fn traced(alloc: Global, case: &str) -> Result<String> {
    let case = case_of(alloc, case)?;
    trace_of(alloc, &case.program, &case.spend)
}

fn trace_of(alloc: Global, program: &Program, spend: &SpendFile) -> Result<String>
    requires { HasFewInputs program.now }
{
    let mut machine = machine(alloc)?;
    match trace(alloc, program, spend, &mut machine) {
        Ok((rows, report)) => shown(alloc, program.source.as_str(), rows.as_slice(), &report),
        Err(stop) => stopped(alloc, stop),
    }
}

fn shown(alloc: Global, source: &str, rows: &[TraceRow], report: &Report) -> Result<String> {
    let mut text = String::new(alloc);
    for row in rows {
        add_row(alloc, &mut text, row)?;
    }
    text.push_str(told(alloc, source, report)?.as_str())?;
    Ok(text)
}

/// How the run of the source ends that an artifact has.
pub fn meant(alloc: Global, case: &str) -> Result<String> {
    let case = case_of(alloc, case)?;
    run_of(alloc, &case.program, &case.spend)
}

fn run_of(alloc: Global, program: &Program, spend: &SpendFile) -> Result<String>
    requires { HasFewInputs program.now }
{
    let source = program.source.as_str();
    ensure!(source.len() <= LONGEST, "the source is too long");
    let contract = contract_of(alloc, source)?;
    ensure!(
        has_parameters_of(program, &contract),
        "the program is none of the source"
    );
    meaning_of(alloc, program, &contract, spend)
}

fn meaning_of(
    alloc: Global,
    program: &Program,
    contract: &TypedContract,
    spend: &SpendFile,
) -> Result<String>
    requires few { HasFewInputs program.now }
    requires room { HasRoom contract.now }
    requires told { IsTrue (has_parameters_of program.now contract.now) }
{
    let Ok(mut room) = SourceRoom::new(alloc) else {
        bail!("out of memory");
    };
    match meaning(alloc, program, contract, spend, &mut room) {
        Ok(meant) => ending(alloc, program.source.as_str(), meant.outcome),
        Err(stop) => stopped(alloc, stop),
    }
}

fn ending(alloc: Global, source: &str, outcome: SourceOutcome) -> Result<String> {
    ensure!(source.len() <= LONGEST, "the source is too long");
    match outcome {
        SourceOutcome::Met => Ok(String::from_str(alloc, "met\n")?),
        SourceOutcome::Failed { span, cause } => {
            let (line, column) = line_col(source, span.from);
            Ok(format!(in alloc; "failed {line}:{column} {cause:?}\n")?)
        }
    }
}
