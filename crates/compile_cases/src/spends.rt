//! Spends of the code of a source, beside the runs of the source in their worlds.

ghost use Rattle.std.specs.Prelude.{◌≤◌, length, IfOk, IsTrue};
ghost use Rattle.artifact_json.specs.Artifact.{HasFewInputs};
ghost use Rattle.source_stages.specs.Stages.{max_source_len};
ghost use Rattle.spend_meaning.specs.Meant.{HasRoom, has_parameters_of};

use anyhow::{Result, bail, ensure};
use artifact_json::Program;
use bch_vm::{Machine, MachineOutcome};
use cash_base::Span;
use cash_compile::Refusal;
use cash_compile::compile::{Compiled, compile};
use cash_compile::laws::accepted_contracts_run;
use cash_tree::TypedContract;
use source_meaning::{SourceOutcome, SourceRoom};
use spend_json::SpendFile;
use spend_meaning::{has_parameters_of, meaning};
use spend_trace::debug;
use std::alloc::Global;

/// The contract and the program of a source.
pub fn compiled_of(alloc: Global, source: &str) -> Result<Compiled, Refusal>
    requires { length source.now ≤ max_source_len }
    ensures few { IfOk result (λ compiled. HasFewInputs compiled.program) }
    ensures room { IfOk result (λ compiled. HasRoom compiled.contract) }
{
    accepted_contracts_run();
    let compiled = compile(alloc, source.as_bytes(), "")?;
    Ok(compiled)
}

/// How the run of a contract ends, in the world of a spend of its code.
pub fn run_of(alloc: Global, compiled: &Compiled, spend: &SpendFile) -> Result<SourceOutcome>
    requires few { HasFewInputs compiled.now.program }
    requires room { HasRoom compiled.now.contract }
{
    ensure!(
        has_parameters_of(&compiled.program, &compiled.contract),
        "the program has other parameters than the contract"
    );
    outcome_of(alloc, &compiled.program, &compiled.contract, spend)
}

fn outcome_of(
    alloc: Global,
    program: &Program,
    contract: &TypedContract,
    spend: &SpendFile,
) -> Result<SourceOutcome>
    requires few { HasFewInputs program.now }
    requires room { HasRoom contract.now }
    requires told { IsTrue (has_parameters_of program.now contract.now) }
{
    let Ok(mut room) = SourceRoom::new(alloc) else {
        bail!("out of memory");
    };
    match meaning(alloc, program, contract, spend, &mut room) {
        Ok(meant) => Ok(meant.outcome),
        Err(stop) => bail!("{stop:?}"),
    }
}

/// How the machine ends, and the place of a refusal.
#[derive(Clone, Copy)]
pub struct Verdict {
    pub outcome: MachineOutcome,
    pub place: Option<Span>,
}

/// How the machine judges a spend of a program.
pub fn verdict_of(alloc: Global, program: &Program, spend: &SpendFile) -> Result<Verdict>
    requires { HasFewInputs program.now }
{
    let Ok(mut machine) = Machine::new(alloc) else {
        bail!("out of memory");
    };
    match debug(alloc, program, spend, &mut machine) {
        Ok(report) => Ok(Verdict {
            outcome: report.outcome,
            place: report.place,
        }),
        Err(stop) => bail!("{stop:?}"),
    }
}
