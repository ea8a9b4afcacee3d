//! How the machine ends on a spend.

ghost use Rattle.std.specs.Prelude.{◌≡◌, ◌≤◌, ◌⊎◌, length, IfOk, IfErr, Ok, Err};
ghost use Rattle.spend_json.specs.Given.{spend_parts};
ghost use Rattle.artifact_json.specs.Artifact.{HasFewInputs};
ghost use Rattle.bch_vm.specs.Status.{IsAtEnd};
ghost use Rattle.spend_debug.specs.declared.spends.SpendStop.TheVariants as stops;
ghost use Rattle.unlocker.specs.Spends;
ghost use Rattle.spend_trace.specs.Judged.{report_of, told_by, told_with};

use artifact_json::Program;
use bch_vm::{Machine, MachineOutcome};
use cash_base::Memory;
use spend_debug::spends::known_place;
use spend_debug::{Report, SpendStop};
use spend_json::SpendFile;
use std::alloc::Global;
use tx_context::{Context, LONGEST_BYTECODE, fill};
use unlocker::{Scripts, locking, scripts_of};

/// What a spend of a program comes to: its three scripts, how the machine ends on them in the transaction of the spend, and, where
/// the program has places, that of a refusal in the redeem script after the constructor's pushes. Each function of the program has
/// at most 16 parameters.
///
/// `Build` comes exactly where the scripts can't be built, with the first fault (`unlocker::scripts_of`). Memory may be wanting at
/// any time. The machine can be used again; where there is no report it is as it was.
pub fn debug(
    alloc: Global,
    program: &Program,
    spend: &SpendFile,
    machine: &mut Machine,
) -> Result<Report, SpendStop>
    requires { HasFewInputs program.now }
    ensures report { IfOk result (λ report. report_of program.now (spend_parts spend.now) ≡ Ok report) }
    ensures stopped { IfErr result (λ stop. (stop ≡ stops.Memory) ⊎ (report_of program.now (spend_parts spend.now) ≡ Err stop)) }
    ensures ended { IfOk result (λ report. IsAtEnd report.outcome machine.new) }
    ensures lent { IfErr result (λ stop. machine.new ≡ machine.old) }
{
    let scripts = scripts_of(alloc, program, spend)?;
    let report = judged(alloc, program, spend, scripts, machine)?;
    Ok(report)
}

/// The report on a spend with these scripts.
fn judged(
    alloc: Global,
    program: &Program,
    spend: &SpendFile,
    scripts: Scripts,
    machine: &mut Machine,
) -> Result<Report, Memory>
    requires { length scripts.unlocking ≤ LONGEST_BYTECODE }
    ensures report { IfOk result (λ report. report ≡ told_by program.now (spend_parts spend.now) scripts) }
    ensures ended { IfOk result (λ report. IsAtEnd report.outcome machine.new) }
    ensures lent { IfErr result (λ memory. machine.new ≡ machine.old) }
{
    let context = context_of(alloc, spend, &scripts)?;
    let outcome = machine.spend(&context, &spend.verdicts);
    Ok(report_with(program, scripts, outcome))
}

/// The transaction of a spend, with its scripts.
pub(crate) fn context_of(
    alloc: Global,
    spend: &SpendFile,
    scripts: &Scripts,
) -> Result<Context, Memory>
    requires { length scripts.now.unlocking ≤ LONGEST_BYTECODE }
    ensures { IfOk result (λ context. context ≡ Spends.context_of (spend_parts spend.now) scripts.now) }
{
    let locking = locking(scripts.redeem.as_slice());
    let context = fill(alloc, &spend.frame, &locking, scripts.unlocking.as_slice())?;
    Ok(context)
}

/// The report on a spend that has ended.
pub(crate) fn report_with(program: &Program, scripts: Scripts, outcome: MachineOutcome) -> Report
    ensures { result ≡ told_with program.now scripts outcome }
{
    let locking = locking(scripts.redeem.as_slice());
    let place = known_place(&program.spans, program.ctor.len(), outcome);
    Report {
        redeem: scripts.redeem,
        unlocking: scripts.unlocking,
        locking,
        outcome,
        place,
    }
}
