//! Spends of compiled contracts: their scripts, how they end, and where in the source they fail.

ghost use Rattle.std.specs.Prelude.{◌≡◌, ◌≤◌, ◌⊎◌, ℕ, length, option_map, IfOk, IfErr, Ok, Err, Some, List};
ghost use Rattle.cash_base.specs.declared.fault.Cause.{Cause};
ghost use Rattle.cash_base.specs.declared.fault.MachineCause.{MachineCause};
ghost use Rattle.cash_base.specs.declared.place.Span.{Span};
ghost use Rattle.bch_vm.specs.declared.outcome.Which.TheVariants.{Redeem};
ghost use Rattle.bch_vm.specs.declared.outcome.MachineOutcome.TheVariants.{Refused};
ghost use Rattle.span_map.specs.declared.SpanRow.{SpanRow};
ghost use Rattle.span_map.specs.Lines.{line_col};
ghost use Rattle.span_map.specs.Places.{place_after};
ghost use Rattle.artifact_json.specs.Artifact.{Artifact, HasFewInputs};
ghost use Rattle.spend_debug.specs.declared.spends.SpendStop.TheVariants as stops;
ghost use Rattle.spend_debug.specs.SpendDebug;
ghost use Rattle.spend_debug.specs.SpendDebug.{SpendParts, stop_of, built_scripts, told_with, told_of, outcome_of, AreOfCall};
ghost use Rattle.spend_debug.specs.Telling.{verdict_line, failure_line, told_place, placed_name, cause_name};

use crate::report::Report;
use artifact_json::Program;
use bch_vm::{Machine, MachineOutcome, Which};
use cash_base::{Element, Memory, Span};
use span_map::{SpanRow, place};
use std::alloc::Global;
use std::marker::Model;
use thiserror::Error;
use tx_context::{Bytecode, Frame, LONGEST_BYTECODE, Verdicts, fill, plain_input};
use unlocker::{BuildFault, locking, redeem, unlocking};

/// What a contract is spent with: elements for the constructor, a function by its index from 0, elements for its
/// arguments, the transaction, and what stands for checks of signatures.
#[derive(Drop)]
pub struct Spend {
    pub ctor: Vec<Element>,
    pub chosen: usize,
    pub args: Vec<Element>,
    pub frame: Frame,
    pub verdicts: Verdicts,
}

impl Model for Spend {
    ghost use Rattle.std.specs.Prelude.{map};
    ghost use Rattle.spend_debug.specs.SpendDebug.{SpendParts};

    ghost Value = { SpendParts };

    ghost view = { λ s. record {
      ctor = map (λ e. e.items) s.ctor.items;
      chosen = s.chosen;
      args = map (λ e. e.items) s.args.items;
      frame = s.frame;
      verdicts = s.verdicts;
    } };
}

/// Why there is no report.
#[derive(Clone, Copy, Debug, PartialEq, Eq, Error)]
pub enum SpendStop {
    /// The scripts can't be built; never for want of memory.
    #[error("no scripts are built: {0}")]
    Build(BuildFault),
    /// Memory ran out.
    #[error("out of memory")]
    Memory,
}

impl From<Memory> for SpendStop {
    ghost from_gives = { λ _ stop. stop ≡ stops.Memory };

    fn from(_e: Memory) -> SpendStop {
        SpendStop::Memory
    }
}

impl From<BuildFault> for SpendStop {
    ghost from_gives = { λ fault stop. stop ≡ stop_of fault };

    fn from(fault: BuildFault) -> SpendStop {
        match fault {
            BuildFault::Memory => SpendStop::Memory,
            _ => SpendStop::Build(fault),
        }
    }
}

/// The transaction of a spend for which none is given: version 2, lock time 0, one input of zeros and empty bytecodes, no
/// output. `Memory` comes where memory ran out.
pub fn plain_frame(alloc: Global) -> Result<Frame, Memory>
    ensures { IfOk result (λ frame. frame ≡ SpendDebug.plain_frame) }
{
    let mut inputs = Vec::new(alloc);
    let locking = Bytecode::Given(Vec::new(alloc));
    inputs.push(plain_input(0, locking, Vec::new(alloc)))?;
    match Frame::new(2, 0, inputs, Vec::new(alloc), 0) {
        Ok(frame) => Ok(frame),
        Err(_) => unreachable!(),
    }
}

/// What a spend of a program comes to: the three scripts, how the machine ends on them in the transaction, and the place
/// in the source of a refusal in the redeem script after the constructor's pushes, where the program has places. Each function
/// of the program has at most 16 parameters.
///
/// `Build` comes exactly where the scripts can't be built, with the first of these faults: the count of the constructor's
/// elements, the size of the redeem script, that there is no such function, the count of the arguments. Memory may be
/// wanting at any time. The machine can be used again; where there is no report it is as it was.
pub fn debug(
    alloc: Global,
    program: &Program,
    spend: &Spend,
    machine: &mut Machine,
) -> Result<Report, SpendStop>
    requires { HasFewInputs program.now }
    ensures report { IfOk result (λ report. report ≡ told_of program.now spend.now) }
    ensures built { IfOk result (λ report. built_scripts program.now spend.now ≡ Ok (report.redeem, report.unlocking)) }
    ensures stopped { IfErr result (λ stop. (stop ≡ stops.Memory) ⊎ (built_scripts program.now spend.now ≡ Err stop)) }
    ensures lent { IfErr result (λ stop. machine.new ≡ machine.old) }
{
    let scripts = scripts_of(alloc, program, spend)?;
    Ok(judge(alloc, program, spend, scripts, machine)?)
}

/// Scripts are built where there are as many elements as the constructor and the function that is called have parameters,
/// and where the redeem script has at most 520 bytes.
pub fn built_scripts_are_of_a_call()
    ensures { (program : Artifact) (spend : SpendParts) (redeem unlocking : List ℕ)
        → built_scripts program spend ≡ Ok (redeem, unlocking) → AreOfCall program spend redeem unlocking }
{}

/// A spend that is refused in the redeem script, where the program has a place, is reported as a failure of the source: at the
/// line and the column of this place, and by the name of the cause that the run of the source has.
pub fn told_as_a_failure()
    ensures { (program : Artifact) (spend : SpendParts) (rows : List SpanRow) (at : ℕ) (cause : MachineCause) (span : Span)
        (fault : Cause) (source : List ℕ)
        → program.spans ≡ Some rows
        → outcome_of program spend ≡ Refused Redeem at cause
        → place_after rows (length spend.ctor) at cause ≡ Some span
        → placed_name cause ≡ cause_name fault
        → verdict_line (told_of program spend).outcome (told_place source (told_of program spend).place)
        ≡ failure_line (line_col source span.from) fault at }
{}

/// The scripts of a spend that the machine is handed, but for the locking script.
#[derive(Drop)]
struct Scripts {
    redeem: Vec<u8>,
    unlocking: Vec<u8>,
}

#[tactic(auto, using(crate::proofs::Built::scripts_told, crate::proofs::Built::scripts_small))]
fn scripts_of(alloc: Global, program: &Program, spend: &Spend) -> Result<Scripts, SpendStop>
    requires { HasFewInputs program.now }
    ensures built { IfOk result (λ scripts.
        built_scripts program.now spend.now ≡ Ok (scripts.redeem.items, scripts.unlocking.items)) }
    ensures told { IfOk result (λ scripts.
        told_with program.now spend.now scripts.redeem.items scripts.unlocking.items ≡ told_of program.now spend.now) }
    ensures size { IfOk result (λ scripts. length scripts.unlocking.items ≤ LONGEST_BYTECODE) }
    ensures stopped { IfErr result (λ stop. (stop ≡ stops.Memory) ⊎ (built_scripts program.now spend.now ≡ Err stop)) }
{
    let redeem = redeem(alloc, program, spend.ctor.as_slice())?;
    let unlocking = unlocking(
        alloc,
        program,
        spend.chosen,
        spend.args.as_slice(),
        redeem.as_slice(),
    )?;
    Ok(Scripts { redeem, unlocking })
}

/// The report of a spend with these scripts.
fn judge(
    alloc: Global,
    program: &Program,
    spend: &Spend,
    scripts: Scripts,
    machine: &mut Machine,
) -> Result<Report, Memory>
    requires { length scripts.unlocking.items ≤ LONGEST_BYTECODE }
    ensures report { IfOk result (λ report.
        report ≡ told_with program.now spend.now scripts.redeem.items scripts.unlocking.items) }
    ensures lent { IfErr result (λ stop. machine.new ≡ machine.old) }
{
    let locking = locking(scripts.redeem.as_slice());
    let context = fill(alloc, &spend.frame, &locking, scripts.unlocking.as_slice())?;
    let outcome = machine.spend(&context, &spend.verdicts);
    let place = known_place(&program.spans, spend.ctor.len(), outcome);
    Ok(Report {
        redeem: scripts.redeem,
        unlocking: scripts.unlocking,
        locking,
        outcome,
        place,
    })
}

/// The place of a refusal in the redeem script, after so many pushes of the constructor, where the rows are known. It takes no
/// memory.
pub fn known_place(
    spans: &Option<Vec<SpanRow>>,
    before: usize,
    outcome: MachineOutcome,
) -> Option<Span>
    ensures { result ≡ SpendDebug.known_place (option_map (λ rows. rows.items) spans.now) before outcome }
{
    let Some(rows) = spans else {
        return None;
    };
    match outcome {
        MachineOutcome::Refused {
            script: Which::Redeem,
            at,
            cause,
        } => {
            let at = at as usize;
            if at < before {
                return None;
            }
            place(rows.as_slice(), (at - before) as u32, cause)
        }
        _ => None,
    }
}
