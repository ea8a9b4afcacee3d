//! The instructions that a spend executes.

ghost use Rattle.std.specs.Prelude.{◌≡◌, ◌≤◌, ◌⊎◌, ◌++◌, ℕ, List, length, IfOk, IfErr, OnOk, Ok, Err};
ghost use Rattle.tx_context.specs.Transaction.{Transaction};
ghost use Rattle.tx_context.specs.Table as verdict;
ghost use Rattle.bch_vm.specs.Spend.{spend_course, spend_outcome};
ghost use Rattle.bch_vm.specs.Status.{stack_of, IsAtBeginning, IsAtEnd};
ghost use Rattle.spend_json.specs.Given.{spend_parts};
ghost use Rattle.artifact_json.specs.Artifact.{HasFewInputs};
ghost use Rattle.spend_debug.specs.declared.spends.SpendStop.TheVariants as stops;
ghost use Rattle.spend_trace.specs.Traced;
ghost use Rattle.spend_trace.specs.Traced.{bytes_of, rows_in, row_with, trace_with, trace_of};
ghost use Rattle.spend_trace.specs.Heights.{HasLowStacks, added};

use crate::judging::{context_of, report_with};
use crate::opcodes::{doing_place, opcode_at};
use artifact_json::Program;
use bch_vm::{Machine, MachineOutcome, Step, Which};
use cash_base::{Memory, Span};
use spend_debug::{Report, SpendStop};
use spend_json::SpendFile;
use std::alloc::{AllocError, Global};
use tx_context::{Context, Verdicts};
use unlocker::{LONGEST_SCRIPT, Scripts, locking, scripts_of};

/// An instruction that was executed: its script, its index there, counted from 0, its opcode, the place in the source of what it
/// does, where the program tells it, and how many elements the stack has after it.
#[derive(Clone, Copy, Debug, PartialEq, Eq)]
pub struct TraceRow {
    pub script: Which,
    pub at: u32,
    pub opcode: u8,
    pub place: Option<Span>,
    pub height: u32,
}

/// A spend as `debug` reports it, and before that a row for each instruction that the machine executes, in order, in all three
/// scripts; an instruction that fails has none. Each function of the program has at most 16 parameters.
///
/// `Build` and `Memory` come as in `debug`. The machine can be used again: where there is no report it is as it was, or at the
/// beginning of a spend.
pub fn trace(
    alloc: Global,
    program: &Program,
    spend: &SpendFile,
    machine: &mut Machine,
) -> Result<(Vec<TraceRow>, Report), SpendStop>
    requires { HasFewInputs program.now }
    ensures traced { IfOk result (λ traced. trace_of program.now (spend_parts spend.now)
        ≡ Ok (trace_with traced.0.items traced.1)) }
    ensures stopped { IfErr result (λ stop. (stop ≡ stops.Memory) ⊎ (trace_of program.now (spend_parts spend.now) ≡ Err stop)) }
    ensures ended { IfOk result (λ traced. IsAtEnd traced.1.outcome machine.new) }
    ensures lent { IfErr result (λ stop. (machine.new ≡ machine.old) ⊎ IsAtBeginning machine.new) }
{
    let scripts = scripts_of(alloc, program, spend)?;
    let context = context_of(alloc, spend, &scripts)?;
    let ran = run_again(alloc, program, &scripts, &context, &spend.verdicts, machine)?;
    let report = report_with(program, scripts, ran.outcome);
    Ok((ran.rows, report))
}

/// On the way through a spend the stack has at most 1,000 elements, so that a row tells its height exactly.
pub fn rows_are_low()
    ensures { (context : Transaction (List ℕ)) (verdicts : List verdict.Row) → HasLowStacks (spend_course context verdicts) }
{}

/// The instructions that were executed, and the end.
#[derive(Drop)]
struct Ran {
    rows: Vec<TraceRow>,
    outcome: MachineOutcome,
}

/// The run of a spend. Where memory runs out the machine is brought to the beginning.
fn run_again(
    alloc: Global,
    program: &Program,
    scripts: &Scripts,
    context: &Context,
    verdicts: &Verdicts,
    machine: &mut Machine,
) -> Result<Ran, Memory>
    requires redeem { length scripts.now.redeem ≤ 520 }
    requires size { length scripts.now.unlocking ≤ LONGEST_SCRIPT }
    ensures rows { IfOk result (λ ran. ran.rows.items
        ≡ rows_in program.now scripts.now (spend_course context.now verdicts.now)) }
    ensures outcome { IfOk result (λ ran. ran.outcome ≡ spend_outcome context.now verdicts.now) }
    ensures ended { IfOk result (λ ran. IsAtEnd ran.outcome machine.new) }
    ensures lent { IfErr result (λ memory. IsAtBeginning machine.new) }
{
    match run(alloc, program, scripts, context, verdicts, machine) {
        Ok(ran) => Ok(ran),
        Err(memory) => {
            machine.begin();
            Err(memory)
        }
    }
}

#[tactic(auto, using(crate::proofs::Steps::rows_passed, crate::proofs::Steps::rows_ended, crate::proofs::Steps::outcome_passed, crate::proofs::Steps::outcome_ended, crate::proofs::Steps::fewer_passed, crate::proofs::Steps::low_passed, crate::proofs::Steps::stack_passed))]
fn run(
    alloc: Global,
    program: &Program,
    scripts: &Scripts,
    context: &Context,
    verdicts: &Verdicts,
    machine: &mut Machine,
) -> Result<Ran, Memory>
    requires redeem { length scripts.now.redeem ≤ 520 }
    requires size { length scripts.now.unlocking ≤ LONGEST_SCRIPT }
    ensures rows { IfOk result (λ ran. ran.rows.items
        ≡ rows_in program.now scripts.now (spend_course context.now verdicts.now)) }
    ensures outcome { IfOk result (λ ran. ran.outcome ≡ spend_outcome context.now verdicts.now) }
    ensures ended { IfOk result (λ ran. IsAtEnd ran.outcome machine.new) }
{
    rows_are_low();
    machine.begin();
    let mut rows = Vec::new(alloc);
    'steps: loop {
        match machine.step(context, verdicts) {
            Step::Ended(outcome) => return Ok(Ran { rows, outcome }),
            Step::Ran {
                script,
                at,
                executed,
            } => {
                let height = height_of(machine);
                add_row(program, scripts, script, at, executed, height, &mut rows)?;
            }
        }
    }
}

/// How many elements the stack has, where it has at most 1,000.
#[tactic(auto, using(crate::proofs::Steps::counted))]
fn height_of(machine: &Machine) -> u32
    requires { length (stack_of machine.now) ≤ 1000 }
    ensures { result ≡ length (stack_of machine.now) }
{
    machine.stack().len() as u32
}

/// Adds the row of an instruction, where it was executed.
fn add_row(
    program: &Program,
    scripts: &Scripts,
    script: Which,
    at: u32,
    executed: bool,
    height: u32,
    rows: &mut Vec<TraceRow>,
) -> Result<(), AllocError>
    requires redeem { length scripts.now.redeem ≤ 520 }
    requires size { length scripts.now.unlocking ≤ LONGEST_SCRIPT }
    ensures { OnOk result (rows.new.items
        ≡ rows.old.items ++ added executed (row_with program.now scripts.now script at height)) }
{
    if !executed {
        return Ok(());
    }
    rows.push(row_of(program, scripts, script, at, height))?;
    Ok(())
}

fn row_of(program: &Program, scripts: &Scripts, script: Which, at: u32, height: u32) -> TraceRow
    requires redeem { length scripts.now.redeem ≤ 520 }
    requires size { length scripts.now.unlocking ≤ LONGEST_SCRIPT }
    ensures { result ≡ row_with program.now scripts.now script at height }
{
    TraceRow {
        script,
        at,
        opcode: opcode_of(scripts, script, at),
        place: doing_place(&program.spans, program.ctor.len(), script, at),
        height,
    }
}

fn opcode_of(scripts: &Scripts, script: Which, at: u32) -> u8
    requires redeem { length scripts.now.redeem ≤ 520 }
    requires size { length scripts.now.unlocking ≤ LONGEST_SCRIPT }
    ensures { result ≡ Traced.opcode_at (bytes_of scripts.now script) at }
{
    match script {
        Which::Unlocking => opcode_at(scripts.unlocking.as_slice(), at),
        Which::Locking => opcode_at(&locking(scripts.redeem.as_slice()), at),
        Which::Redeem => opcode_at(scripts.redeem.as_slice(), at),
    }
}
