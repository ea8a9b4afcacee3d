//! Spends, step by step and as a whole.

use crate::world::{World, plain_world};
use anyhow::{Result, bail};
use bch_vm::{Machine, MachineCause, MachineOutcome, Step, Which};
use std::alloc::Global;
use tx_context::Context;

/// More than all instructions of three scripts.
const MOST_STEPS: u32 = 100_000;

/// A mark is a number modulo 2^32.
const MODULUS: u64 = 4_294_967_296;

/// The machine, and another transaction than those of the spends.
#[derive(Drop)]
pub struct Judge {
    machine: Machine,
    other: World,
    other_context: Context,
}

/// What the steps of a spend came to.
#[derive(Drop)]
struct Run {
    outcome: MachineOutcome,
    executed: u32,
    mark: u64,
    /// A line for each instruction that was passed.
    steps: String,
}

impl Judge {
    pub fn new(alloc: Global) -> Result<Judge> {
        let Ok(machine) = Machine::new(alloc) else {
            bail!("out of memory");
        };
        let other = plain_world(alloc)?;
        let other_context = other.context(alloc, &[], &[])?;
        Ok(Judge {
            machine,
            other,
            other_context,
        })
    }

    /// The answer to a case.
    pub fn answer(
        &mut self,
        alloc: Global,
        case: &str,
        world: &World,
        context: &Context,
    ) -> Result<String> {
        let Some(run) = self.run(alloc, world, context)? else {
            bail!("a spend has no end");
        };
        if !self.ends_so(world, context, run.outcome) {
            return Ok(String::from_str(alloc, "the steps and the spend end otherwise")?);
        }
        let verdict = verdict_text(alloc, run.outcome)?;
        let executed = run.executed;
        let mark = run.mark;
        let steps = run.steps;
        match case {
            "spend" => Ok(format!(in alloc; "{verdict} rows {executed} mark {mark}")?),
            "steps" => Ok(format!(in alloc; "{steps}{verdict}")?),
            _ => Ok(verdict),
        }
    }

    /// Runs a spend step by step.
    fn run(&mut self, alloc: Global, world: &World, context: &Context) -> Result<Option<Run>> {
        let mut steps = String::new(alloc);
        let mut executed_count: u32 = 0;
        let mut mark = 0;
        self.machine.begin();
        for _ in 0..MOST_STEPS {
            match self.machine.step(context, &world.verdicts) {
                Step::Ran {
                    script,
                    at,
                    executed,
                } => {
                    let height = self.machine.stack().len();
                    add_step(&mut steps, script, at, executed, height)?;
                    if executed {
                        executed_count = executed_count.wrapping_add(1);
                        mark = mark_after(mark, script, at, height);
                    }
                }
                Step::Ended(outcome) => {
                    return Ok(Some(Run {
                        outcome,
                        executed: executed_count,
                        mark,
                        steps,
                    }));
                }
            }
        }
        Ok(None)
    }

    /// Whether a step after the end, in the other transaction, and the spend as a whole answer the same end.
    fn ends_so(&mut self, world: &World, context: &Context, outcome: MachineOutcome) -> bool {
        let stays = self.machine.step(&self.other_context, &self.other.verdicts);
        let whole = self.machine.spend(context, &world.verdicts);
        stays == Step::Ended(outcome) && whole == outcome
    }
}

fn mark_after(mark: u64, script: Which, at: u32, height: usize) -> u64 {
    let number: u64 = match script {
        Which::Unlocking => 0,
        Which::Locking => 1,
        Which::Redeem => 2,
    };
    let front = mark.wrapping_mul(31).wrapping_add(number * 7);
    front
        .wrapping_add(u64::from(at) * 3)
        .wrapping_add(height as u64)
        % MODULUS
}

fn add_step(
    steps: &mut String,
    script: Which,
    at: u32,
    executed: bool,
    height: usize,
) -> Result<()> {
    let name = script_name(script);
    let how = if executed { "executed" } else { "passed" };
    writeln!(steps, "{name} {at} {how} {height}")?;
    Ok(())
}

fn verdict_text(alloc: Global, outcome: MachineOutcome) -> Result<String> {
    match outcome {
        MachineOutcome::Accepted => Ok(String::from_str(alloc, "accepted")?),
        MachineOutcome::Refused { script, at, cause } => {
            let script = script_name(script);
            let cause = cause_text(alloc, cause)?;
            Ok(format!(in alloc; "refused {script} {cause} {at}")?)
        }
    }
}

fn cause_text(alloc: Global, cause: MachineCause) -> Result<String> {
    match cause {
        MachineCause::Shared(cause) => Ok(format!(in alloc; "{cause:?}")?),
        _ => Ok(format!(in alloc; "{cause:?}")?),
    }
}

fn script_name(script: Which) -> &'static str {
    match script {
        Which::Unlocking => "unlocking",
        Which::Locking => "locking",
        Which::Redeem => "redeem",
    }
}
