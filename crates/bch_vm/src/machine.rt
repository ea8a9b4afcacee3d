//! The machine: a spend's scripts, one after the other, in a room that is reserved at first.

ghost use Rattle.std.specs.Prelude.{◌≡◌, ◌+◌, ◌≤◌, ◌<◌, List, ℕ, [], ◌∷◌, length, map, reverse, IfOk, IfErr, OnOk, IfSome, IfNone, slice_index_or, ◌++◌};
ghost use Rattle.script_codec.specs.Reading.{reading};
ghost use Rattle.bch_vm.specs.declared.phase.Phase.TheVariants.{Running, Over};
ghost use Rattle.script_codec.specs.declared.instr.Instr.{Instr};
ghost use Rattle.tx_context.specs.Transaction.{Transaction};
ghost use Rattle.tx_context.specs.Table.{Row as Verdict};
ghost use Rattle.bch_vm.specs.Setting.{Setting};
ghost use Rattle.bch_vm.specs.Script.{RunsInTurn, ExecutesInTurn};
ghost use Rattle.bch_vm.specs.Course.{Gives, Stops};
ghost use Rattle.bch_vm.specs.Spend;
ghost use Rattle.bch_vm.specs.Spend.{push_check, stack_left, after_unlocking, after_locking, after_redeem, redeemed, scripts_course, spent_input, spend_outcome};
ghost use Rattle.bch_vm.specs.Status.{Status, stack_of, script_of, closed_course, scripts_from, course_from, IsAtBeginning, Goes, IsAtEnd, StaysAtEnd, rank};

use crate::outcome::{MachineOutcome, Step, Which};
use crate::phase::Phase;
use crate::run::{LONGEST_SCRIPT, Run, is_p2sh};
use cash_base::{Element, MachineCause, Memory};
use script_codec::next_instr;
use std::alloc::Global;
use std::marker::Model;
use tx_context::{Context, LONGEST_BYTECODE, Verdicts};

/// The machine of Bitcoin Cash, as it is after May 2022, in a spend.
///
/// Contracts see how far the spend is (`Status`); what is left of a spend from there is a `Course`: a row for each
/// instruction that is passed, and the outcome.
#[derive(Drop)]
pub struct Machine {
    phase: Phase,
    run: Run,
    redeem: Element,
}

impl Model for Machine {
    ghost use Rattle.bch_vm.specs.Status.{Status, status};

    ghost Value = { Status };

    ghost view = { λ machine. status machine.phase machine.run machine.redeem.items };
}

impl Machine {
    /// A machine at the beginning of a spend. Its stacks are reserved, so that nothing after this takes memory.
    pub fn new(alloc: Global) -> Result<Machine, Memory>
        ensures begins { IfOk result IsAtBeginning }
        ensures stack { IfOk result (λ machine. stack_of machine ≡ []) }
    {
        Ok(Machine {
            phase: Phase::Begin,
            run: Run::new(alloc)?,
            redeem: Element::new(),
        })
    }

    /// The elements of the stack, the top last, after an instruction; after the end of a spend they are left open.
    pub fn stack(&self) -> &[Element]
        ensures { reverse (map (λ e. e.items) result.now) ≡ stack_of self.now }
    {
        self.run.stack()
    }

    /// Goes to the beginning of a spend, from wherever the machine is.
    pub fn begin(&mut self)
        ensures begins { IsAtBeginning self.new }
        ensures stack { stack_of self.new ≡ [] }
    {
        self.phase = Phase::Begin;
        self.run.begin();
    }

    /// Passes one instruction of the spend of the context's active input, or answers its end.
    ///
    /// From the beginning on, steps with the same context and table answer `Ran` for each instruction that is passed, in
    /// branches that aren't taken too, with the stack after it, and then the end. After it each step answers the end again,
    /// whatever context and table it is handed.
    pub fn step(&mut self, context: &Context, verdicts: &Verdicts) -> Step
        ensures goes { Goes (course_from context.now verdicts.now self.old) result
            (course_from context.now verdicts.now self.new) (stack_of self.new) }
        ensures stays { StaysAtEnd result self.new }
    {
        self.step_scripts(
            unlocking_of(context),
            locking_of(context),
            context,
            verdicts,
        )
    }

    /// The outcome of the spend of the context's active input, from its beginning.
    pub fn spend(&mut self, context: &Context, verdicts: &Verdicts) -> MachineOutcome
        ensures value { result ≡ spend_outcome context.now verdicts.now }
        ensures ended { IsAtEnd result self.new }
    {
        self.begin();
        'steps: loop {
            match self.step(context, verdicts) {
                Step::Ran { .. } => {}
                Step::Ended(outcome) => return outcome,
            }
        }
    }

    /// Passes one instruction of the spend by these scripts, or answers its end.
    fn step_scripts(
        &mut self,
        unlocking: &[u8],
        locking: &[u8],
        context: &Context,
        verdicts: &Verdicts,
    ) -> Step
        requires unlocking { length unlocking.now ≤ LONGEST_BYTECODE }
        requires locking { length locking.now ≤ LONGEST_BYTECODE }
        ensures goes { Goes (scripts_from context.now verdicts.now unlocking.now locking.now self.old) result
            (scripts_from context.now verdicts.now unlocking.now locking.now self.new) (stack_of self.new) }
        ensures stays { StaysAtEnd result self.new }
    {
        'phases: loop {
            if let Some(step) = self.advance(unlocking, locking, context, verdicts) {
                return step;
            }
        }
    }

    /// Passes one instruction, answers the end, or goes to a later phase.
    fn advance(
        &mut self,
        unlocking: &[u8],
        locking: &[u8],
        context: &Context,
        verdicts: &Verdicts,
    ) -> Option<Step>
        requires unlocking { length unlocking.now ≤ LONGEST_BYTECODE }
        requires locking { length locking.now ≤ LONGEST_BYTECODE }
        ensures step { IfSome result (λ step.
            Goes (scripts_from context.now verdicts.now unlocking.now locking.now self.old) step
            (scripts_from context.now verdicts.now unlocking.now locking.now self.new) (stack_of self.new)) }
        ensures stays { IfSome result (λ step. StaysAtEnd step self.new) }
        ensures same { IfNone result
            (scripts_from context.now verdicts.now unlocking.now locking.now self.new
            ≡ scripts_from context.now verdicts.now unlocking.now locking.now self.old) }
        ensures later { IfNone result (rank self.new.phase < rank self.old.phase) }
    {
        match self.phase {
            Phase::Over(outcome) => Some(Step::Ended(outcome)),
            Phase::Begin => {
                self.open_unlocking(unlocking, locking, context, verdicts);
                None
            }
            Phase::Running(which) => self.pass(which, unlocking, locking, context, verdicts),
        }
    }

    /// Passes one instruction of the script that is run, or goes to a later phase.
    fn pass(
        &mut self,
        which: Which,
        unlocking: &[u8],
        locking: &[u8],
        context: &Context,
        verdicts: &Verdicts,
    ) -> Option<Step>
        requires phase { self.old.phase ≡ Running which }
        requires unlocking { length unlocking.now ≤ LONGEST_BYTECODE }
        requires locking { length locking.now ≤ LONGEST_BYTECODE }
        ensures step { IfSome result (λ step.
            Goes (scripts_from context.now verdicts.now unlocking.now locking.now self.old) step
            (scripts_from context.now verdicts.now unlocking.now locking.now self.new) (stack_of self.new)) }
        ensures stays { IfSome result (λ step. StaysAtEnd step self.new) }
        ensures same { IfNone result
            (scripts_from context.now verdicts.now unlocking.now locking.now self.new
            ≡ scripts_from context.now verdicts.now unlocking.now locking.now self.old) }
        ensures later { IfNone result (rank self.new.phase < rank self.old.phase) }
    {
        let at = self.run.at();
        let script = script_of(which, unlocking, locking, self.redeem.as_slice());
        match self.run.pass(script, context, verdicts) {
            Ok(Some(executed)) => Some(Step::Ran {
                script: which,
                at,
                executed,
            }),
            Ok(None) => {
                self.close(which, unlocking, locking, context, verdicts);
                None
            }
            Err(cause) => {
                self.phase = Phase::Over(MachineOutcome::Refused {
                    script: which,
                    at,
                    cause,
                });
                None
            }
        }
    }

    /// Goes on after the last instruction of a script.
    fn close(
        &mut self,
        which: Which,
        unlocking: &[u8],
        locking: &[u8],
        context: &Context,
        verdicts: &Verdicts,
    )
        requires unlocking { length unlocking.now ≤ LONGEST_BYTECODE }
        requires locking { length locking.now ≤ LONGEST_BYTECODE }
        ensures course { scripts_from context.now verdicts.now unlocking.now locking.now self.new
            ≡ closed_course context.now verdicts.now which unlocking.now locking.now self.old.run.state }
        ensures later { rank self.new.phase < rank (Running which) }
    {
        if self.run.is_open() {
            let at = self.run.at();
            self.refuse(which, at, MachineCause::Unbalanced);
            return;
        }
        match which {
            Which::Unlocking => self.open_locking(unlocking, locking, context, verdicts),
            Which::Locking => self.close_locking(unlocking, locking, context, verdicts),
            Which::Redeem => self.close_redeem(),
        }
    }

    fn refuse(&mut self, script: Which, at: u32, cause: MachineCause)
        ensures { self.new.phase ≡ Over (MachineOutcome.Refused script at cause) }
    {
        self.phase = Phase::Over(MachineOutcome::Refused { script, at, cause });
    }

    /// Begins the unlocking script, where it is pushes alone.
    fn open_unlocking(
        &mut self,
        unlocking: &[u8],
        locking: &[u8],
        context: &Context,
        verdicts: &Verdicts,
    )
        requires { length unlocking.now ≤ LONGEST_BYTECODE }
        ensures course { scripts_from context.now verdicts.now unlocking.now locking.now self.new
            ≡ scripts_course context.now verdicts.now unlocking.now locking.now }
        ensures later { rank self.new.phase < 4 }
    {
        if let Err(outcome) = check_pushes(unlocking) {
            self.phase = Phase::Over(outcome);
        } else if unlocking.len() > LONGEST_SCRIPT {
            self.refuse(Which::Unlocking, 0, MachineCause::ScriptSize);
        } else {
            self.run.begin();
            self.phase = Phase::Running(Which::Unlocking);
        }
    }

    /// Begins the locking script on the stack that is there.
    fn open_locking(
        &mut self,
        unlocking: &[u8],
        locking: &[u8],
        context: &Context,
        verdicts: &Verdicts,
    )
        ensures course { scripts_from context.now verdicts.now unlocking.now locking.now self.new
            ≡ after_unlocking context.now verdicts.now unlocking.now locking.now self.old.run.state }
        ensures later { rank self.new.phase < 3 }
    {
        if locking.len() > LONGEST_SCRIPT {
            self.refuse(Which::Locking, 0, MachineCause::ScriptSize);
        } else {
            self.run.begin_script();
            self.phase = Phase::Running(Which::Locking);
        }
    }

    /// Decides after the locking script, or begins the redeem script.
    fn close_locking(
        &mut self,
        unlocking: &[u8],
        locking: &[u8],
        context: &Context,
        verdicts: &Verdicts,
    )
        requires { length unlocking.now ≤ LONGEST_BYTECODE }
        ensures course { scripts_from context.now verdicts.now unlocking.now locking.now self.new
            ≡ after_locking context.now verdicts.now unlocking.now locking.now self.old.run.state }
        ensures later { rank self.new.phase < 2 }
    {
        if let Err(outcome) = self.run.check_top(Which::Locking, false_cause(locking)) {
            self.phase = Phase::Over(outcome);
        } else if is_p2sh(locking) {
            let last = self.run.last();
            self.open_redeem(last, unlocking, context, verdicts);
        } else {
            self.phase = Phase::Over(self.run.outcome(Which::Locking));
        }
    }

    /// Takes the stack of the unlocking script again, and begins its top, the redeem script, on the rest.
    fn open_redeem(&mut self, last: u32, unlocking: &[u8], context: &Context, verdicts: &Verdicts)
        requires { length unlocking.now ≤ LONGEST_BYTECODE }
        ensures course { (locking : List ℕ) → scripts_from context.now verdicts.now unlocking.now locking self.new
            ≡ redeemed context.now verdicts.now last (stack_left context.now verdicts.now unlocking.now) }
        ensures later { rank self.new.phase < 2 }
    {
        self.run.unlock(unlocking, context, verdicts);
        match self.run.take_script() {
            Some(redeem) => {
                self.redeem = redeem;
                self.phase = Phase::Running(Which::Redeem);
            }
            None => self.refuse(Which::Locking, last, MachineCause::EndEmpty),
        }
    }

    /// Decides after the redeem script.
    fn close_redeem(&mut self)
        ensures course { (context : Transaction (List ℕ)) (verdicts : List Verdict) (unlocking locking : List ℕ)
            → scripts_from context verdicts unlocking locking self.new ≡ after_redeem self.old.run.state }
        ensures later { rank self.new.phase < 1 }
    {
        if let Err(outcome) = self.run.check_top(Which::Redeem, MachineCause::EndFalse) {
            self.phase = Phase::Over(outcome);
        } else {
            self.phase = Phase::Over(self.run.outcome(Which::Redeem));
        }
    }
}

/// The bytes of a script.
fn script_of<'a>(which: Which, unlocking: &'a [u8], locking: &'a [u8], redeem: &'a [u8]) -> &'a [u8]
    ensures { result.now ≡ script_of which unlocking.now locking.now redeem.now }
{
    match which {
        Which::Unlocking => unlocking,
        Which::Locking => locking,
        Which::Redeem => redeem,
    }
}

/// The cause of a false top after a locking script.
fn false_cause(locking: &[u8]) -> MachineCause
    ensures { result ≡ Spend.false_cause locking.now }
{
    if is_p2sh(locking) {
        MachineCause::HashDiffers
    } else {
        MachineCause::EndFalse
    }
}

/// That an unlocking script is pushes alone, or the refusal of its first instruction that is no push.
fn check_pushes(unlocking: &[u8]) -> Result<(), MachineOutcome>
    requires { length unlocking.now ≤ LONGEST_BYTECODE }
    ensures ok { OnOk result (push_check 0 (reading unlocking.now) ≡ Gives tt) }
    ensures err { IfErr result (λ outcome. push_check 0 (reading unlocking.now) ≡ Stops outcome) }
{
    let mut place = 0;
    let mut at = 0;
    let script = Which::Unlocking;
    'script: loop {
        match next_instr(unlocking, place) {
            Ok(Some((instr, next))) => {
                if instr.opcode > 0x60 {
                    let cause = MachineCause::NotPushOnly;
                    return Err(MachineOutcome::Refused { script, at, cause });
                }
                place = next;
            }
            Ok(None) => return Ok(()),
            Err(_) => {
                let cause = MachineCause::Truncated;
                return Err(MachineOutcome::Refused { script, at, cause });
            }
        }
        at += 1;
    }
}

/// The unlocking bytecode of the input that is spent.
#[tactic(auto, using(crate::proofs::Spent::unlocking_is))]
fn unlocking_of(context: &Context) -> &[u8]
    ensures value { result.now ≡ (spent_input context.now).unlocking }
    ensures bound { length result.now ≤ LONGEST_BYTECODE }
{
    context.spent_input().unlocking.as_slice()
}

/// The locking bytecode of the input that is spent.
#[tactic(auto, using(crate::proofs::Spent::locking_is))]
fn locking_of(context: &Context) -> &[u8]
    ensures value { result.now ≡ (spent_input context.now).locking }
    ensures bound { length result.now ≤ LONGEST_BYTECODE }
{
    context.spent_input().locking.as_slice()
}

/// Instructions that stand one after the other run as the first and then the second, and so they are executed.
pub fn runs_in_turn()
    ensures states { (setting : Setting) (first second : List Instr) → RunsInTurn setting first second }
    ensures executed { (setting : Setting) (first second : List Instr) → ExecutesInTurn setting first second }
{}
