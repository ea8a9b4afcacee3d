//! The run of one script with all checks, an instruction at a time.

ghost use Rattle.std.specs.Prelude.{◌≡◌, ◌≢◌, ◌↔◌, IsTrue, ◌+◌, ◌-◌, ◌≤◌, ◌<◌, ℕ, List, [], ◌∷◌, length, drop, map, reverse, IfOk, IfErr, OnOk, OnErr, IfSome, IfNone, Ok, Err, Some, None};
ghost use Rattle.script_codec.specs.Reading.{instruction, size_of};
ghost use Rattle.script_codec.specs.Places.{raw_in};
ghost use Rattle.bch_vm.specs.declared.outcome.Which.{Which};
ghost use Rattle.bch_vm.specs.declared.outcome.Which.TheVariants.{Unlocking};
ghost use Rattle.bch_vm.specs.Board.{board, is_executed};
ghost use Rattle.bch_vm.specs.Script.{raw_after, state_of, counted, state, beginning, balanced};
ghost use Rattle.bch_vm.specs.Course.{Gives, Stops};
ghost use Rattle.bch_vm.specs.Spend;
ghost use Rattle.bch_vm.specs.Spend.{top_check, clean, stack_left, given_stack, told};
ghost use Rattle.bch_vm.specs.Setting.{setting_of};
ghost use Rattle.bch_vm.specs.Position.{IsPassed};

use crate::outcome::{MachineOutcome, Which};
use crate::room::Room;
use crate::surroundings::Surroundings;
use cash_base::{Element, MAX_ELEMENT_LEN, MachineCause, Memory, truth};
use script_codec::{RawInstr, next_instr, weight};
use std::alloc::Global;
use std::marker::Model;
use tx_context::{Context, LONGEST_BYTECODE, Verdicts};

/// The most bytes that are pushed at once.
const LONGEST_PUSH: u32 = MAX_ELEMENT_LEN as u32;
/// The most opcodes that are counted in a script.
const MOST_OPCODES: u32 = 201;
/// The most bytes of a script.
pub const LONGEST_SCRIPT: usize = 10_000;

/// Where a run of a script is: the stacks and conditions, the place of the next instruction in the script's bytes, its
/// index, the index of the last that was executed and is no IF, NOTIF, ELSE or ENDIF, and how many opcodes were counted.
#[derive(Drop)]
pub struct Run {
    room: Room,
    place: usize,
    at: u32,
    last: u32,
    count: u32,
}

impl Model for Run {
    ghost use Rattle.bch_vm.specs.Script.{Counted, counted, state_of};
    ghost use Rattle.bch_vm.specs.Position.{IsBounded};

    ghost Value = { Counted };

    ghost view = { λ run. counted (state_of run.room (record { at = run.at; last = run.last; place = run.place })) run.count };

    ghost invariant = { λ run. IsBounded
        (counted (state_of run.room (record { at = run.at; last = run.last; place = run.place })) run.count) };
}

impl Run {
    /// A run with an empty stack, whose room is reserved.
    pub fn new(alloc: Global) -> Result<Run, Memory>
        ensures { IfOk result (λ run. run ≡ counted (state [] beginning) 0) }
    {
        Ok(Run {
            room: Room::new(alloc)?,
            place: 0,
            at: 0,
            last: 0,
            count: 0,
        })
    }

    /// The elements of the stack, the top last.
    pub fn stack(&self) -> &[Element]
        ensures { reverse (map (λ e. e.items) result.now) ≡ self.now.state.board.stack }
    {
        self.room.stack()
    }

    /// How many instructions were passed.
    pub fn at(&self) -> u32
        ensures { result ≡ self.now.state.progress.at }
    {
        self.at
    }

    /// The index of the last executed instruction other than IF, NOTIF, ELSE and ENDIF, or 0.
    pub fn last(&self) -> u32
        ensures { result ≡ self.now.state.progress.last }
    {
        self.last
    }

    /// Begins a script with an empty stack.
    pub fn begin(&mut self)
        ensures { self.new ≡ counted (state [] beginning) 0 }
    {
        self.room.clear();
        self.begin_script();
    }

    /// Begins a script on the stack that is there.
    pub fn begin_script(&mut self)
        ensures { self.new ≡ counted (state self.old.state.board.stack beginning) 0 }
    {
        self.room.begin_script();
        self.place = 0;
        self.at = 0;
        self.last = 0;
        self.count = 0;
    }

    /// Whether a condition is open.
    pub fn is_open(&self) -> bool
        ensures { IsTrue result ↔ (self.now.state.board.conditions ≢ []) }
    {
        self.room.is_open()
    }

    /// Takes the top of the stack, and begins a script on the rest.
    pub fn take_script(&mut self) -> Option<Element>
        ensures some { IfSome result (λ e. self.old.state.board.stack ≡ e.items ∷ self.new.state.board.stack) }
        ensures begun { IfSome result (λ e. self.new
            ≡ counted (state self.new.state.board.stack beginning) 0) }
        ensures none { IfNone result (self.old.state.board.stack ≡ []) }
    {
        let top = self.room.pop()?;
        self.begin_script();
        Some(top)
    }

    /// That the top of the stack is true at the end of a script, or the refusal.
    pub fn check_top(&self, script: Which, cause: MachineCause) -> Result<(), MachineOutcome>
        ensures ok { OnOk result
            (top_check script cause self.now.state.progress.last self.now.state.board.stack ≡ Gives tt) }
        ensures err { IfErr result (λ outcome.
            top_check script cause self.now.state.progress.last self.now.state.board.stack ≡ Stops outcome) }
    {
        let at = self.last;
        let Some(top) = self.room.stack().last() else {
            let cause = MachineCause::EndEmpty;
            return Err(MachineOutcome::Refused { script, at, cause });
        };
        if truth(top.as_slice()) {
            Ok(())
        } else {
            Err(MachineOutcome::Refused { script, at, cause })
        }
    }

    /// Whether the top of the stack is its only element: the outcome of the spend.
    pub fn outcome(&self, script: Which) -> MachineOutcome
        ensures { result ≡ clean script self.now.state.progress.last self.now.state.board.stack }
    {
        if self.room.stack().len() == 1 {
            return MachineOutcome::Accepted;
        }
        let at = self.last;
        let cause = MachineCause::NotClean;
        MachineOutcome::Refused { script, at, cause }
    }

    /// Takes the stack that an unlocking script leaves.
    pub fn unlock(&mut self, unlocking: &[u8], context: &Context, verdicts: &Verdicts)
        requires { length unlocking.now ≤ LONGEST_BYTECODE }
        ensures { self.new.state.board.stack ≡ stack_left context.now verdicts.now unlocking.now }
    {
        self.begin();
        if unlocking.len() > LONGEST_SCRIPT {
            return;
        }
        'script: loop {
            match self.pass(unlocking, context, verdicts) {
                Ok(Some(_)) => {}
                Ok(None) => return self.clear_if_open(),
                Err(_) => return self.begin(),
            }
        }
    }

    /// Leaves nothing where a condition is open.
    fn clear_if_open(&mut self)
        ensures { self.new.state.board.stack
            ≡ given_stack (told Unlocking (balanced self.old.state.board.conditions self.old.state)) }
    {
        if self.is_open() {
            self.begin();
        }
    }

    /// Passes the next instruction of a script, if there is one, and tells whether it was executed.
    pub fn pass(
        &mut self,
        script: &[u8],
        context: &Context,
        verdicts: &Verdicts,
    ) -> Result<Option<bool>, MachineCause>
        requires { length script.now ≤ LONGEST_BYTECODE }
        ensures { (which : Which) →
            IsPassed (setting_of context.now verdicts.now script.now) which script.now self.old result self.new }
    {
        if self.place >= script.len() {
            return Ok(None);
        }
        match next_instr(script, self.place) {
            Ok(Some((raw, next))) => Ok(Some(self.pass_raw(
                script, &raw, next, context, verdicts,
            )?)),
            Ok(None) => Ok(None),
            Err(_) => Err(MachineCause::Truncated),
        }
    }

    /// Passes an instruction.
    fn pass_raw(
        &mut self,
        script: &[u8],
        raw: &RawInstr,
        next: usize,
        context: &Context,
        verdicts: &Verdicts,
    ) -> Result<bool, MachineCause>
        requires ordered { raw.now.from ≤ raw.now.to }
        requires inside { raw.now.to ≤ length script.now }
        requires after { self.old.state.progress.place < next }
        requires size { next ≡ self.old.state.progress.place + size_of (raw_in script.now raw.now) }
        requires within { next ≤ LONGEST_BYTECODE }
        ensures ok { OnOk result
            (raw_after (setting_of context.now verdicts.now script.now) (raw_in script.now raw.now) self.old ≡ Ok self.new) }
        ensures executed { IfOk result (λ executed.
            executed ≡ is_executed (instruction (raw_in script.now raw.now)) self.old.state.board.conditions) }
        ensures place { OnOk result (self.new.state.progress.place ≡ next) }
        ensures err { IfErr result (λ cause.
            raw_after (setting_of context.now verdicts.now script.now) (raw_in script.now raw.now) self.old ≡ Err cause) }
    {
        if raw.to - raw.from > LONGEST_PUSH {
            return Err(MachineCause::PushSize);
        }
        let count = self.count + weight(raw.opcode);
        if count > MOST_OPCODES {
            return Err(MachineCause::OpLimit);
        }
        if self.room.is_live() && !raw.is_minimal(script) {
            return Err(MachineCause::NotMinimal);
        }
        let instr = raw.meaning(script);
        let executed = self.room.is_executed(&instr);
        let effective = self.room.is_effective(&instr);
        let keys = self.room.keys_counted(&instr);
        let around = Surroundings {
            context,
            verdicts,
            script,
            next,
            left: MOST_OPCODES - count,
        };
        self.room.exec_limited(&instr, &around)?;
        if effective {
            self.last = self.at;
        }
        self.at += 1;
        self.count = count + keys;
        self.place = next;
        Ok(executed)
    }
}

/// Whether a locking script is HASH160, a push of 20 bytes and EQUAL.
///
/// Source: BIP 16.
pub fn is_p2sh(script: &[u8]) -> bool
    ensures { result ≡ Spend.is_p2sh script.now }
{
    script.len() == 23 && script[0] == 0xa9 && script[1] == 0x14 && script[22] == 0x87
}
