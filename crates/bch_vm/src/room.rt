//! Both stacks, the open conditions and the place of the separator, and what an instruction does to them.

ghost use Rattle.std.specs.Prelude.{◌≡◌, ◌≢◌, ◌↔◌, ◌+◌, ◌≤◌, ◌<◌, Bool, not, List, [], ◌∷◌, length, IfOk, IfErr, OnOk, OnErr, IfSome, IfNone, IsTrue, Ok, Err, map, reverse};
ghost use Rattle.script_codec.specs.Counting;
ghost use Rattle.script_codec.specs.Counting.{weight};
ghost use Rattle.cash_base.specs.Number.{truth_of};
ghost use Rattle.opcode_table.specs.Table.{is_modest, is_modest_row};
ghost use Rattle.opcode_table.specs.Deeds.{done, done_and_verified};
ghost use Rattle.bch_vm.specs.Setting.{around_of, asked_at};
ghost use Rattle.bch_vm.specs.Board;
ghost use Rattle.bch_vm.specs.Board.{Board, board, board_after, limited_after, row_after, opened, opened_where, on_conditions, on_stack, flipped, closed, test_taken, sensed, laid_from, fetched_from, separated, executed, outer, ends_block};
ghost use Rattle.bch_vm.specs.Opening.{opening, row_opening};

use crate::surroundings::{Surroundings, active};
use arrayvec::ArrayVec;
use cash_base::element::copy_of;
use cash_base::{Element, MachineCause, Memory, truth};
use opcode_table::{Asks, Deed, Elements, Row, row_of};
use script_codec::{Instr, Opcode};
use std::alloc::Global;
use std::marker::Model;

/// The most elements on both stacks after an instruction.
const MOST_ELEMENTS: usize = 1000;

const IF: u8 = 0x63;

const ELSE: u8 = 0x67;

const ENDIF: u8 = 0x68;

/// Both stacks, the open conditions, of which at most 201 are open, and one more within an instruction, and the place after the
/// last executed separator, or 0.
///
/// Contracts see them with the top and the innermost first.
#[derive(Drop)]
pub struct Room {
    stack: Elements,
    alternate: Elements,
    conditions: ArrayVec<bool, 202>,
    separator: usize,
}

impl Model for Room {
    ghost use Rattle.std.specs.Prelude.{reverse};
    ghost use Rattle.bch_vm.specs.Board.{Board, board};

    ghost Value = { Board };

    ghost view = { λ room. board room.stack room.alternate (reverse room.conditions.items) room.separator };
}

impl Room {
    /// Empty stacks, whose rooms are reserved, and no condition.
    pub fn new(alloc: Global) -> Result<Room, Memory>
        ensures { IfOk result (λ room. room ≡ board [] [] [] 0) }
    {
        Ok(Room {
            stack: Elements::new(alloc)?,
            alternate: Elements::new(alloc)?,
            conditions: ArrayVec::new(),
            separator: 0,
        })
    }

    /// The elements of the stack, the top last.
    pub fn stack(&self) -> &[Element]
        ensures { reverse (map (λ e. e.items) result.now) ≡ self.now.stack }
    {
        self.stack.as_slice()
    }

    /// How many elements both stacks have.
    pub fn height(&self) -> usize
        requires { Board.height self.now ≤ 1003 }
        ensures { result ≡ Board.height self.now }
    {
        self.stack.len() + self.alternate.len()
    }

    pub fn clear(&mut self)
        ensures { self.new ≡ board [] [] [] 0 }
    {
        self.stack.clear();
        self.begin_script();
    }

    /// Begins a script on the stack that is there.
    pub fn begin_script(&mut self)
        ensures { self.new ≡ board self.old.stack [] [] 0 }
    {
        self.alternate.clear();
        self.conditions.clear();
        self.separator = 0;
    }

    /// Takes the top of the stack.
    pub fn pop(&mut self) -> Option<Element>
        ensures some { IfSome result (λ e. self.old
            ≡ board (e.items ∷ self.new.stack) self.new.alternate self.new.conditions self.new.separator) }
        ensures none { IfNone result (self.old.stack ≡ []) }
        ensures same { IfNone result (self.new ≡ self.old) }
    {
        self.stack.pop()
    }

    /// Whether a condition is open.
    pub fn is_open(&self) -> bool
        ensures { IsTrue result ↔ (self.now.conditions ≢ []) }
    {
        !self.conditions.is_empty()
    }

    /// Whether all open conditions are true.
    #[tactic(auto, using(crate::proofs::Conditions::list_all_reverse))]
    pub fn is_live(&self) -> bool
        ensures { result ≡ Board.is_live self.now.conditions }
    {
        are_all_true(self.conditions.as_slice())
    }

    /// Does one instruction, and refuses more than 1,000 elements after it. A refusal leaves nothing.
    pub fn exec_limited(
        &mut self,
        instr: &Instr,
        around: &Surroundings<'_>,
    ) -> Result<(), MachineCause>
        requires elements { Board.height self.old ≤ 1000 }
        requires conditions { length self.old.conditions ≤ 201 }
        ensures ok { OnOk result (limited_after (around_of around.now) instr.now self.old ≡ Ok self.new) }
        ensures err { IfErr result (λ cause. limited_after (around_of around.now) instr.now self.old ≡ Err cause) }
        ensures height { Board.height self.new ≤ 1000 }
        ensures opened { OnOk result (length self.new.conditions ≤ length self.old.conditions + opening instr.now) }
        ensures keys { OnOk result (Board.keys_counted instr.now self.old ≤ around.now.left) }
        ensures cleared { OnErr result (self.new ≡ board [] [] [] 0) }
    {
        if let Err(cause) = self.exec(instr, around) {
            self.clear();
            return Err(cause);
        }
        if self.height() > MOST_ELEMENTS {
            self.clear();
            return Err(MachineCause::StackLimit);
        }
        Ok(())
    }

    /// Does one instruction.
    #[tactic(auto, using(crate::proofs::Openings::opens_counted))]
    fn exec(&mut self, instr: &Instr, around: &Surroundings<'_>) -> Result<(), MachineCause>
        requires elements { Board.height self.old ≤ 1000 }
        requires conditions { length self.old.conditions ≤ 201 }
        ensures ok { OnOk result (board_after (around_of around.now) instr.now self.old ≡ Ok self.new) }
        ensures err { IfErr result (λ cause. board_after (around_of around.now) instr.now self.old ≡ Err cause) }
        ensures height { Board.height self.new ≤ Board.height self.old + 3 }
        ensures opened { length self.new.conditions ≤ length self.old.conditions + opening instr.now }
        ensures keys { OnOk result (Board.keys_counted instr.now self.old ≤ around.now.left) }
    {
        match instr {
            Instr::Push(e) => {
                if self.is_live() {
                    self.stack.push(copy_of(e.as_slice()));
                }
                Ok(())
            }
            Instr::Do(opcode) => Ok(self.row(row_of(opcode.0), around)?),
        }
    }

    /// Does an opcode of a row, in a branch that is taken or not.
    fn row(&mut self, row: Row, around: &Surroundings<'_>) -> Result<(), MachineCause>
        requires elements { Board.height self.old ≤ 1000 }
        requires conditions { length self.old.conditions ≤ 201 }
        requires modest { IsTrue (is_modest_row row) }
        ensures ok { OnOk result (row_after (around_of around.now) row self.old ≡ Ok self.new) }
        ensures err { IfErr result (λ cause. row_after (around_of around.now) row self.old ≡ Err cause) }
        ensures height { Board.height self.new ≤ Board.height self.old + 3 }
        ensures opened { length self.new.conditions ≤ length self.old.conditions + row_opening row }
    {
        match row {
            Row::Never(cause) => Err(cause),
            Row::Opens(sense) => Ok(self.open_by(sense)?),
            Row::Flips => Ok(self.flip()?),
            Row::Closes => Ok(self.close()?),
            Row::Lays => Ok(self.lay()?),
            Row::Fetches => Ok(self.fetch()?),
            Row::Separates => {
                self.separate(around.next);
                Ok(())
            }
            Row::Does(deed) => Ok(self.act(deed, around)?),
            Row::DoesAndVerifies(deed) => Ok(self.act_and_verify(deed, around)?),
        }
    }

    // ---- the opcodes of conditions

    /// Takes the test of a condition, or its contrary.
    fn take_test(&mut self, sense: bool) -> Result<bool, MachineCause>
        ensures ok { IfOk result (λ test. test_taken sense self.old.stack ≡ Ok (test, self.new.stack)) }
        ensures err { IfErr result (λ cause. test_taken sense self.old.stack ≡ Err cause) }
        ensures alternate { self.new.alternate ≡ self.old.alternate }
        ensures conditions { self.new.conditions ≡ self.old.conditions }
        ensures separator { self.new.separator ≡ self.old.separator }
        ensures height { length self.new.stack ≤ length self.old.stack }
    {
        match self.stack.pop() {
            Some(e) => Ok(sensed(sense, truth(e.as_slice()))),
            None => Err(MachineCause::Unbalanced),
        }
    }

    fn open(&mut self, condition: bool)
        requires { length self.old.conditions ≤ 201 }
        ensures { self.new ≡ board self.old.stack self.old.alternate (condition ∷ self.old.conditions) self.old.separator }
    {
        self.conditions.push(condition);
    }

    /// IF and NOTIF.
    fn open_by(&mut self, sense: bool) -> Result<(), MachineCause>
        requires { length self.old.conditions ≤ 201 }
        ensures ok { OnOk result (opened sense self.old ≡ Ok self.new) }
        ensures err { IfErr result (λ cause. opened sense self.old ≡ Err cause) }
        ensures height { Board.height self.new ≤ Board.height self.old }
        ensures opened { length self.new.conditions ≤ length self.old.conditions + 1 }
    {
        if !self.is_live() {
            self.open(false);
            return Ok(());
        }
        let condition = self.take_test(sense)?;
        self.open(condition);
        Ok(())
    }

    /// ELSE.
    fn flip(&mut self) -> Result<(), MachineCause>
        requires { length self.old.conditions ≤ 201 }
        ensures ok { OnOk result (on_conditions flipped self.old ≡ Ok self.new) }
        ensures err { IfErr result (λ cause. on_conditions flipped self.old ≡ Err cause) }
        ensures height { Board.height self.new ≤ Board.height self.old }
        ensures opened { length self.new.conditions ≤ length self.old.conditions }
    {
        let Some(innermost) = self.conditions.pop() else {
            return Err(MachineCause::Unbalanced);
        };
        self.open(!innermost);
        Ok(())
    }

    /// ENDIF.
    fn close(&mut self) -> Result<(), MachineCause>
        requires { length self.old.conditions ≤ 201 }
        ensures ok { OnOk result (on_conditions closed self.old ≡ Ok self.new) }
        ensures err { IfErr result (λ cause. on_conditions closed self.old ≡ Err cause) }
        ensures height { Board.height self.new ≤ Board.height self.old }
        ensures opened { length self.new.conditions ≤ length self.old.conditions }
    {
        match self.conditions.pop() {
            Some(_) => Ok(()),
            None => Err(MachineCause::Unbalanced),
        }
    }

    // ---- the others, where they are executed

    /// TOALTSTACK.
    fn lay(&mut self) -> Result<(), MachineCause>
        requires { Board.height self.old ≤ 1000 }
        ensures ok { OnOk result (executed (laid_from self.old.stack) self.old ≡ Ok self.new) }
        ensures err { IfErr result (λ cause. executed (laid_from self.old.stack) self.old ≡ Err cause) }
        ensures height { Board.height self.new ≤ Board.height self.old }
        ensures same { self.new.conditions ≡ self.old.conditions }
    {
        if !self.is_live() {
            return Ok(());
        }
        match self.stack.pop() {
            Some(e) => {
                self.alternate.push(e);
                Ok(())
            }
            None => Err(MachineCause::Underflow),
        }
    }

    /// FROMALTSTACK.
    fn fetch(&mut self) -> Result<(), MachineCause>
        requires { Board.height self.old ≤ 1000 }
        ensures ok { OnOk result (executed (fetched_from self.old.alternate) self.old ≡ Ok self.new) }
        ensures err { IfErr result (λ cause. executed (fetched_from self.old.alternate) self.old ≡ Err cause) }
        ensures height { Board.height self.new ≤ Board.height self.old }
        ensures same { self.new.conditions ≡ self.old.conditions }
    {
        if !self.is_live() {
            return Ok(());
        }
        match self.alternate.pop() {
            Some(e) => {
                self.stack.push(e);
                Ok(())
            }
            None => Err(MachineCause::AltEmpty),
        }
    }

    /// CODESEPARATOR.
    fn separate(&mut self, next: usize)
        ensures value { executed (separated next) self.old ≡ Ok self.new }
        ensures height { Board.height self.new ≤ Board.height self.old }
        ensures same { self.new.conditions ≡ self.old.conditions }
    {
        if self.is_live() {
            self.separator = next;
        }
    }

    /// What an opcode may ask here.
    fn asks<'a>(&self, around: &Surroundings<'a>) -> Asks<'a>
        ensures { result ≡ asked_at (around_of around.now) self.now.separator }
    {
        Asks {
            context: around.context,
            verdicts: around.verdicts,
            active: active(around.script, self.separator),
            left: around.left,
        }
    }

    fn act(&mut self, deed: Deed, around: &Surroundings<'_>) -> Result<(), MachineCause>
        requires elements { Board.height self.old ≤ 1000 }
        requires modest { IsTrue (is_modest deed) }
        ensures ok { OnOk result
            (executed (on_stack (done (asked_at (around_of around.now) self.old.separator) deed)) self.old ≡ Ok self.new) }
        ensures err { IfErr result (λ cause.
            executed (on_stack (done (asked_at (around_of around.now) self.old.separator) deed)) self.old ≡ Err cause) }
        ensures height { Board.height self.new ≤ Board.height self.old + 3 }
        ensures same { self.new.conditions ≡ self.old.conditions }
    {
        if !self.is_live() {
            return Ok(());
        }
        let asks = self.asks(around);
        self.stack.act(deed, &asks)?;
        Ok(())
    }

    fn act_and_verify(&mut self, deed: Deed, around: &Surroundings<'_>) -> Result<(), MachineCause>
        requires elements { Board.height self.old ≤ 1000 }
        requires modest { IsTrue (is_modest deed) }
        ensures ok { OnOk result
            (executed (on_stack (done_and_verified (asked_at (around_of around.now) self.old.separator) deed)) self.old
            ≡ Ok self.new) }
        ensures err { IfErr result (λ cause.
            executed (on_stack (done_and_verified (asked_at (around_of around.now) self.old.separator) deed)) self.old
            ≡ Err cause) }
        ensures height { Board.height self.new ≤ Board.height self.old + 3 }
        ensures same { self.new.conditions ≡ self.old.conditions }
    {
        if !self.is_live() {
            return Ok(());
        }
        let asks = self.asks(around);
        self.stack.act_and_verify(deed, &asks)?;
        Ok(())
    }

    // ---- what is known of an instruction before it is done

    /// How many keys an instruction counts here.
    pub fn keys_counted(&self, instr: &Instr) -> u32
        ensures value { result ≡ Board.keys_counted instr.now self.now }
        ensures bound { result ≤ 20 }
    {
        match instr {
            Instr::Push(_) => 0,
            Instr::Do(opcode) => {
                if self.is_live() && takes_keys(opcode.0) {
                    self.stack.keys()
                } else {
                    0
                }
            }
        }
    }

    /// Whether an instruction counts as executed here.
    pub fn is_executed(&self, instr: &Instr) -> bool
        ensures { result ≡ Board.is_executed instr.now self.now.conditions }
    {
        match instr {
            Instr::Do(Opcode(ELSE | ENDIF)) => self.is_live_outside(),
            _ => self.is_live(),
        }
    }

    /// Whether all open conditions but the innermost are true.
    #[tactic(auto, using(crate::proofs::Conditions::list_all_reverse))]
    fn is_live_outside(&self) -> bool
        ensures { result ≡ Board.is_live (outer self.now.conditions) }
    {
        let open = self.conditions.as_slice();
        match open.split_last() {
            Some((_, around)) => are_all_true(around),
            None => true,
        }
    }

    /// Whether an instruction is executed here, and is no IF, NOTIF, ELSE or ENDIF.
    pub fn is_effective(&self, instr: &Instr) -> bool
        ensures { result ≡ Board.is_effective instr.now self.now.conditions }
    {
        match instr {
            Instr::Push(_) => self.is_live(),
            Instr::Do(opcode) => self.is_live() && !is_condition(opcode.0),
        }
    }
}

/// Whether all conditions are true, in whichever order.
fn are_all_true(conditions: &[bool]) -> bool
    ensures { result ≡ Board.is_live conditions.now }
{
    conditions.iter().all(|c| *c)
}

/// A truth, or the contrary.
fn sensed(sense: bool, truth: bool) -> bool
    ensures { result ≡ Board.sensed sense truth }
{
    if sense { truth } else { !truth }
}

/// CHECKMULTISIG and CHECKMULTISIGVERIFY.
fn takes_keys(opcode: u8) -> bool
    ensures { result ≡ Counting.takes_keys opcode }
{
    matches!(opcode, 0xae | 0xaf)
}

/// IF, NOTIF, VERIF, VERNOTIF, ELSE and ENDIF.
fn is_condition(opcode: u8) -> bool
    ensures { result ≡ Board.is_condition opcode }
{
    (IF..=ENDIF).contains(&opcode)
}
