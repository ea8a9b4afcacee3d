//! Rows are emitted, and the place where the values stand is kept.

ghost use Rattle.std.specs.Prelude.{◌≡◌, ℕ, ◌+◌, ◌-◌, ◌*◌, ◌<◌, ◌≤◌, ◌^◌, [], ◌∷◌, ◌++◌, length, drop, filter, replicate, if◌then◌else◌, Some, None, pos, IsTrue, OnOk, true, false};
ghost use Rattle.cash_base.specs.declared.place.Span.{Span};
ghost use Rattle.cash_base.specs.Number.{minimal_bytes};
ghost use Rattle.script_codec.specs.declared.instr.Instr.TheVariants.{Do};
ghost use Rattle.script_codec.specs.Reading.{push};
ghost use Rattle.slot_code.specs.Shape.{has};
ghost use Rattle.slot_liveness.specs.Counts.{is_slot, place_of, less, count_of};
ghost use Rattle.stack_emitter.specs.Places.{spot};
ghost use Rattle.stack_emitter.specs.Codes.{bytes_of, ops_of, row_bytes, row_ops};
ghost use Rattle.stack_emitter.specs.Correct.{Deed, Adds, Ends, EndCosts, Costs, nothing, lit_deed, get_deed, drop_deed, keep_deed, lower_deed, store_deed, pair_deed, check_deed};

use crate::place::Place;
use cash_base::element::copy_of;
use cash_base::{Element, Slot, Span, write_number};
use script_codec::{Instr, Opcode, Spanned};
use slot_liveness::live::contains;
use std::alloc::{AllocError, Global};

const NOP: Opcode = Opcode(0x61);

pub const DROP: Opcode = Opcode(0x75);

pub const NIP: Opcode = Opcode(0x77);

const PICK: Opcode = Opcode(0x79);

const ROLL: Opcode = Opcode(0x7a);

/// The element of how deep a value lies.
#[tactic(auto, using(crate::proofs::Sizes::depth_bytes))]
fn depth_element(below: usize) -> Element
    requires { below < 32768 }
    ensures number { result.items ≡ minimal_bytes (pos below) }
    ensures size { row_bytes (push result.items) ≤ 3 }
{
    write_number(below as i64)
}

/// The code so far, and where the values stand after it.
#[derive(Drop)]
pub struct Emitter {
    pub alloc: Global,
    pub code: Vec<Spanned>,
    pub place: Place,
}

impl Emitter {
    /// One more row.
    #[tactic(auto, using(crate::proofs::Sizes::bytes_more, crate::proofs::Sizes::ops_more))]
    pub fn put(&mut self, instr: Instr, doing: Span, checking: Span) -> Result<(), AllocError>
        ensures code { OnOk result
            (self.new.code.items ≡ self.old.code.items ++ record { instr = instr; doing = doing; checking = checking } ∷ []) }
        ensures place { self.new.place ≡ self.old.place }
        ensures bytes { OnOk result (bytes_of self.new.code.items ≡ bytes_of self.old.code.items + row_bytes instr) }
        ensures ops { OnOk result (ops_of self.new.code.items ≡ ops_of self.old.code.items + row_ops instr) }
    {
        self.code.push(Spanned {
            instr,
            doing,
            checking,
        })?;
        Ok(())
    }

    /// A row at which a block begins or ends, and the place before the next block.
    pub fn branch(
        &mut self,
        instr: Instr,
        slots: Vec<Slot>,
        doing: Span,
        checking: Span,
    ) -> Result<(), AllocError>
        ensures code { OnOk result
            (self.new.code.items ≡ self.old.code.items ++ record { instr = instr; doing = doing; checking = checking } ∷ []) }
        ensures place { OnOk result (self.new.place ≡ spot [] slots.items) }
    {
        self.put(instr, doing, checking)?;
        self.place = Place::of_slots(self.alloc, slots);
        Ok(())
    }

    /// An element.
    pub fn lit(&mut self, element: &Element, doing: Span, checking: Span) -> Result<(), AllocError>
        ensures emits { OnOk result (Adds doing checking self.old self.new (lit_deed element.now.items)) }
        ensures code { OnOk result
            (self.new.code.items
            ≡ self.old.code.items ++ record { instr = push element.now.items; doing = doing; checking = checking } ∷ []) }
        ensures place { OnOk result
            (self.new.place ≡ spot (Some element.now.items ∷ self.old.place.operands) self.old.place.slots) }
        ensures costs { OnOk result (Costs self.old self.new (row_bytes (push element.now.items)) 0) }
    {
        let pushed = copy_of(element.as_slice());
        self.put(Instr::Push(pushed), doing, checking)?;
        let known = copy_of(element.as_slice());
        self.place.put(Some(known))?;
        Ok(())
    }

    /// A copy of a slot's value.
    fn get(&mut self, slot: Slot, doing: Span, checking: Span) -> Result<(), AllocError>
        requires room { length self.old.place.operands + length self.old.place.slots < 32768 }
        requires defined { IsTrue (has slot self.old.place.slots) }
        ensures emits { OnOk result (Adds doing checking self.old self.new (get_deed slot)) }
        ensures place { OnOk result (self.new.place ≡ spot (None ∷ self.old.place.operands) self.old.place.slots) }
        ensures costs { OnOk result (Costs self.old self.new 4 1) }
    {
        let below = self.place.below(slot);
        let depth = depth_element(below);
        self.put(Instr::Push(depth), doing, checking)?;
        self.put(Instr::Do(PICK), doing, checking)?;
        self.place.put(None)?;
        Ok(())
    }

    /// A slot's value, which no longer stands among the slots.
    fn take(&mut self, slot: Slot, doing: Span, checking: Span) -> Result<(), AllocError>
        requires room { length self.old.place.operands + length self.old.place.slots < 32768 }
        requires defined { IsTrue (has slot self.old.place.slots) }
        ensures emits { OnOk result (Adds doing checking self.old self.new (get_deed slot)) }
        ensures place { OnOk result
            (self.new.place ≡ spot (None ∷ self.old.place.operands) (less slot self.old.place.slots)) }
        ensures costs { OnOk result (Costs self.old self.new 4 1) }
    {
        let below = self.place.below(slot);
        let depth = depth_element(below);
        self.put(Instr::Push(depth), doing, checking)?;
        self.put(Instr::Do(ROLL), doing, checking)?;
        self.place.leave(slot);
        self.place.put(None)?;
        Ok(())
    }

    /// Reads a slot, which stays where it is to be kept.
    pub fn read(
        &mut self,
        slot: Slot,
        kept: bool,
        doing: Span,
        checking: Span,
    ) -> Result<(), AllocError>
        requires room { length self.old.place.operands + length self.old.place.slots < 32768 }
        requires defined { IsTrue (has slot self.old.place.slots) }
        ensures emits { OnOk result (Adds doing checking self.old self.new (get_deed slot)) }
        ensures place { OnOk result
            (self.new.place
            ≡ spot (None ∷ self.old.place.operands) (if kept then self.old.place.slots else less slot self.old.place.slots)) }
        ensures costs { OnOk result (Costs self.old self.new 4 1) }
    {
        if kept {
            self.get(slot, doing, checking)?;
            Ok(())
        } else {
            self.take(slot, doing, checking)?;
            Ok(())
        }
    }

    /// So many operands whose elements aren't known.
    fn give(&mut self, given: usize) -> Result<(), AllocError>
        ensures code { OnOk result (self.new.code ≡ self.old.code) }
        ensures place { OnOk result
            (self.new.place ≡ spot (replicate given None ++ self.old.place.operands) self.old.place.slots) }
    {
        for i in 0..given {
            self.place.put(None)?;
        }
        Ok(())
    }

    /// An opcode that takes so many operands and gives so many.
    pub fn work(
        &mut self,
        opcode: Opcode,
        taken: usize,
        given: usize,
        doing: Span,
        checking: Span,
    ) -> Result<(), AllocError>
        requires { taken ≤ length self.old.place.operands }
        ensures code { OnOk result
            (self.new.code.items
            ≡ self.old.code.items ++ record { instr = Do opcode; doing = doing; checking = checking } ∷ []) }
        ensures place { OnOk result
            (self.new.place ≡ spot (replicate given None ++ drop taken self.old.place.operands) self.old.place.slots) }
        ensures costs { OnOk result (Costs self.old self.new 1 1) }
    {
        self.put(Instr::Do(opcode), doing, checking)?;
        self.place.take(taken);
        self.give(given)?;
        Ok(())
    }

    /// The operand is taken away.
    pub fn drop_top(&mut self, checking: Span) -> Result<(), AllocError>
        requires { 1 ≤ length self.old.place.operands }
        ensures emits { OnOk result ((doing : Span) → Adds checking checking self.old self.new (drop_deed doing)) }
        ensures place { OnOk result (self.new.place ≡ spot (drop 1 self.old.place.operands) self.old.place.slots) }
        ensures costs { OnOk result (Costs self.old self.new 1 1) }
    {
        self.put(Instr::Do(DROP), checking, checking)?;
        self.place.take(1);
        Ok(())
    }

    /// A slot's value is taken away, from wherever it stands.
    fn discard(&mut self, slot: Slot, checking: Span) -> Result<(), AllocError>
        requires room { length self.old.place.operands + length self.old.place.slots < 32768 }
        requires defined { IsTrue (has slot self.old.place.slots) }
        ensures emits { OnOk result (Adds checking checking self.old self.new nothing) }
        ensures place { OnOk result
            (self.new.place ≡ spot self.old.place.operands (less slot self.old.place.slots)) }
        ensures costs { OnOk result (Costs self.old self.new 4 1) }
    {
        let below = self.place.below(slot);
        let depth = depth_element(below);
        self.put(Instr::Push(depth), checking, checking)?;
        self.put(Instr::Do(ROLL), checking, checking)?;
        self.put(Instr::Do(DROP), checking, checking)?;
        self.place.leave(slot);
        Ok(())
    }

    /// The one operand becomes the value of a slot, where it stands.
    pub fn define(&mut self, slot: Slot) -> Result<(), AllocError>
        requires operand { length self.old.place.operands ≡ 1 }
        requires fresh { has slot self.old.place.slots ≡ false }
        ensures emits { OnOk result ((doing checking : Span) → Adds checking checking self.old self.new (store_deed true slot doing)) }
        ensures place { OnOk result (self.new.place ≡ spot [] (slot ∷ self.old.place.slots)) }
        ensures costs { OnOk result (Costs self.old self.new 1 1) }
    {
        self.place.take(1);
        self.place.define(slot)?;
        Ok(())
    }

    /// The one operand becomes the value of the slot where it is to be kept, and is dropped elsewhere.
    #[tactic(auto, using(crate::proofs::Emits::stored, crate::proofs::Emits::not_stored))]
    pub fn store(&mut self, slot: Slot, kept: bool, checking: Span) -> Result<(), AllocError>
        requires operand { length self.old.place.operands ≡ 1 }
        requires fresh { has slot self.old.place.slots ≡ false }
        ensures emits { OnOk result ((doing : Span) → Adds checking checking self.old self.new (store_deed kept slot doing)) }
        ensures place { OnOk result
            (self.new.place ≡ spot [] (if kept then slot ∷ self.old.place.slots else self.old.place.slots)) }
        ensures costs { OnOk result (Costs self.old self.new 1 1) }
    {
        if kept {
            self.define(slot)?;
            Ok(())
        } else {
            self.drop_top(checking)?;
            Ok(())
        }
    }

    /// The lower of two operands is taken away.
    fn drop_lower(&mut self, checking: Span) -> Result<(), AllocError>
        requires { length self.old.place.operands ≡ 2 }
        ensures emits { OnOk result ((doing : Span) → Adds checking checking self.old self.new (keep_deed true doing)) }
        ensures place { OnOk result (self.new.place ≡ spot (None ∷ []) self.old.place.slots) }
        ensures costs { OnOk result (Costs self.old self.new 1 1) }
    {
        self.put(Instr::Do(NIP), checking, checking)?;
        self.place.take(2);
        self.place.put(None)?;
        Ok(())
    }

    /// The lower of two operands becomes the value of a slot, where it stands.
    fn define_lower(&mut self, slot: Slot) -> Result<(), AllocError>
        requires operands { length self.old.place.operands ≡ 2 }
        requires fresh { has slot self.old.place.slots ≡ false }
        ensures emits { OnOk result ((doing checking : Span) → Adds checking checking self.old self.new (lower_deed true slot doing)) }
        ensures place { OnOk result (self.new.place ≡ spot (None ∷ []) (slot ∷ self.old.place.slots)) }
        ensures costs { OnOk result (Costs self.old self.new 1 1) }
    {
        self.place.take(2);
        self.place.put(None)?;
        self.place.define(slot)?;
        Ok(())
    }

    /// The lower of two operands becomes the value of the slot where it is to be kept, and is taken away elsewhere.
    #[tactic(auto, using(crate::proofs::Emits::stored_lower, crate::proofs::Emits::lower_dropped))]
    fn store_lower(&mut self, slot: Slot, kept: bool, checking: Span) -> Result<(), AllocError>
        requires operands { length self.old.place.operands ≡ 2 }
        requires fresh { has slot self.old.place.slots ≡ false }
        ensures emits { OnOk result ((doing : Span) → Adds checking checking self.old self.new (lower_deed kept slot doing)) }
        ensures place { OnOk result
            (self.new.place ≡ spot (None ∷ []) (if kept then slot ∷ self.old.place.slots else self.old.place.slots)) }
        ensures costs { OnOk result (Costs self.old self.new 1 1) }
    {
        if kept {
            self.define_lower(slot)?;
            Ok(())
        } else {
            self.drop_lower(checking)?;
            Ok(())
        }
    }

    /// Two operands become the values of two slots, the lower one that of the left, where these are to be kept; the others are
    /// taken away.
    #[tactic(auto, using(crate::proofs::Emits::still_fresh))]
    pub fn store_pair(
        &mut self,
        left: Slot,
        right: Slot,
        left_kept: bool,
        right_kept: bool,
        checking: Span,
    ) -> Result<(), AllocError>
        requires operands { length self.old.place.operands ≡ 2 }
        requires fresh_left { has left self.old.place.slots ≡ false }
        requires fresh_right { has right self.old.place.slots ≡ false }
        requires differ { is_slot right left ≡ false }
        ensures emits { OnOk result
            ((doing : Span) → Adds checking checking self.old self.new (pair_deed left_kept right_kept left right doing)) }
        ensures place { OnOk result
            (self.new.place
            ≡ spot [] (if right_kept then right ∷ (if left_kept then left ∷ self.old.place.slots else self.old.place.slots)
            else (if left_kept then left ∷ self.old.place.slots else self.old.place.slots))) }
        ensures costs { OnOk result (Costs self.old self.new 2 2) }
    {
        self.store_lower(left, left_kept, checking)?;
        self.store(right, right_kept, checking)?;
        Ok(())
    }

    /// The one operand takes the place of the slot's value where it is read later, and is dropped elsewhere.
    #[tactic(auto, using(crate::proofs::Emits::stored_again, crate::proofs::Emits::not_stored, slot_liveness::proofs::Counts::gone))]
    pub fn replace(&mut self, slot: Slot, later: bool, checking: Span) -> Result<(), AllocError>
        requires operand { length self.old.place.operands ≡ 1 }
        requires room { length self.old.place.slots ≤ 160 }
        requires defined { IsTrue later → IsTrue (has slot self.old.place.slots) }
        requires once { count_of slot self.old.place.slots ≤ 1 }
        ensures emits { OnOk result ((doing : Span) → Adds checking checking self.old self.new (store_deed later slot doing)) }
        ensures place { OnOk result
            (self.new.place ≡ spot [] (if later then slot ∷ less slot self.old.place.slots else self.old.place.slots)) }
        ensures costs { OnOk result (Costs self.old self.new 5 2) }
    {
        if later {
            self.discard(slot, checking)?;
            self.define(slot)?;
            Ok(())
        } else {
            self.drop_top(checking)?;
            Ok(())
        }
    }

    /// A slot's value is taken away, where it stands.
    #[tactic(auto, using(slot_liveness::proofs::Counts::less_none, crate::proofs::Emits::adds_none))]
    pub fn forget(&mut self, slot: Slot, checking: Span) -> Result<(), AllocError>
        requires room { length self.old.place.operands + length self.old.place.slots < 32768 }
        ensures emits { OnOk result (Adds checking checking self.old self.new nothing) }
        ensures place { OnOk result
            (self.new.place ≡ spot self.old.place.operands (less slot self.old.place.slots)) }
        ensures costs { OnOk result (Costs self.old self.new 4 1) }
    {
        if contains(self.place.slots(), slot) {
            self.discard(slot, checking)?;
        }
        Ok(())
    }

    /// So many rows of one opcode.
    fn repeat(&mut self, opcode: Opcode, count: usize, checking: Span) -> Result<(), AllocError>
        ensures code { OnOk result
            (self.new.code.items
            ≡ self.old.code.items ++ replicate count (record { instr = Do opcode; doing = checking; checking = checking })) }
        ensures place { OnOk result (self.new.place ≡ self.old.place) }
    {
        for i in 0..count {
            self.put(Instr::Do(opcode), checking, checking)?;
        }
        Ok(())
    }

    /// A path's end: the one operand is the value of its last check, and all below it is removed. It costs a byte and a counted
    /// opcode for each slot, and at most one more.
    #[tactic(auto, using(crate::proofs::Tails::ends_alone, crate::proofs::Tails::ends_above, crate::proofs::Tails::costs_alone))]
    pub fn finish(&mut self, checking: Span) -> Result<(), AllocError>
        requires { length self.old.place.operands ≡ 1 }
        ensures ends { OnOk result ((doing : Span) → Ends checking self.old self.new (check_deed doing checking)) }
        ensures costs { OnOk result (EndCosts self.old self.new) }
    {
        let count = self.place.slots().len();
        if count == 0 {
            self.put(Instr::Do(NOP), checking, checking)?;
            Ok(())
        } else {
            self.repeat(NIP, count, checking)?;
            Ok(())
        }
    }

    /// A path's end with no check left: all is removed, and one true element is left. It costs a byte and a counted opcode for
    /// each slot, and at most one more.
    #[tactic(auto, using(crate::proofs::Tails::ends_true))]
    pub fn finish_true(&mut self, checking: Span) -> Result<(), AllocError>
        requires { self.old.place.operands ≡ [] }
        ensures ends { OnOk result (Ends checking self.old self.new nothing) }
        ensures costs { OnOk result (EndCosts self.old self.new) }
    {
        let count = self.place.slots().len();
        self.repeat(DROP, count, checking)?;
        self.put(Instr::Push(write_number(1)), checking, checking)?;
        Ok(())
    }
}
