//! The moves of a join.

ghost use Rattle.std.specs.Prelude.{◌≡◌, ◌≤◌, ◌++◌, ◌∷◌, [], if◌then◌else◌, length, IsTrue, OnOk, IfOk, Some, ◌↔◌};
ghost use Rattle.cash_base.specs.declared.place.Slot.{Slot};
ghost use Rattle.branch_layout.specs.Slots.{has, count_of, place_of};
ghost use Rattle.branch_layout.specs.Arms.{raising, discarding, KeepsOnly, Raises, Arranges};

use crate::layout::contains;
use cash_base::{Slot, write_number};
use script_codec::{Instr, Opcode};
use std::alloc::{AllocError, Global};

/// Takes the top away.
const DROP: Opcode = Opcode(0x75);

/// Takes a number, and moves the element that lies so deep to the top.
const ROLL: Opcode = Opcode(0x7a);

/// Adds the moves that bring the element so far below the top to the top.
fn raise(moves: &mut Vec<Instr>, below: usize) -> Result<(), AllocError>
    requires { below ≤ 160 }
    ensures { OnOk result (moves.new.items ≡ moves.old.items ++ raising below) }
{
    if below > 0 {
        let depth = write_number(below as i64);
        moves.push(Instr::Push(depth))?;
        moves.push(Instr::Do(ROLL))?;
    }
    Ok(())
}

/// Adds the moves that drop the element so far below the top.
fn discard(moves: &mut Vec<Instr>, below: usize) -> Result<(), AllocError>
    requires { below ≤ 160 }
    ensures { OnOk result (moves.new.items ≡ moves.old.items ++ discarding below) }
{
    raise(moves, below)?;
    moves.push(Instr::Do(DROP))?;
    Ok(())
}

/// The slots of a layout that are kept, from the top, and the moves that drop the others.
#[derive(Drop)]
pub(crate) struct Kept {
    pub(crate) slots: Vec<Slot>,
    pub(crate) moves: Vec<Instr>,
}

impl Kept {
    /// Keeps the next slot of the layout, or drops it from below those that are kept.
    fn pass(&mut self, slot: Slot, is_kept: bool) -> Result<(), AllocError>
        requires { length self.old.slots.items ≤ 160 }
        ensures slots { OnOk result
            (self.new.slots.items ≡ (if is_kept then self.old.slots.items ++ slot ∷ [] else self.old.slots.items)) }
        ensures moves { OnOk result
            (self.new.moves.items
            ≡ (if is_kept then self.old.moves.items else self.old.moves.items ++ discarding (length self.old.slots.items))) }
    {
        if is_kept {
            self.slots.push(slot)?;
            Ok(())
        } else {
            let above = self.slots.len();
            discard(&mut self.moves, above)?;
            Ok(())
        }
    }
}

/// What is kept of a layout, and the moves that drop the rest.
pub(crate) fn keep_only(alloc: Global, layout: &[Slot], keep: &[Slot]) -> Result<Kept, AllocError>
    requires { length layout.now ≤ 160 }
    ensures { IfOk result (λ kept. KeepsOnly keep.now layout.now kept.slots.items kept.moves.items) }
{
    let mut kept = Kept {
        slots: Vec::new(alloc),
        moves: Vec::new(alloc),
    };
    for slot in layout {
        kept.pass(*slot, contains(keep, *slot))?;
    }
    Ok(kept)
}

/// The place of a slot.
fn index_of(slots: &[Slot], slot: Slot) -> Option<usize>
    ensures { result ≡ place_of slot slots.now }
{
    slots.iter().position(|other| other.0 == slot.0)
}

/// The place of a slot that stands in the list.
#[tactic(auto, using(crate::proofs::Counts::placed))]
fn place(slots: &[Slot], slot: Slot) -> usize
    requires { IsTrue (has slots.now slot) }
    ensures { place_of slot slots.now ≡ Some result }
{
    index_of(slots, slot).unwrap()
}

/// Adds the moves that bring the slots of the target to the top, the last of them first, above those that are left.
fn raise_all(
    moves: &mut Vec<Instr>,
    target: &[Slot],
    left: &mut Vec<Slot>,
) -> Result<(), AllocError>
    requires within { (slot : Slot) → count_of slot target.now ≤ count_of slot left.old.items }
    requires room { length left.old.items ≤ 160 }
    ensures { OnOk result (Raises target.now left.old.items left.new.items moves.old.items moves.new.items) }
{
    let [slot, others @ ..] = target else {
        return Ok(());
    };
    raise_all(moves, others, left)?;
    let at = place(left.as_slice(), *slot);
    raise(moves, others.len() + at)?;
    let _ = left.remove(at);
    Ok(())
}

fn is_same(a: &[Slot], b: &[Slot]) -> bool
    ensures { IsTrue result ↔ (a.now ≡ b.now) }
{
    a == b
}

/// Adds the moves that bring slots into the order of the target, which has the same slots; none where it is their order.
pub(crate) fn arrange(
    moves: &mut Vec<Instr>,
    slots: Vec<Slot>,
    target: &[Slot],
) -> Result<(), AllocError>
    requires same { (slot : Slot) → count_of slot slots.items ≡ count_of slot target.now }
    requires room { length slots.items ≤ 160 }
    ensures arranges { OnOk result (Arranges slots.items target.now moves.old.items moves.new.items) }
    ensures still { slots.items ≡ target.now → moves.new.items ≡ moves.old.items }
{
    if is_same(slots.as_slice(), target) {
        return Ok(());
    }
    let mut left = slots;
    raise_all(moves, target, &mut left)?;
    Ok(())
}
