//! Where the values stand on the stack.

ghost use Rattle.std.specs.Prelude.{◌≡◌, ◌≤◌, ◌+◌, ℕ, ◌∷◌, [], length, drop, option_map, IfOk, OnOk, IsTrue, Some};
ghost use Rattle.slot_code.specs.Shape.{has};
ghost use Rattle.slot_liveness.specs.Counts.{place_of, less};
ghost use Rattle.stack_emitter.specs.Places.{spot};

use cash_base::{Element, Slot};
use slot_liveness::live::place;
use std::alloc::{AllocError, Global};
use std::marker::Model;

/// Where the values stand: the operands on top, and below them the slots. Contracts see both from the top, and of each operand
/// the element, where it is known.
#[derive(Drop)]
pub struct Place {
    operands: Vec<Option<Element>>,
    slots: Vec<Slot>,
}

impl Model for Place {
    ghost use Rattle.std.specs.Prelude.{map, reverse, option_map};
    ghost use Rattle.stack_emitter.specs.Places.{Spot, spot};

    ghost Value = { Spot };

    ghost view = { λ place. spot (reverse (map (option_map (λ e. e.items)) place.operands.items)) place.slots.items };
}

impl Place {
    /// No operands, and these slots, from the top. It takes no memory.
    pub fn of_slots(alloc: Global, slots: Vec<Slot>) -> Place
        ensures { result ≡ spot [] slots.items }
    {
        Place {
            operands: Vec::new(alloc),
            slots,
        }
    }

    /// How many operands stand.
    pub fn depth(&self) -> usize
        ensures { result ≡ length self.now.operands }
    {
        self.operands.len()
    }

    /// The slots, from the top.
    pub fn slots(&self) -> &[Slot]
        ensures { result.now ≡ self.now.slots }
    {
        self.slots.as_slice()
    }

    /// How far below the top the value of a slot lies.
    pub fn below(&self, slot: Slot) -> usize
        requires { IsTrue (has slot self.now.slots) }
        ensures { (i : ℕ) × (place_of slot self.now.slots ≡ Some i) × (result ≡ length self.now.operands + i) }
    {
        let at = place(self.slots.as_slice(), slot);
        self.operands.len() + at
    }

    /// One more operand stands.
    pub fn put(&mut self, element: Option<Element>) -> Result<(), AllocError>
        ensures { OnOk result (self.new ≡ spot (option_map (λ e. e.items) element ∷ self.old.operands) self.old.slots) }
    {
        self.operands.push(element)?;
        Ok(())
    }

    /// So many operands are gone.
    #[tactic(auto, using(crate::proofs::Lists::fewer))]
    pub fn take(&mut self, count: usize)
        requires { count ≤ length self.old.operands }
        ensures { self.new ≡ spot (drop count self.old.operands) self.old.slots }
    {
        let left = self.operands.len() - count;
        self.operands.truncate(left);
    }

    /// The value of a slot stands on top of the others.
    pub fn define(&mut self, slot: Slot) -> Result<(), AllocError>
        ensures { OnOk result (self.new ≡ spot self.old.operands (slot ∷ self.old.slots)) }
    {
        self.slots.insert(0, slot)?;
        Ok(())
    }

    /// The value of a slot no longer stands.
    #[tactic(auto, using(slot_liveness::proofs::Counts::removed))]
    pub fn leave(&mut self, slot: Slot)
        requires { IsTrue (has slot self.old.slots) }
        ensures { self.new ≡ spot self.old.operands (less slot self.old.slots) }
    {
        let at = place(self.slots.as_slice(), slot);
        let _ = self.slots.remove(at);
    }
}
