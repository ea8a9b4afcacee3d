//! Bringing the slots that stand to another layout.

ghost use Rattle.std.specs.Prelude.{◌≡◌, ◌≤◌, ◌+◌, ◌*◌, ◌++◌, ◌∷◌, [], map, length, IsTrue, OnOk, IfOk};
ghost use Rattle.branch_layout.specs.Slots;
ghost use Rattle.branch_layout.specs.Slots.{all_stand_in};
ghost use Rattle.stack_emitter.specs.Places.{spot};
ghost use Rattle.stack_emitter.specs.Codes.{bytes_of, ops_of};
ghost use Rattle.stack_emitter.specs.Correct.{Adds, nothing, rows_of};

use crate::emit::Emitter;
use crate::place::Place;
use branch_layout::{Layout, join};
use cash_base::element::copy_of;
use cash_base::{Memory, Slot, Span};
use script_codec::Instr;
use std::alloc::Global;

fn copy_instr(instr: &Instr) -> Instr
    ensures { result ≡ instr.now }
{
    match instr {
        Instr::Push(element) => Instr::Push(copy_of(element.as_slice())),
        Instr::Do(opcode) => Instr::Do(*opcode),
    }
}

/// The layout of slots of which none stands twice.
fn layout_of(alloc: Global, slots: &[Slot]) -> Result<Layout, Memory>
    requires { IsTrue (Slots.are_distinct slots.now) }
    ensures { IfOk result (λ layout. layout ≡ slots.now) }
{
    let copy = Vec::from_slice(alloc, slots)?;
    Ok(Layout::new(copy).unwrap())
}

impl Emitter {
    /// Rows of one statement for these instructions.
    fn put_all(&mut self, instrs: &[Instr], checking: Span) -> Result<(), Memory>
        ensures code { OnOk result (self.new.code.items ≡ self.old.code.items ++ rows_of checking instrs.now) }
        ensures place { OnOk result (self.new.place ≡ self.old.place) }
    {
        for instr in instrs {
            self.put(copy_instr(instr), checking, checking)?;
        }
        Ok(())
    }

    /// Leaves the slots of the target, in its order.
    pub fn settle(&mut self, target: &[Slot], checking: Span) -> Result<(), Memory>
        requires operands { self.old.place.operands ≡ [] }
        requires few { length self.old.place.slots ≤ 160 }
        requires few_left { length target.now ≤ 160 }
        requires distinct { IsTrue (Slots.are_distinct self.old.place.slots) }
        requires distinct_left { IsTrue (Slots.are_distinct target.now) }
        requires within { IsTrue (all_stand_in target.now self.old.place.slots) }
        ensures emits { OnOk result (Adds checking checking self.old self.new nothing) }
        ensures place { OnOk result (self.new.place ≡ spot [] target.now) }
        ensures bytes { OnOk result (bytes_of self.new.code.items ≤ bytes_of self.old.code.items + 5 * length self.old.place.slots) }
        ensures ops { OnOk result (ops_of self.new.code.items ≤ ops_of self.old.code.items + 2 * length self.old.place.slots) }
    {
        let from = layout_of(self.alloc, self.place.slots())?;
        let to = layout_of(self.alloc, target)?;
        let joined = join(self.alloc, &to, &from, target)?;
        self.put_all(joined.else_moves.as_slice(), checking)?;
        let slots = Vec::from_slice(self.alloc, joined.target.slots())?;
        self.place = Place::of_slots(self.alloc, slots);
        Ok(())
    }
}
