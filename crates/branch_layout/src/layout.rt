//! Which slot's value stands where on the stack.

ghost use Rattle.std.specs.Prelude.{◌≡◌, IsTrue, if◌then◌else◌};
ghost use Rattle.branch_layout.specs.Slots;
ghost use Rattle.branch_layout.specs.Slots.{has};

use cash_base::Slot;
use script_codec::Instr;
use std::marker::Model;

/// Slots from the top of the stack, none twice. Contracts see the list.
#[derive(Drop)]
pub struct Layout {
    slots: Vec<Slot>,
}

impl Model for Layout {
    ghost use Rattle.std.specs.Prelude.{List, IsTrue};
    ghost use Rattle.cash_base.specs.declared.place.Slot.{Slot};
    ghost use Rattle.branch_layout.specs.Slots.{are_distinct};

    ghost Value = { List Slot };

    ghost view = { λ layout. layout.slots.items };

    ghost invariant = { λ layout. IsTrue (are_distinct layout.slots.items) };
}

impl Layout {
    /// The layout of these slots, from the top; `None` exactly where a slot stands twice. It takes no memory.
    pub fn new(slots: Vec<Slot>) -> Option<Layout>
        ensures { result ≡ (if Slots.are_distinct slots.items then Some slots.items else None) }
    {
        if are_distinct(slots.as_slice()) {
            Some(Layout { slots })
        } else {
            None
        }
    }

    /// The layout of slots of which none stands twice. It takes no memory.
    pub(crate) fn of_distinct(slots: Vec<Slot>) -> Layout
        requires { IsTrue (Slots.are_distinct slots.items) }
        ensures { result ≡ slots.items }
    {
        Layout { slots }
    }

    /// The slots, from the top. It takes no memory.
    pub fn slots(&self) -> &[Slot]
        ensures slots { result.now ≡ self.now }
        ensures distinct { IsTrue (Slots.are_distinct self.now) }
    {
        self.slots.as_slice()
    }
}

/// The layout after a choice, and the moves that lead to it from the end of each arm.
#[derive(Drop)]
pub struct Join {
    pub target: Layout,
    pub then_moves: Vec<Instr>,
    pub else_moves: Vec<Instr>,
}

fn are_distinct(slots: &[Slot]) -> bool
    ensures { result ≡ Slots.are_distinct slots.now }
{
    for (i, slot) in slots.iter().enumerate() {
        if contains(&slots[i + 1..], *slot) {
            return false;
        }
    }
    true
}

/// Whether a slot stands among some.
pub(crate) fn contains(slots: &[Slot], slot: Slot) -> bool
    ensures { result ≡ has slots.now slot }
{
    slots.iter().any(|other| other.0 == slot.0)
}
