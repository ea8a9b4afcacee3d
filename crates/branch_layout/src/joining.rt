//! The moves that bring both arms of a choice to one layout.

ghost use Rattle.std.specs.Prelude.{◌≡◌, ◌≤◌, length, IsTrue, IfOk};
ghost use Rattle.cash_base.specs.declared.place.Slot.{Slot};
ghost use Rattle.branch_layout.specs.Slots.{has, all_stand_in, kept_of, spare_of};
ghost use Rattle.branch_layout.specs.Arms.{IsArm, DropOnly};

use crate::layout::{Join, Layout};
use crate::moves::{arrange, keep_only};
use cash_base::{Memory, Slot};
use std::alloc::Global;

/// The layout after a choice, and the moves that lead to it from the end of each arm.
///
/// `a` and `b` are the layouts at the ends of the arms, of at most 160 slots each, and `keep` the slots that are wanted
/// after the choice. Each of these stands in both layouts. The target is the slots of `keep` in the order that they have in
/// `a`. Run on any stack that begins with `a`, `then_moves` leave the target's elements and then the rest of the stack, and
/// `else_moves` do so from `b`; no move fails. They are pushes, DROP and ROLL alone, and have at most 5 bytes and 2 counted
/// opcodes for each slot of the arm's layout. `then_moves` are, for each slot of `a` that isn't kept, one DROP, or one push,
/// ROLL and DROP, and nothing else; so are `else_moves` for `b`, where the kept slots have the same order in both.
/// `Memory` comes where memory ran out.
pub fn join(alloc: Global, a: &Layout, b: &Layout, keep: &[Slot]) -> Result<Join, Memory>
    requires a_size { length a.now ≤ 160 }
    requires b_size { length b.now ≤ 160 }
    requires in_a { IsTrue (all_stand_in keep.now a.now) }
    requires in_b { IsTrue (all_stand_in keep.now b.now) }
    ensures target { IfOk result (λ j. j.target ≡ kept_of keep.now a.now) }
    ensures same_slots { IfOk result (λ j. (slot : Slot) → has j.target slot ≡ has keep.now slot) }
    ensures then_arm { IfOk result (λ j. IsArm a.now j.target j.then_moves.items) }
    ensures else_arm { IfOk result (λ j. IsArm b.now j.target j.else_moves.items) }
    ensures then_drops { IfOk result (λ j. DropOnly (spare_of keep.now a.now) j.then_moves.items) }
    ensures else_drops { IfOk result (λ j. kept_of keep.now b.now ≡ kept_of keep.now a.now
        → DropOnly (spare_of keep.now b.now) j.else_moves.items) }
{
    let first = keep_only(alloc, a.slots(), keep)?;
    let second = keep_only(alloc, b.slots(), keep)?;
    let mut else_moves = second.moves;
    arrange(&mut else_moves, second.slots, first.slots.as_slice())?;
    Ok(Join {
        target: Layout::of_distinct(first.slots),
        then_moves: first.moves,
        else_moves,
    })
}
