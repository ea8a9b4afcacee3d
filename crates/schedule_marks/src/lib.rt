//! Marks of scheduled code: where the statements of a function begin, and how high the stack is there.
#![tactic(auto)]

ghost use Rattle.std.specs.Prelude.{List, ◌+◌};
ghost use Rattle.cash_base.specs.declared.place.Slot.{Slot};
ghost use Rattle.script_codec.specs.declared.spans.Mark.{Mark};
ghost use Rattle.script_codec.specs.declared.spans.Spanned.{Spanned};
ghost use Rattle.slot_code.specs.declared.slots.SlotFunction.{SlotFunction};
ghost use Rattle.slot_code.specs.Shape.{IsWellFormed};
ghost use Rattle.stack_schedule.specs.Schedule.{IsStart};
ghost use Rattle.stack_schedule.specs.Built.{IsScheduled};
ghost use Rattle.schedule_marks.specs.Marks.{AreRight};

/// Does nothing. It is a law on what `stack_schedule::schedule` answers, which tells that its code is scheduled.
///
/// Each mark stands at the first instruction with its statement's span. In every run that comes to this instruction, in any world and
/// from any values of the parameters, the stack has the mark's height. It is at most the number of names that are kept there: those
/// that are read later, those that the function never reads, and those that are held for the other block of an `if` around.
#[tactic(auto, using(crate::proofs::Whole::marks_are_right))]
pub fn marks_tell()
    ensures { (f : SlotFunction) (start : List Slot) (code : List Spanned) (marks : List Mark) → IsWellFormed f → IsStart f start → IsScheduled f start code marks → AreRight f start code marks }
{}
