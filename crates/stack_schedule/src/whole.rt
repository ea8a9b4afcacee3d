//! The code of a function.

ghost use Rattle.std.specs.Prelude.{◌≡◌, ◌+◌, ◌≤◌, [], IfOk};
ghost use Rattle.slot_code.specs.Shape;
ghost use Rattle.slot_code.specs.Shape.{IsWellFormed};
ghost use Rattle.stack_schedule.specs.Schedule.{IsStart, Starts, Decides, EndsItsPath, EndsOnItsOwn, HasForm, CountsKeys, AreNamed, IsWithin, statements};
ghost use Rattle.stack_schedule.specs.Spans.{KeepsSpans};
ghost use Rattle.stack_schedule.specs.Built.{IsScheduled};
ghost use Rattle.stack_steps.specs.Lower.{statements_of};

use crate::paths::lower_tail;
use branch_layout::Layout;
use cash_base::{Memory, Slot};
use counting_laws::laws::code_counts;
use row_runs::rows_run_as_code;
use script_codec::Marked;
use slot_code::SlotFunction;
use sqlite_items::Items;
use stack_emitter::emit::Emitter;
use stack_emitter::place::Place;
use stack_steps::low::Low;
use std::alloc::{AllocError, Global};

/// The slots of so many parameters.
fn first_slots(alloc: Global, count: u16) -> Result<Items<Slot>, AllocError>
    ensures { IfOk result (λ slots. slots ≡ Shape.first_slots count) }
{
    let mut slots = Items::new(alloc);
    for i in 0..count {
        slots.push(Slot(i))?;
    }
    Ok(slots)
}

/// Before the first instruction: no code, and the parameters' elements on the stack.
fn beginning(alloc: Global, function: &SlotFunction, start: &Layout) -> Result<Low, AllocError>
    requires { function.now.ctors + function.now.params ≤ 160 }
    ensures { IfOk result (λ low. Starts function.now start.now low) }
{
    let scope = first_slots(alloc, function.ctors + function.params)?;
    let slots = Vec::from_slice(alloc, start.slots())?;
    Ok(Low {
        emitter: Emitter {
            alloc,
            code: Vec::new(alloc),
            place: Place::of_slots(alloc, slots),
        },
        scope,
        outer: Items::new(alloc),
        marks: Vec::new(alloc),
    })
}

/// The stack code of a function, from its parameters' elements on the stack as `start` has them, from the top.
///
/// On exactly these elements, in every world, the code ends as the function's slot code does: with one true element where it is
/// met, and else with the same failure at the same place, or with the false value of the failed check alone. The last executed
/// instruction other than IF, NOTIF, ELSE and ENDIF stands in the statement that ends the path, and there is one. There is a mark for each of the
/// function's statements, in order. The code is nested, and has no CODESEPARATOR, DEPTH, TOALTSTACK or FROMALTSTACK, and each
/// check of several signatures stands directly behind the push of its number of keys. Each opcode has a name, and each place is one
/// of the function's. The code has at most the bytes and the counted opcodes of the function's weights.
///
/// The only error is that memory ran out.
pub fn schedule(alloc: Global, function: &SlotFunction, start: &Layout) -> Result<Marked, Memory>
    requires formed { IsWellFormed function.now }
    requires holds { IsStart function.now start.now }
    ensures decides { IfOk result (λ marked. Decides function.now start.now marked.code.items) }
    ensures ends { IfOk result (λ marked. EndsItsPath function.now start.now marked.code.items) }
    ensures own { IfOk result (λ marked. EndsOnItsOwn start.now marked.code.items) }
    ensures form { IfOk result (λ marked. HasForm marked.code.items) }
    ensures keys { IfOk result (λ marked. CountsKeys marked.code.items) }
    ensures named { IfOk result (λ marked. AreNamed marked.code.items) }
    ensures spans { IfOk result (λ marked. KeepsSpans function.now marked.code.items) }
    ensures within { IfOk result (λ marked. IsWithin function.now marked.code.items) }
    ensures scheduled { IfOk result (λ marked. IsScheduled function.now start.now marked.code.items marked.marks.items) }
    ensures statements { IfOk result (λ marked. statements_of marked.marks.items ≡ statements function.now) }
{
    let mut low = beginning(alloc, function, start)?;
    let none = Items::new(alloc);
    let body = function.body.as_slice();
    lower_tail(&mut low, body, &none, &none, body, function.span)?;
    rows_run_as_code();
    code_counts();
    let marked = marked_of(low);
    Ok(marked)
}

/// The code and the marks.
fn marked_of(low: Low) -> Marked
    ensures code { result.code ≡ low.emitter.code }
    ensures marks { result.marks ≡ low.marks }
{
    let Low {
        emitter,
        scope: _,
        outer: _,
        marks,
    } = low;
    let Emitter {
        alloc: _,
        code,
        place: _,
    } = emitter;
    Marked { code, marks }
}
