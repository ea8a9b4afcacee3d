//! The code of each function of a contract.

ghost use Rattle.std.specs.Prelude.{◌≡◌, ◌+◌, ◌≤◌, IfOk};
ghost use Rattle.std.specs.List.{All};
ghost use Rattle.slot_code.specs.Shape;
ghost use Rattle.slot_code.specs.Shape.{IsWellFormed};
ghost use Rattle.cash_compile.specs.Code.{IsScheduled, AreScheduled};

use branch_layout::Layout;
use cash_base::{Memory, Slot};
use script_codec::Marked;
use slot_code::SlotFunction;
use stack_schedule::schedule;
use std::alloc::{AllocError, Global};

/// The slots of so many parameters, in order.
fn first_slots(alloc: Global, count: u16) -> Result<Vec<Slot>, AllocError>
    ensures { IfOk result (λ slots. slots.items ≡ Shape.first_slots count) }
{
    let mut slots = Vec::new(alloc);
    for i in 0..count {
        slots.push(Slot(i))?;
    }
    Ok(slots)
}

/// The layout of so many parameters, the first uppermost.
#[tactic(auto, using(crate::proofs::Slots::first_distinct))]
fn first_layout(alloc: Global, count: u16) -> Result<Layout, AllocError>
    ensures { IfOk result (λ layout. layout ≡ Shape.first_slots count) }
{
    let slots = first_slots(alloc, count)?;
    let Some(layout) = Layout::new(slots) else {
        // no slot stands twice among them
        unreachable!()
    };
    Ok(layout)
}

/// The code of a function, from the elements of its parameters: the constructor's on top, and the first uppermost.
fn function_code(alloc: Global, function: &SlotFunction) -> Result<Marked, Memory>
    requires { IsWellFormed function.now }
    ensures { IfOk result (λ code. IsScheduled function.now code) }
{
    let start = first_layout(alloc, function.ctors + function.params)?;
    let code = schedule(alloc, function, &start)?;
    Ok(code)
}

/// The code of each function, in their order.
#[tactic(auto, using(crate::proofs::Left::left_none, crate::proofs::Left::left_more))]
pub(crate) fn codes_of(alloc: Global, lowered: &[SlotFunction]) -> Result<Vec<Marked>, Memory>
    requires { All IsWellFormed lowered.now }
    ensures { IfOk result (λ codes. AreScheduled lowered.now codes.items) }
{
    let mut codes = Vec::new(alloc);
    for function in lowered {
        codes.push(function_code(alloc, function)?)?;
    }
    Ok(codes)
}
