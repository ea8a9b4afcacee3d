//! From a contract to the slot code of its functions.

ghost use Rattle.std.specs.Prelude.{IfOk};
ghost use Rattle.std.specs.List.{AllZip, All};
ghost use Rattle.slot_code.specs.Shape.{IsWellFormed};
ghost use Rattle.slot_lowering.specs.Functions.{AreLowered, Arranges, CanLower, CanLowerFunction, HasCounts, IsLowered, IsWeighed, KeepsSpans, RunsAs};

use crate::statements::all;
use cash_base::{Memory, Slot};
use cash_tree::{Function, Ty, TypedContract};
use slot_code::SlotFunction;
use sqlite_items::Items;
use std::alloc::Global;

/// The slot code of a contract's functions, in their order.
///
/// The contract is one that the types give (`CanLower`): its parameters stand in the first slots, each name has a slot of its
/// own, at most 160 are in scope at once, each value has at most 1,000 nodes, and each path ends with a check.
///
/// Each function keeps its counts of parameters and its place, is well formed, runs as its source does, in every world, and weighs
/// at most its price, in bytes and in counted opcodes, which is a sum over its typed tree. Each span in it is one of the function's.
/// Its rows stand statement by statement, side by side, in the order of the text; each has its statement's checking span, and the
/// slots that they read are those that the statement reads.
/// `Memory` comes where memory ran out.
#[tactic(auto, using(crate::proofs::Functions::counts_of_all, crate::proofs::Functions::shapes_of_all, crate::proofs::Functions::runs_of_all, crate::proofs::Functions::weights_of_all, crate::proofs::Functions::spans_of_all, crate::proofs::Functions::arranged_all))]
pub fn lower(alloc: Global, contract: &TypedContract) -> Result<Vec<SlotFunction>, Memory>
    requires { CanLower contract.now }
    ensures functions { IfOk result (λ lowered. AllZip (HasCounts contract.now) contract.now.functions lowered.items) }
    ensures shape { IfOk result (λ lowered. All IsWellFormed lowered.items) }
    ensures run { IfOk result (λ lowered. AllZip (RunsAs contract.now) contract.now.functions lowered.items) }
    ensures weights { IfOk result (λ lowered. AllZip (IsWeighed contract.now) contract.now.functions lowered.items) }
    ensures spans { IfOk result (λ lowered. AllZip KeepsSpans contract.now.functions lowered.items) }
    ensures arranged { IfOk result (λ lowered. AllZip Arranges contract.now.functions lowered.items) }
{
    let lowered = all_functions(alloc, contract)?;
    Ok(lowered)
}

#[tactic(auto, using(crate::proofs::Functions::left_none, crate::proofs::Functions::left_item))]
fn all_functions(alloc: Global, contract: &TypedContract) -> Result<Vec<SlotFunction>, Memory>
    requires { CanLower contract.now }
    ensures { IfOk result (λ lowered. AreLowered contract.now contract.now.functions lowered.items) }
{
    let mut lowered = Vec::new(alloc);
    for f in contract.functions.as_slice() {
        lowered.push(function(contract, f, alloc)?)?;
    }
    Ok(lowered)
}

/// The slot code of a function.
#[tactic(auto, using(crate::proofs::Functions::is_made, crate::proofs::Functions::body_ready, crate::proofs::Functions::few_params, crate::proofs::Functions::few_ctors))]
fn function(
    contract: &TypedContract,
    f: &Function<Slot, Ty>,
    alloc: Global,
) -> Result<SlotFunction, Memory>
    requires { CanLowerFunction contract.now f.now }
    ensures { IfOk result (λ g. IsLowered contract.now f.now g) }
{
    let mut body = Items::new(alloc);
    all(f.body.as_slice(), true, alloc, &mut body)?;
    Ok(SlotFunction {
        params: f.params.len() as u16,
        ctors: contract.params.len() as u16,
        span: f.span,
        body,
    })
}
