//! Laws of what lowering gives.

ghost use Rattle.cash_base.specs.declared.place.Slot.{Slot};
ghost use Rattle.cash_tree.specs.declared.Ty.{Ty};
ghost use Rattle.cash_tree.specs.declared.Contract.{Contract};
ghost use Rattle.cash_tree.specs.declared.Function.{Function};
ghost use Rattle.slot_code.specs.declared.slots.SlotFunction.{SlotFunction};
ghost use Rattle.slot_lowering.specs.Functions.{Arranges, CanLowerFunction, HasCounts};
ghost use Rattle.std.specs.Prelude.{List};
ghost use Rattle.std.specs.List.{AllZip};
ghost use Rattle.lowered_names.specs.Order.{AreTold, IsText, IsTextOf, IsTold};
ghost use Rattle.lowered_names.specs.Points.{HasOnePoint, HasPoints};

/// Where a statement of a lowered function begins, a statement of its source with the same span does, and the same names are live
/// and kept there.
#[tactic(auto, using(crate::proofs::Pointed::begin_alike))]
pub fn statements_begin_alike()
    ensures { (contract : Contract Slot Ty) (f : Function Slot Ty) (g : SlotFunction) → CanLowerFunction contract f
        → HasCounts contract f g → Arranges f g → HasPoints contract f g }
{}

/// Where the statements of a function stand in the order of its text, no two of them have the same span.
#[tactic(auto, using(crate::proofs::Apart::has_one_point))]
pub fn statements_are_apart()
    ensures { (contract : Contract Slot Ty) (f : Function Slot Ty) (g : SlotFunction) → Arranges f g → IsText f
        → HasOnePoint contract f }
{}

/// Where the statements of a function stand in the order of its text, so do the spans of its slot code: each operation's statement
/// is the innermost one that holds it, and behind a span none stands that ends before it begins.
#[tactic(auto, using(crate::proofs::Told::told_function))]
pub fn spans_are_in_order()
    ensures { (f : Function Slot Ty) (g : SlotFunction) → Arranges f g → IsText f → IsTold f g }
{}

/// The same of all functions of a contract, one after the other.
#[tactic(auto, using(crate::proofs::Told::told_contract))]
pub fn contract_spans_are_in_order()
    ensures { (contract : Contract Slot Ty) (lowered : List SlotFunction) → AllZip Arranges contract.functions lowered
        → IsTextOf contract → AreTold contract lowered }
{}
