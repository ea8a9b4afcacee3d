//! What holds of each source, and what follows for correct code.

ghost use Rattle.std.specs.Prelude.{◌≡◌, ◌⊎◌, ◌≤◌, ℕ, List, length, slice_get, Some};
ghost use Rattle.cash_base.specs.declared.place.Slot.{Slot};
ghost use Rattle.cash_tree.specs.declared.Ty.{Ty};
ghost use Rattle.cash_tree.specs.declared.Contract.{Contract as CashContract};
ghost use Rattle.cash_tree.specs.declared.Function.{Function as CashFunction};
ghost use Rattle.source_meaning.specs.Runnable.{CanRun};
ghost use Rattle.slot_lowering.specs.Room.{room, ops_room};
ghost use Rattle.artifact_json.specs.Artifact.{Artifact};
ghost use Rattle.cash_compile.specs.declared.refusal.Refusal.{Refusal as Cause};
ghost use Rattle.cash_compile.specs.Compile.{IsAccepted, IsRefused, IsUncompiled, AreSame, most_bytes, most_opcodes};
ghost use Rattle.cash_compile.specs.Correct.{Decides, MeetsNoLimit};
ghost use Rattle.cash_compile.specs.Correct.{IsCorrect};

use cash_parser::trees_hold;
use type_soundness::contracts_have_room;

/// Of the spends of correct code the machine accepts exactly those whose runs are met.
pub fn correct_decides()
    ensures { (source : List ℕ) (contract : CashContract Slot Ty) (program : Artifact) →
        IsCorrect source contract program → Decides contract program.code }
{}

/// No spend of correct code comes to a limit of the machine: none is refused for the size of a script or of a push, or for the
/// number of opcodes or of elements.
pub fn no_limit_is_met()
    ensures { (source : List ℕ) (contract : CashContract Slot Ty) (program : Artifact) →
        IsCorrect source contract program → MeetsNoLimit contract program.code }
{}

/// A source stands for at most one contract.
pub fn one_contract()
    ensures { (source : List ℕ) (a b : CashContract Slot Ty) → IsAccepted source a → IsAccepted source b → a ≡ b }
{
    source_stages::one_contract();
}

/// Each list of bytes is accepted or refused, and not both; and it is refused in one way only, but for the token that a
/// Syntax names.
pub fn one_way()
    ensures either { (source : List ℕ) →
        ((contract : CashContract Slot Ty) × IsAccepted source contract) ⊎ ((refusal : Cause) × IsRefused source refusal) }
    ensures never_both { (source : List ℕ) (contract : CashContract Slot Ty) (refusal : Cause) →
        IsAccepted source contract → IsRefused source refusal → ⊥ }
    ensures one_refusal { (source : List ℕ) (a b : Cause) → IsRefused source a → IsRefused source b → AreSame a b }
{
    source_stages::one_way();
}

/// A source is never refused whose contract's room is at most 520 bytes and 201 counted opcodes.
pub fn small_contracts_fit()
    ensures { (source : List ℕ) (contract : CashContract Slot Ty) (refusal : Cause) → IsAccepted source contract
        → room contract ≤ most_bytes → ops_room contract ≤ most_opcodes → IsUncompiled source refusal → ⊥ }
{
    one_contract();
    one_way();
}

/// The room of a run has places for each function of the contract of each accepted source.
pub fn accepted_contracts_run()
    ensures { (source : List ℕ) (contract : CashContract Slot Ty) → IsAccepted source contract
        → (place : ℕ) (function : CashFunction Slot Ty) → slice_get contract.functions place ≡ Some function
        → CanRun contract (length contract.params) place (length function.params) }
{
    contracts_have_room();
    trees_hold();
}
