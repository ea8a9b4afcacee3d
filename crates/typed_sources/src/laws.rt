//! Laws of accepted contracts.

ghost use Rattle.std.specs.Prelude.{List, ℕ};
ghost use Rattle.cash_base.specs.declared.place.Slot.{Slot};
ghost use Rattle.cash_tree.specs.declared.Ty.{Ty};
ghost use Rattle.cash_tree.specs.declared.Contract.{Contract};
ghost use Rattle.source_stages.specs.Stages.{IsAccepted};
ghost use Rattle.typed_sources.specs.Fits.{Fits};

use cash_parser::trees_hold;
use lowering_laws::contracts_are_lowered;
use plain_trees::spelled_trees_are_plain;
use source_stages::accepted_contracts;
use type_check::types_keep;
use type_soundness::contracts_stay_plain;

/// The contract of each accepted source can be lowered, is within the limits, has types that a source can name, and has names
/// with texts at places inside the source.
pub fn accepted_contracts_fit()
    ensures { (source : List ℕ) (contract : Contract Slot Ty) → IsAccepted source contract → Fits source contract }
{
    accepted_contracts();
    trees_hold();
    spelled_trees_are_plain();
    contracts_stay_plain();
    types_keep();
    contracts_are_lowered();
}
