//! Laws of the stages.

ghost use Rattle.std.specs.Prelude.{◌≡◌, ◌⊎◌, ℕ, List, length};
ghost use Rattle.cash_base.specs.declared.place.Slot.{Slot};
ghost use Rattle.cash_base.specs.Source.{AreInside};
ghost use Rattle.cash_tree.specs.declared.Ty.{Ty};
ghost use Rattle.cash_tree.specs.declared.Contract.{Contract};
ghost use Rattle.cash_tree.specs.Spans.{nothing, tree_spans};
ghost use Rattle.cash_parser.specs.Names.{NamesHave, IsTextAt};
ghost use Rattle.source_stages.specs.Accepted.{IsCounted};
ghost use Rattle.source_stages.specs.declared.fault.SourceFault.{SourceFault};
ghost use Rattle.source_stages.specs.Stages.{IsAccepted, IsRefused, AreSame};

use cash_lexer::words_have_texts;
use cash_names::{one_answer, spans_are_kept};
use cash_parser::{names_have_texts, one_tree, tokens_stand_in_order, trees_hold};
use type_check::{judged_once, types_keep};

/// A source stands for at most one contract.
pub fn one_contract()
    ensures { (source : List ℕ) (a b : Contract Slot Ty) → IsAccepted source a → IsAccepted source b → a ≡ b }
{
    one_tree();
    one_answer();
    judged_once();
}

/// Each list of bytes is accepted or refused, and not both; and it is refused in one way only, but for the token that a
/// Syntax names.
pub fn one_way()
    ensures either { (source : List ℕ) →
        ((contract : Contract Slot Ty) × IsAccepted source contract) ⊎ ((fault : SourceFault) × IsRefused source fault) }
    ensures never_both { (source : List ℕ) (contract : Contract Slot Ty) (fault : SourceFault) →
        IsAccepted source contract → IsRefused source fault → ⊥ }
    ensures one_fault { (source : List ℕ) (a b : SourceFault) →
        IsRefused source a → IsRefused source b → AreSame a b }
{
    one_tree();
    one_answer();
    judged_once();
}

/// What holds of the contract of each accepted source.
pub fn accepted_contracts()
    // The limits on parameters and functions.
    ensures counted { (source : List ℕ) (contract : Contract Slot Ty) → IsAccepted source contract → IsCounted contract }
    // Each span in it lies in the source.
    ensures inside { (source : List ℕ) (contract : Contract Slot Ty) → IsAccepted source contract
        → AreInside (length source) (tree_spans nothing contract) }
    // The texts of its name, of those of its functions and of all parameters are UTF-8.
    ensures texts { (source : List ℕ) (contract : Contract Slot Ty) → IsAccepted source contract
        → NamesHave (IsTextAt source) contract }
{
    tokens_stand_in_order();
    trees_hold();
    spans_are_kept();
    types_keep();
    words_have_texts();
    names_have_texts();
    judged_once();
}
