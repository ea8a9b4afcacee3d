//! Laws of names.

ghost use Rattle.std.specs.Prelude.{◌≡◌, ◌⊎◌, ℕ, List, map, Some};
ghost use Rattle.cash_base.specs.declared.place.Span.{Span};
ghost use Rattle.cash_base.specs.declared.place.Slot.{Slot};
ghost use Rattle.cash_base.specs.Source.{AreInside};
ghost use Rattle.cash_tree.specs.Nodes.{nodes, tree_values, AreSmall};
ghost use Rattle.cash_tree.specs.Spans.{itself, nothing, tree_spans};
ghost use Rattle.name_scopes.specs.declared.fault.NameFault.{NameFault as Fault};
ghost use Rattle.cash_names.specs.Expressions.{Expression, with_slots};
ghost use Rattle.cash_names.specs.Outline.{Tree as Parsed, NamedTree as Named};
ghost use Rattle.cash_names.specs.Scopes.{IsNamed, first_name_fault};
ghost use Rattle.cash_names.specs.Answer.{HasOne, HasFault, HasNone};
ghost use Rattle.cash_names.specs.Definitions.{words, HasSlotsInOrder, HasSlotsDefined};

/// A tree has one named tree, and no place that is refused, or it has a first place that is refused and no named tree.
pub fn one_answer()
    ensures one { (source : List ℕ) (tree : Parsed) (a b : Named) → IsNamed source tree a → IsNamed source tree b → a ≡ b }
    ensures either { (source : List ℕ) (tree : Parsed) → HasOne source tree ⊎ HasFault source tree }
    ensures apart { (source : List ℕ) (tree : Parsed) (fault : Fault) → first_name_fault source tree ≡ Some fault → HasNone source tree }
{}

/// Slots in place of names leave the number of an expression's nodes as it is, so a bound on it carries over from a
/// tree to its named tree.
pub fn nodes_are_kept()
    ensures expression { (slot_of : Span → Slot) (e : Expression) → nodes (with_slots slot_of e) ≡ nodes e }
    // So many have the expressions of a tree that stand in no other, in text order.
    ensures tree { (source : List ℕ) (tree : Parsed) (named : Named) → IsNamed source tree named
        → map nodes (tree_values named) ≡ map nodes (tree_values tree) }
    ensures small { (source : List ℕ) (tree : Parsed) (named : Named) → IsNamed source tree named
        → AreSmall (tree_values tree) → AreSmall (tree_values named) }
{}

/// Slots in place of names leave all other spans of a tree where they are: so those of its named tree lie inside the
/// source where those of the tree do.
pub fn spans_are_kept()
    ensures kept { (source : List ℕ) (tree : Parsed) (named : Named) → IsNamed source tree named
        → tree_spans nothing named ≡ tree_spans nothing tree }
    ensures inside { (source : List ℕ) (len : ℕ) (tree : Parsed) (named : Named) → IsNamed source tree named
        → AreInside len (tree_spans itself tree) → AreInside len (tree_spans nothing named) }
{}

/// A named tree has the words of its tree, each at its place: that of the contract, of each function, and of each name
/// that is declared.
pub fn words_are_kept()
    ensures { (source : List ℕ) (tree : Parsed) (named : Named) → IsNamed source tree named → words named ≡ words tree }
{}

/// Slots are numbered in the order of their declarations, so each that is declared for a function is declared once; and
/// each that it uses is declared.
pub fn slots_are_in_order()
    ensures order { (source : List ℕ) (tree : Parsed) (named : Named) → IsNamed source tree named → HasSlotsInOrder named }
    ensures defined { (source : List ℕ) (tree : Parsed) (named : Named) → IsNamed source tree named → HasSlotsDefined named }
{}
