//! What holds of every operation: its causes, and of what kind its results are.

ghost use Rattle.std.specs.Prelude.{◌≤◌, List, length, ℕ};
ghost use Rattle.cash_base.specs.Element.{IsElement};
ghost use Rattle.cash_base.specs.Number.{IsBytes};
ghost use Rattle.element_ops.specs.declared.op.Op1.{Op1};
ghost use Rattle.element_ops.specs.declared.op.Op2.{Op2};
ghost use Rattle.element_ops.specs.declared.op.Op3.{Op3};
ghost use Rattle.element_ops.specs.Causes.{Obeys1, Obeys2, Obeys3, ObeysSplit};
ghost use Rattle.element_ops.specs.Width.{shortest, of_width, IsShortestOf, HasWidth};

/// An operation on an element gives an element of its kind, or one of its causes.
pub fn operations_on_one_obey()
    ensures { (op : Op1) (a : List ℕ) → Obeys1 op a }
{}

/// An operation on two elements gives an element of its kind, or one of its causes.
pub fn operations_on_two_obey()
    ensures { (op : Op2) (a b : List ℕ) → Obeys2 op a b }
{}

/// An operation on three elements gives an element of its kind, or one of its causes.
pub fn operations_on_three_obey()
    ensures { (op : Op3) (a b c : List ℕ) → Obeys3 op a b c }
{}

/// A split gives two elements that together are the whole, or one of its causes.
pub fn splits_obey()
    ensures { (a b : List ℕ) → IsElement a → ObeysSplit a b }
{}

/// The shortest form has the same sign and magnitude, and is minimal.
pub fn shortest_keeps()
    ensures { (e : List ℕ) → IsBytes e → IsShortestOf e (shortest e) }
{}

/// The form of a width has so many bytes, and the same sign and magnitude.
pub fn of_width_keeps()
    ensures { (width : ℕ) (e : List ℕ) → IsBytes e → length (shortest e) ≤ width
        → HasWidth width (shortest e) (of_width width e) }
{}
