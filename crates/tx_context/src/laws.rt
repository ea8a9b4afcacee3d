//! Laws: functions that do nothing, and whose contracts hold of all values.

ghost use Rattle.std.specs.Prelude.{List, ℕ, ◌≤◌, length, IfOk, IsTrue};
ghost use Rattle.cash_base.specs.Element.{IsElement};
ghost use Rattle.cash_base.specs.Number.{IsBytes};
ghost use Rattle.cash_base.specs.declared.look.Look0.{Look0};
ghost use Rattle.cash_base.specs.declared.look.LookAt.{LookAt};
ghost use Rattle.tx_context.specs.Bytes.{are_bytes};
ghost use Rattle.tx_context.specs.Transaction.{Transaction, Locking};
ghost use Rattle.tx_context.specs.Limits.{IsFrame, IsContext};
ghost use Rattle.tx_context.specs.Lookup.{context_value, indexed_value};
ghost use Rattle.tx_context.specs.World.{filled_context};

use crate::frame::LONGEST_BYTECODE;
use cash_base::number::written_is_element;

/// What a context within the limits is asked, it answers by an element, or not at all.
pub fn look_ups_give_elements()
    ensures whole { (t : Transaction (List ℕ)) → IsContext t → (what : Look0) → (active : List ℕ) → IsBytes active →
        IfOk (context_value t what active) IsElement }
    ensures indexed { (t : Transaction (List ℕ)) → IsContext t → (what : LookAt) → (index : List ℕ) →
        IfOk (indexed_value t what index) IsElement }
{
    written_is_element();
}

/// A frame whose active input is spent by two scripts of at most 20,000 bytes is a context.
pub fn filled_frames_are_contexts()
    ensures { (frame : Transaction Locking) (locking unlocking : List ℕ) → IsFrame frame → IsBytes locking → IsBytes unlocking →
        length locking ≤ LONGEST_BYTECODE → length unlocking ≤ LONGEST_BYTECODE → IsContext (filled_context frame locking unlocking) }
{}

/// The bytes of a slice are below 256.
pub(crate) fn are_below_256(bytes: &[u8])
    ensures { IsTrue (are_bytes bytes.now) }
{}
