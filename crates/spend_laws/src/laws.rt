//! A spend of code as a redeem script is decided by the run of its instructions.

ghost use Rattle.std.specs.Prelude.{◌≡◌, ◌↔◌, ◌≤◌, ℕ, List, length, Result, IsTrue};
ghost use Rattle.tx_context.specs.Transaction.{Transaction};
ghost use Rattle.tx_context.specs.Table.{Row as Verdict};
ghost use Rattle.tx_context.specs.World.{World};
ghost use Rattle.script_codec.specs.declared.instr.Instr.{Instr};
ghost use Rattle.script_codec.specs.Spelling.{are_instructions, spellings};
ghost use Rattle.script_codec.specs.Reading.{reading};
ghost use Rattle.script_codec.specs.Counting.{counted_in};
ghost use Rattle.bch_vm.specs.declared.outcome.MachineOutcome.TheVariants.{Accepted};
ghost use Rattle.opcode_table.specs.Stack.{Stack};
ghost use Rattle.bch_vm.specs.Script.{State, run_end, Failure};
ghost use Rattle.bch_vm.specs.Spend.{spend_outcome};
ghost use Rattle.bch_vm.specs.Law.{world_of, IsRedeemed, IsSmall, EndsTrue, StaysBelow, decided_by, is_in_room};

use script_codec::laws::{meaning_of_spelled, reading_after_encoded, reading_in_turn};

/// A spend of code as a redeem script ends as the run of its instructions on the elements that are pushed, if the spend
/// isn't refused for more than 201 opcodes in a script or more than 1,000 elements.
///
/// Where the run fails the spend is refused in the redeem script, at the index and for the cause of the failure; it is
/// accepted exactly where the run ends with one true element; and otherwise it is refused by the stack that is left, as
/// without an element, with a false top, or with more than one. Sources: the Bitcoin Cash specification, and BIP 16 for
/// the two scripts.
pub fn redeemed_code_decides()
    ensures { (elements : Stack) (code : List Instr) (context : Transaction (List ℕ)) (verdicts : List Verdict)
        → IsRedeemed elements code context
        → IsTrue (is_in_room (spend_outcome context verdicts))
        → spend_outcome context verdicts ≡ decided_by (run_end (world_of code context verdicts) code elements) }
{
    reading_in_turn();
    reading_after_encoded();
    meaning_of_spelled();
}

/// A spend of code as a redeem script isn't refused for more than 201 opcodes in a script or more than 1,000 elements, where
/// at most 33 elements are handed in, at most 201 opcodes of the code count, and each check of several signatures stands
/// directly after the push of its number of keys.
pub fn spend_stays_in_room()
    ensures { (elements : Stack) (code : List Instr) (context : Transaction (List ℕ)) (verdicts : List Verdict)
        → IsRedeemed elements code context
        → IsSmall elements code
        → IsTrue (is_in_room (spend_outcome context verdicts)) }
{
    reading_in_turn();
    reading_after_encoded();
    meaning_of_spelled();
}

/// A run of code of at most 520 bytes that counts at most 201 opcodes, with at most 33 elements handed in, never has more than
/// 955 elements on both stacks, in whichever world: each instruction adds one at most, and each opcode that is counted two more.
pub fn runs_stay_below()
    ensures { (world : World) (code : List Instr) (elements : Stack) → IsTrue (are_instructions code)
        → length (spellings code) ≤ 520 → length elements ≤ 33 → counted_in (reading (spellings code)) ≤ 201
        → StaysBelow 955 world code elements }
{
    reading_in_turn();
    reading_after_encoded();
    meaning_of_spelled();
}

/// So a spend of code as a redeem script, where both are so few, ends as the run of its instructions.
pub fn spend_is_decided()
    ensures { (elements : Stack) (code : List Instr) (context : Transaction (List ℕ)) (verdicts : List Verdict)
        → IsRedeemed elements code context
        → IsSmall elements code
        → spend_outcome context verdicts ≡ decided_by (run_end (world_of code context verdicts) code elements) }
{
    redeemed_code_decides();
    spend_stays_in_room();
}

/// A run decides that a spend is accepted exactly where it ends with one element, which is true.
pub fn accepted_by_one_true_element()
    ensures { (r : Result State Failure) → (decided_by r ≡ Accepted) ↔ EndsTrue r }
{}
