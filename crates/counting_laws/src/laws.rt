//! How many opcodes code counts.

ghost use Rattle.std.specs.Prelude.{◌≡◌, ◌+◌, ◌*◌, ◌≤◌, ℕ, List, ◌++◌, length, map, false, IsTrue};
ghost use Rattle.cash_base.specs.declared.place.Span.{Span};
ghost use Rattle.script_codec.specs.declared.instr.Instr.{Instr};
ghost use Rattle.script_codec.specs.declared.spans.Marked.{Marked};
ghost use Rattle.script_codec.specs.Spelling.{are_instructions};
ghost use Rattle.script_codec.specs.Reading.{push};
ghost use Rattle.opcode_table.specs.Stack.{Stack};
ghost use Rattle.bch_vm.specs.Law.{are_keys_known};
ghost use Rattle.selector.specs.Pieces.{instructions};
ghost use Rattle.selector.specs.Selection.{Selects};
ghost use Rattle.counting_laws.specs.Counts.{opcodes_in, counted_of, counted_of_all, AreSpelled, HaveKnownKeys};

use script_codec::laws::{meaning_of_spelled, reading_after_encoded, reading_in_turn};

/// The bytes of code count the opcodes above 60 (hexadecimal) among its instructions, and for each CHECKMULTISIG and
/// CHECKMULTISIGVERIFY directly after the push of a number from 0 to 20 that number.
pub fn code_counts()
    ensures { (code : List Instr) → IsTrue (are_instructions code) → counted_of code ≡ opcodes_in code }
{
    reading_in_turn();
    reading_after_encoded();
    meaning_of_spelled();
}

/// Code in front of other code counts what both count, where the other begins with no CHECKMULTISIG or CHECKMULTISIGVERIFY:
/// each in it stands directly after the push of its number of keys.
pub fn counts_add_up()
    ensures { (first second : List Instr) → IsTrue (are_instructions first) → IsTrue (are_instructions second)
        → IsTrue (are_keys_known false second)
        → counted_of (first ++ second) ≡ counted_of first + counted_of second }
{
    code_counts();
}

/// Pushes in front of such code count nothing.
pub fn pushes_count_nothing()
    ensures { (elements : Stack) (code : List Instr) → IsTrue (are_instructions code) → IsTrue (are_keys_known false code)
        → counted_of (map push elements ++ code) ≡ counted_of code }
{
    code_counts();
}

/// The code that selects one of several functions counts at most what all the functions count, and 7 more for each of them.
/// Each function has opcodes above 60 (hexadecimal) alone, and each CHECKMULTISIG and CHECKMULTISIGVERIFY in it stands
/// directly after the push of its number of keys.
pub fn choices_count_few()
    ensures { (functions : List Marked) (ctors : ℕ) (contract : Span) (code : Marked) → Selects functions ctors contract code
        → AreSpelled functions → HaveKnownKeys functions
        → counted_of (instructions code.code.items) ≤ counted_of_all functions + 7 * length functions }
{
    code_counts();
}
