//! Spelling and reading stand for one another, and so do opcodes and their names.

ghost use Rattle.std.specs.Prelude.{◌≡◌, ℕ, IsTrue, List, [], ◌∷◌, ◌++◌, length, map, drop, Some, not, codes};
ghost use Rattle.std.specs.List.{list_all, filter, range_with_len};
ghost use Rattle.cash_base.specs.Number.{IsBytes};
ghost use Rattle.script_codec.specs.declared.instr.Instr.{Instr};
ghost use Rattle.script_codec.specs.Spelling.{is_instruction, are_instructions, own_opcode, spelling, spellings};
ghost use Rattle.script_codec.specs.Words.{is_blank};
ghost use Rattle.script_codec.specs.Names.{name_of, opcode_named, has_name};
ghost use Rattle.script_codec.specs.Reading.{reading, piece_of, size_after, size_of, Whole, spelled, instruction, push};
ghost use Rattle.script_codec.specs.Reading.{is_minimal, meaning, is_minimal_piece};

use crate::instr::Opcode;

/// Reading what was encoded gives the same instructions.
pub fn reading_of_encoded()
    ensures { (code : List Instr) → IsTrue (are_instructions code)
        → map meaning (reading (spellings code)) ≡ map Some code }
{}

/// Each instruction that is read of what was encoded is minimally spelled.
pub fn encoded_is_minimal()
    ensures { (code : List Instr) → IsTrue (are_instructions code)
        → IsTrue (list_all is_minimal_piece (reading (spellings code))) }
{}

/// No other bytes whose pushes are all minimal are read as the same instructions.
pub fn no_other_spelling()
    ensures { (code : List Instr) (script : List ℕ) → IsBytes script
        → IsTrue (list_all is_minimal_piece (reading script)) → map meaning (reading script) ≡ map Some code → script ≡ spellings code }
{}

/// A reading is the instruction at the front of a script, and the reading of what stands after that.
pub fn reading_in_turn()
    ensures end { reading [] ≡ [] }
    ensures front { (opcode : ℕ) (after : List ℕ)
        → reading (opcode ∷ after) ≡ piece_of opcode after ∷ reading (drop (size_after opcode after) after) }
{}

/// Code in front of other bytes is read as its instructions, and then those bytes are read.
pub fn reading_after_encoded()
    ensures { (code : List Instr) (rest : List ℕ) → IsTrue (are_instructions code)
        → reading (spellings code ++ rest) ≡ map (λ instr. Whole (spelled instr)) code ++ reading rest }
{}

/// What the spelling of an instruction is read as stands for the instruction, is minimal, and has as many bytes.
pub fn meaning_of_spelled()
    ensures { (instr : Instr) → IsTrue (is_instruction instr)
        → (instruction (spelled instr) ≡ instr) × IsTrue (is_minimal (spelled instr))
        × (size_of (spelled instr) ≡ length (spelling instr)) }
{}

/// Of all bytes 00, 4f, those from 51 to bc and those from c0 to cd (hexadecimal) have a name.
pub fn bytes_with_a_name()
    ensures { filter has_name (range_with_len 0 256)
        ≡ 0x00 ∷ 0x4f ∷ (range_with_len 0x51 0x6c ++ range_with_len 0xc0 0x0e) }
{}

/// An opcode has a name exactly where the name has that opcode, and a name has no blank in it.
pub fn one_opcode_a_name()
    ensures opcode { (opcode : ℕ) (name : List ℕ) → name_of opcode ≡ Some name → opcode_named name ≡ Some opcode }
    ensures name { (name : List ℕ) (opcode : ℕ) → opcode_named name ≡ Some opcode → name_of opcode ≡ Some name }
    ensures unbroken { (opcode : ℕ) (name : List ℕ) → name_of opcode ≡ Some name
        → IsTrue (list_all (λ byte. not (is_blank byte)) name) }
{}

/// An element's own opcode has a name, and stands for the push of that element.
pub fn own_opcode_is_named()
    ensures { (e : List ℕ) (opcode : ℕ) → own_opcode e ≡ Some opcode
        → IsTrue (has_name opcode) × (instruction (record { opcode = opcode; pushed = [] }) ≡ push e) }
{}

/// The opcodes that have a constant are those with its name.
pub fn constants_have_their_names()
    ensures { (name_of Opcode.NOP.0 ≡ Some (codes "NOP"))
        × (name_of Opcode.NIP.0 ≡ Some (codes "NIP"))
        × (name_of Opcode.PICK.0 ≡ Some (codes "PICK"))
        × (name_of Opcode.EQUAL.0 ≡ Some (codes "EQUAL"))
        × (name_of Opcode.NUMEQUAL.0 ≡ Some (codes "NUMEQUAL"))
        × (name_of Opcode.HASH160.0 ≡ Some (codes "HASH160"))
        × (name_of Opcode.CHECKMULTISIG.0 ≡ Some (codes "CHECKMULTISIG"))
        × (name_of Opcode.CHECKMULTISIGVERIFY.0 ≡ Some (codes "CHECKMULTISIGVERIFY")) }
{}
