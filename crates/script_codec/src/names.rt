//! The names of opcodes.

ghost use Rattle.std.specs.Prelude.{◌≡◌, map, MatchOption};
ghost use Rattle.script_codec.specs.Names;
ghost use Rattle.script_codec.specs.Names.{name_of};

use crate::instr::Instr;

/// An opcode and its name, without the `OP_` in front of it.
type NamedOpcode = (u8, &'static str);

/// Each opcode that has a name.
const NAMED_OPCODES: [NamedOpcode; 124] = [
    (0x00, "0"),
    (0x4f, "1NEGATE"),
    (0x51, "1"),
    (0x52, "2"),
    (0x53, "3"),
    (0x54, "4"),
    (0x55, "5"),
    (0x56, "6"),
    (0x57, "7"),
    (0x58, "8"),
    (0x59, "9"),
    (0x5a, "10"),
    (0x5b, "11"),
    (0x5c, "12"),
    (0x5d, "13"),
    (0x5e, "14"),
    (0x5f, "15"),
    (0x60, "16"),
    (0x61, "NOP"),
    (0x62, "VER"),
    (0x63, "IF"),
    (0x64, "NOTIF"),
    (0x65, "VERIF"),
    (0x66, "VERNOTIF"),
    (0x67, "ELSE"),
    (0x68, "ENDIF"),
    (0x69, "VERIFY"),
    (0x6a, "RETURN"),
    (0x6b, "TOALTSTACK"),
    (0x6c, "FROMALTSTACK"),
    (0x6d, "2DROP"),
    (0x6e, "2DUP"),
    (0x6f, "3DUP"),
    (0x70, "2OVER"),
    (0x71, "2ROT"),
    (0x72, "2SWAP"),
    (0x73, "IFDUP"),
    (0x74, "DEPTH"),
    (0x75, "DROP"),
    (0x76, "DUP"),
    (0x77, "NIP"),
    (0x78, "OVER"),
    (0x79, "PICK"),
    (0x7a, "ROLL"),
    (0x7b, "ROT"),
    (0x7c, "SWAP"),
    (0x7d, "TUCK"),
    (0x7e, "CAT"),
    (0x7f, "SPLIT"),
    (0x80, "NUM2BIN"),
    (0x81, "BIN2NUM"),
    (0x82, "SIZE"),
    (0x83, "INVERT"),
    (0x84, "AND"),
    (0x85, "OR"),
    (0x86, "XOR"),
    (0x87, "EQUAL"),
    (0x88, "EQUALVERIFY"),
    (0x89, "RESERVED1"),
    (0x8a, "RESERVED2"),
    (0x8b, "1ADD"),
    (0x8c, "1SUB"),
    (0x8d, "2MUL"),
    (0x8e, "2DIV"),
    (0x8f, "NEGATE"),
    (0x90, "ABS"),
    (0x91, "NOT"),
    (0x92, "0NOTEQUAL"),
    (0x93, "ADD"),
    (0x94, "SUB"),
    (0x95, "MUL"),
    (0x96, "DIV"),
    (0x97, "MOD"),
    (0x98, "LSHIFT"),
    (0x99, "RSHIFT"),
    (0x9a, "BOOLAND"),
    (0x9b, "BOOLOR"),
    (0x9c, "NUMEQUAL"),
    (0x9d, "NUMEQUALVERIFY"),
    (0x9e, "NUMNOTEQUAL"),
    (0x9f, "LESSTHAN"),
    (0xa0, "GREATERTHAN"),
    (0xa1, "LESSTHANOREQUAL"),
    (0xa2, "GREATERTHANOREQUAL"),
    (0xa3, "MIN"),
    (0xa4, "MAX"),
    (0xa5, "WITHIN"),
    (0xa6, "RIPEMD160"),
    (0xa7, "SHA1"),
    (0xa8, "SHA256"),
    (0xa9, "HASH160"),
    (0xaa, "HASH256"),
    (0xab, "CODESEPARATOR"),
    (0xac, "CHECKSIG"),
    (0xad, "CHECKSIGVERIFY"),
    (0xae, "CHECKMULTISIG"),
    (0xaf, "CHECKMULTISIGVERIFY"),
    (0xb0, "NOP1"),
    (0xb1, "CHECKLOCKTIMEVERIFY"),
    (0xb2, "CHECKSEQUENCEVERIFY"),
    (0xb3, "NOP4"),
    (0xb4, "NOP5"),
    (0xb5, "NOP6"),
    (0xb6, "NOP7"),
    (0xb7, "NOP8"),
    (0xb8, "NOP9"),
    (0xb9, "NOP10"),
    (0xba, "CHECKDATASIG"),
    (0xbb, "CHECKDATASIGVERIFY"),
    (0xbc, "REVERSEBYTES"),
    (0xc0, "INPUTINDEX"),
    (0xc1, "ACTIVEBYTECODE"),
    (0xc2, "TXVERSION"),
    (0xc3, "TXINPUTCOUNT"),
    (0xc4, "TXOUTPUTCOUNT"),
    (0xc5, "TXLOCKTIME"),
    (0xc6, "UTXOVALUE"),
    (0xc7, "UTXOBYTECODE"),
    (0xc8, "OUTPOINTTXHASH"),
    (0xc9, "OUTPOINTINDEX"),
    (0xca, "INPUTBYTECODE"),
    (0xcb, "INPUTSEQUENCENUMBER"),
    (0xcc, "OUTPUTVALUE"),
    (0xcd, "OUTPUTBYTECODE"),
];

/// The name of an opcode, without the `OP_` in front of it, or `None` where it has none. Without a name are the bytes 01 to
/// 4e (hexadecimal), which push bytes of the script, 50, bd to bf, and those from ce on. It takes no memory.
///
/// Source: the Bitcoin Cash specification, on opcodes, after the upgrade of May 2022.
#[tactic(auto, unfolding(crate::specs::Names::named_opcodes))]
pub fn opcode_name(opcode: u8) -> Option<&'static str>
    ensures { MatchOption result (name_of opcode ≡ None) (λ name. name_of opcode ≡ Some name.now) }
{
    name_in(&NAMED_OPCODES, opcode)
}

/// The name in the first row of an opcode.
fn name_in(rows: &'static [NamedOpcode], opcode: u8) -> Option<&'static str>
    ensures { MatchOption result (Names.name_in (map (λ row. (row.0, row.1.now)) rows.now) opcode ≡ None)
        (λ name. Names.name_in (map (λ row. (row.0, row.1.now)) rows.now) opcode ≡ Some name.now) }
{
    match rows {
        [] => None,
        [row, others @ ..] => {
            if opcode == row.0 {
                Some(row.1)
            } else {
                name_in(others, opcode)
            }
        }
    }
}

/// Whether an opcode has a name. It takes no memory.
pub fn has_name(opcode: u8) -> bool
    ensures { result ≡ Names.has_name opcode }
{
    opcode_name(opcode).is_some()
}

/// Whether an instruction is a push, or an opcode above 60 (hexadecimal) that has a name. It takes no memory.
pub fn is_named(instr: &Instr) -> bool
    ensures { result ≡ Names.is_named instr.now }
{
    match instr {
        Instr::Push(_) => true,
        Instr::Do(opcode) => opcode.0 > 0x60 && has_name(opcode.0),
    }
}

/// Whether each instruction is a push, or an opcode above 60 (hexadecimal) that has a name. It takes no memory.
pub fn are_named(code: &[Instr]) -> bool
    ensures { result ≡ Names.are_named code.now }
{
    code.iter().all(|instr| is_named(instr))
}

/// The opcode that has a name, which is given without the `OP_` in front of it, or `None` where none has it. It takes no
/// memory.
#[tactic(auto, unfolding(crate::specs::Names::named_opcodes))]
pub fn opcode_named(name: &[u8]) -> Option<u8>
    ensures { result ≡ Names.opcode_named name.now }
{
    opcode_in(&NAMED_OPCODES, name)
}

/// The opcode in the first row of a name.
fn opcode_in(rows: &[NamedOpcode], name: &[u8]) -> Option<u8>
    ensures { result ≡ Names.opcode_in (map (λ row. (row.0, row.1.now)) rows.now) name.now }
{
    match rows {
        [] => None,
        [row, others @ ..] => {
            if name == row.1.as_bytes() {
                Some(row.0)
            } else {
                opcode_in(others, name)
            }
        }
    }
}
