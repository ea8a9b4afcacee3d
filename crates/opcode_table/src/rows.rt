//! The opcodes as data: what each does.

ghost use Rattle.std.specs.Prelude.{◌≡◌, IsTrue};
ghost use Rattle.opcode_table.specs.Table;
ghost use Rattle.opcode_table.specs.Table.{is_modest_row};

use cash_base::{Look0, LookAt, MachineCause};
use element_ops::{Op1, Op2, Op3};

/// What an opcode does to the stack.
///
/// Sources, for it and for the rows: the Bitcoin Cash specification after May 2022; BIP 65 and BIP 112 for lock times and
/// ages; CHIP-2021-02, native introspection, for what is asked of the transaction.
#[derive(Clone, Copy, Debug, PartialEq, Eq)]
pub enum Deed {
    /// Nothing.
    Stays,
    /// It fails.
    Refuses(MachineCause),
    /// It takes so many elements, of which the deepest is number 0, and puts so many: those with the numbers, in order, the
    /// last on top.
    Puts(u8, u8, [u8; 6]),
    /// An operation on the element on top.
    One(Op1),
    /// An operation on the two elements on top.
    Two(Op2),
    /// An operation on the three elements on top.
    Three(Op3),
    /// It puts the length of the top on it.
    Measures,
    /// It cuts an element in two.
    Splits,
    /// It copies the top where that is true.
    CopiesTrue,
    /// It puts the height of the stack.
    Counts,
    /// It copies the element so many below the top.
    Copies,
    /// It moves the element so many below the top to the top.
    Moves,
    /// It takes an element, which must be true.
    Verifies,
    /// It puts what is asked of the transaction.
    Asks(Look0),
    /// It takes an index, and puts what is asked of the input or the output there.
    AsksAt(LookAt),
    /// The lock time on top must be met.
    Waits,
    /// The age on top must be met.
    Ages,
    /// It checks a signature of the transaction.
    Checks,
    /// It checks a signature of a message.
    ChecksData,
    /// It checks signatures of the transaction by several keys.
    ChecksMany,
}

/// What an opcode does to both stacks, the open conditions and the place of the separator.
#[derive(Clone, Copy, Debug, PartialEq, Eq)]
pub enum Row {
    /// It fails, executed or not.
    Never(MachineCause),
    /// It opens a condition, executed or not: the truth of an element that it takes, or the contrary.
    Opens(bool),
    /// It flips the innermost condition, executed or not.
    Flips,
    /// It closes the innermost condition, executed or not.
    Closes,
    /// Executed, it moves the top to the alternate stack.
    Lays,
    /// Executed, it moves the top of the alternate stack back.
    Fetches,
    /// Executed, it lets the active bytecode begin after it.
    Separates,
    /// Executed, it does this.
    Does(Deed),
    /// Executed, it does this and then what VERIFY does.
    DoesAndVerifies(Deed),
}

/// An executed opcode without a meaning.
const BAD: Row = Row::Does(Deed::Refuses(MachineCause::BadOpcode));

/// The opcode of the first row.
const FIRST: u8 = 0x61;

/// The rows of the bytes 61 to cd (hexadecimal), in order. The numbers of a `Puts` after those that it puts are no part of it.
const ROWS: [Row; 109] = [
    Row::Does(Deed::Stays), // 61 NOP
    Row::Does(Deed::Refuses(MachineCause::BadOpcode)), // 62 VER
    Row::Opens(true), // 63 IF
    Row::Opens(false), // 64 NOTIF
    Row::Never(MachineCause::BadOpcode), // 65 VERIF
    Row::Never(MachineCause::BadOpcode), // 66 VERNOTIF
    Row::Flips, // 67 ELSE
    Row::Closes, // 68 ENDIF
    Row::Does(Deed::Verifies), // 69 VERIFY
    Row::Does(Deed::Refuses(MachineCause::Returned)), // 6a RETURN
    Row::Lays, // 6b TOALTSTACK
    Row::Fetches, // 6c FROMALTSTACK
    Row::Does(Deed::Puts(2, 0, [0, 0, 0, 0, 0, 0])), // 6d 2DROP
    Row::Does(Deed::Puts(2, 4, [0, 1, 0, 1, 0, 0])), // 6e 2DUP
    Row::Does(Deed::Puts(3, 6, [0, 1, 2, 0, 1, 2])), // 6f 3DUP
    Row::Does(Deed::Puts(4, 6, [0, 1, 2, 3, 0, 1])), // 70 2OVER
    Row::Does(Deed::Puts(6, 6, [2, 3, 4, 5, 0, 1])), // 71 2ROT
    Row::Does(Deed::Puts(4, 4, [2, 3, 0, 1, 0, 0])), // 72 2SWAP
    Row::Does(Deed::CopiesTrue), // 73 IFDUP
    Row::Does(Deed::Counts), // 74 DEPTH
    Row::Does(Deed::Puts(1, 0, [0, 0, 0, 0, 0, 0])), // 75 DROP
    Row::Does(Deed::Puts(1, 2, [0, 0, 0, 0, 0, 0])), // 76 DUP
    Row::Does(Deed::Puts(2, 1, [1, 0, 0, 0, 0, 0])), // 77 NIP
    Row::Does(Deed::Puts(2, 3, [0, 1, 0, 0, 0, 0])), // 78 OVER
    Row::Does(Deed::Copies), // 79 PICK
    Row::Does(Deed::Moves), // 7a ROLL
    Row::Does(Deed::Puts(3, 3, [1, 2, 0, 0, 0, 0])), // 7b ROT
    Row::Does(Deed::Puts(2, 2, [1, 0, 0, 0, 0, 0])), // 7c SWAP
    Row::Does(Deed::Puts(2, 3, [1, 0, 1, 0, 0, 0])), // 7d TUCK
    Row::Does(Deed::Two(Op2::Cat)), // 7e CAT
    Row::Does(Deed::Splits), // 7f SPLIT
    Row::Does(Deed::Two(Op2::Pad)), // 80 NUM2BIN
    Row::Does(Deed::One(Op1::ToNumber)), // 81 BIN2NUM
    Row::Does(Deed::Measures), // 82 SIZE
    Row::Never(MachineCause::Disabled), // 83 INVERT
    Row::Does(Deed::Two(Op2::And)), // 84 AND
    Row::Does(Deed::Two(Op2::Or)), // 85 OR
    Row::Does(Deed::Two(Op2::Xor)), // 86 XOR
    Row::Does(Deed::Two(Op2::Equal)), // 87 EQUAL
    Row::DoesAndVerifies(Deed::Two(Op2::Equal)), // 88 EQUALVERIFY
    Row::Does(Deed::Refuses(MachineCause::BadOpcode)), // 89 RESERVED1
    Row::Does(Deed::Refuses(MachineCause::BadOpcode)), // 8a RESERVED2
    Row::Does(Deed::One(Op1::AddOne)), // 8b 1ADD
    Row::Does(Deed::One(Op1::SubOne)), // 8c 1SUB
    Row::Never(MachineCause::Disabled), // 8d 2MUL
    Row::Never(MachineCause::Disabled), // 8e 2DIV
    Row::Does(Deed::One(Op1::Negate)), // 8f NEGATE
    Row::Does(Deed::One(Op1::Abs)), // 90 ABS
    Row::Does(Deed::One(Op1::Not)), // 91 NOT
    Row::Does(Deed::One(Op1::NonZero)), // 92 0NOTEQUAL
    Row::Does(Deed::Two(Op2::Add)), // 93 ADD
    Row::Does(Deed::Two(Op2::Sub)), // 94 SUB
    Row::Does(Deed::Two(Op2::Mul)), // 95 MUL
    Row::Does(Deed::Two(Op2::Div)), // 96 DIV
    Row::Does(Deed::Two(Op2::Mod)), // 97 MOD
    Row::Never(MachineCause::Disabled), // 98 LSHIFT
    Row::Never(MachineCause::Disabled), // 99 RSHIFT
    Row::Does(Deed::Two(Op2::BoolAnd)), // 9a BOOLAND
    Row::Does(Deed::Two(Op2::BoolOr)), // 9b BOOLOR
    Row::Does(Deed::Two(Op2::NumEqual)), // 9c NUMEQUAL
    Row::DoesAndVerifies(Deed::Two(Op2::NumEqual)), // 9d NUMEQUALVERIFY
    Row::Does(Deed::Two(Op2::NumNotEqual)), // 9e NUMNOTEQUAL
    Row::Does(Deed::Two(Op2::Less)), // 9f LESSTHAN
    Row::Does(Deed::Two(Op2::Greater)), // a0 GREATERTHAN
    Row::Does(Deed::Two(Op2::LessEqual)), // a1 LESSTHANOREQUAL
    Row::Does(Deed::Two(Op2::GreaterEqual)), // a2 GREATERTHANOREQUAL
    Row::Does(Deed::Two(Op2::Min)), // a3 MIN
    Row::Does(Deed::Two(Op2::Max)), // a4 MAX
    Row::Does(Deed::Three(Op3::Within)), // a5 WITHIN
    Row::Does(Deed::One(Op1::Ripemd160)), // a6 RIPEMD160
    Row::Does(Deed::One(Op1::Sha1)), // a7 SHA1
    Row::Does(Deed::One(Op1::Sha256)), // a8 SHA256
    Row::Does(Deed::One(Op1::Hash160)), // a9 HASH160
    Row::Does(Deed::One(Op1::Hash256)), // aa HASH256
    Row::Separates, // ab CODESEPARATOR
    Row::Does(Deed::Checks), // ac CHECKSIG
    Row::DoesAndVerifies(Deed::Checks), // ad CHECKSIGVERIFY
    Row::Does(Deed::ChecksMany), // ae CHECKMULTISIG
    Row::DoesAndVerifies(Deed::ChecksMany), // af CHECKMULTISIGVERIFY
    Row::Does(Deed::Stays), // b0 NOP1
    Row::Does(Deed::Waits), // b1 CHECKLOCKTIMEVERIFY
    Row::Does(Deed::Ages), // b2 CHECKSEQUENCEVERIFY
    Row::Does(Deed::Stays), // b3 NOP4
    Row::Does(Deed::Stays), // b4 NOP5
    Row::Does(Deed::Stays), // b5 NOP6
    Row::Does(Deed::Stays), // b6 NOP7
    Row::Does(Deed::Stays), // b7 NOP8
    Row::Does(Deed::Stays), // b8 NOP9
    Row::Does(Deed::Stays), // b9 NOP10
    Row::Does(Deed::ChecksData), // ba CHECKDATASIG
    Row::DoesAndVerifies(Deed::ChecksData), // bb CHECKDATASIGVERIFY
    Row::Does(Deed::One(Op1::Reverse)), // bc REVERSEBYTES
    Row::Does(Deed::Refuses(MachineCause::BadOpcode)), // bd
    Row::Does(Deed::Refuses(MachineCause::BadOpcode)), // be
    Row::Does(Deed::Refuses(MachineCause::BadOpcode)), // bf
    Row::Does(Deed::Asks(Look0::ActiveIndex)), // c0 INPUTINDEX
    Row::Does(Deed::Asks(Look0::ActiveBytecode)), // c1 ACTIVEBYTECODE
    Row::Does(Deed::Asks(Look0::Version)), // c2 TXVERSION
    Row::Does(Deed::Asks(Look0::InputCount)), // c3 TXINPUTCOUNT
    Row::Does(Deed::Asks(Look0::OutputCount)), // c4 TXOUTPUTCOUNT
    Row::Does(Deed::Asks(Look0::Locktime)), // c5 TXLOCKTIME
    Row::Does(Deed::AsksAt(LookAt::UtxoValue)), // c6 UTXOVALUE
    Row::Does(Deed::AsksAt(LookAt::UtxoBytecode)), // c7 UTXOBYTECODE
    Row::Does(Deed::AsksAt(LookAt::OutpointHash)), // c8 OUTPOINTTXHASH
    Row::Does(Deed::AsksAt(LookAt::OutpointIndex)), // c9 OUTPOINTINDEX
    Row::Does(Deed::AsksAt(LookAt::InputBytecode)), // ca INPUTBYTECODE
    Row::Does(Deed::AsksAt(LookAt::InputSequence)), // cb INPUTSEQUENCENUMBER
    Row::Does(Deed::AsksAt(LookAt::OutputValue)), // cc OUTPUTVALUE
    Row::Does(Deed::AsksAt(LookAt::OutputBytecode)), // cd OUTPUTBYTECODE
];

fn row_in(rows: &[Row], opcode: u8) -> Row
    ensures { result ≡ Table.row_in rows.now opcode }
{
    if opcode < FIRST {
        return BAD;
    }
    let at = (opcode - FIRST) as usize;
    if at >= rows.len() {
        return BAD;
    }
    rows[at]
}

/// The row of an opcode. Below 61 and above cd (hexadecimal) an executed one has no meaning.
#[tactic(auto, unfolding(crate::specs::Table::rows), using(crate::proofs::Sameness::modest))]
pub fn row_of(opcode: u8) -> Row
    ensures value { result ≡ Table.row_of opcode }
    ensures modest { IsTrue (is_modest_row result) }
{
    row_in(&ROWS, opcode)
}
