//! Instructions.

use cash_base::Element;

/// An opcode by its byte.
#[derive(Clone, Copy, Debug, PartialEq, Eq)]
pub struct Opcode(pub u8);

impl Opcode {
    /// Does nothing.
    pub const NOP: Opcode = Opcode(0x61);

    /// Takes away the element below the top.
    pub const NIP: Opcode = Opcode(0x77);

    /// Takes a number, and copies the element that lies so deep to the top.
    pub const PICK: Opcode = Opcode(0x79);

    /// Whether two elements are equal.
    pub const EQUAL: Opcode = Opcode(0x87);

    /// Whether two numbers are equal.
    pub const NUMEQUAL: Opcode = Opcode(0x9c);

    /// The RIPEMD-160 of the SHA-256 of an element.
    pub const HASH160: Opcode = Opcode(0xa9);

    /// Whether several signatures are good for several keys.
    pub const CHECKMULTISIG: Opcode = Opcode(0xae);

    /// The same, which fails where they aren't.
    pub const CHECKMULTISIGVERIFY: Opcode = Opcode(0xaf);
}

/// What an instruction of a script does: the push of an element, however it is spelled there, or an opcode that is no push.
#[derive(Drop)]
pub enum Instr {
    Push(Element),
    Do(Opcode),
}
