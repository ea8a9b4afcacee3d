//! Instructions that work on operands, and on the values of slots.

use cash_base::{Element, Look0, LookAt, Slot, Span};
use element_ops::{Op1, Op2, Op3};
use sqlite_items::Items;

/// What an instruction does. Operands are given in the order of the text, so the last one stands on top.
#[cycle(slot_code)]
#[derive(Drop)]
pub enum SlotKind {
    /// Puts an element on the operands.
    Lit(Element),
    /// Puts the value of a slot on the operands.
    Get(Slot),
    /// Puts what an operation on one element gives in its place.
    Do1(Op1),
    /// The same of two elements.
    Do2(Op2),
    /// The same of three elements.
    Do3(Op3),
    /// Puts the two parts of an element in place of the element and of an index, the right part on top.
    Split,
    /// Keeps one of two parts of a split: the right one, or else the left.
    Keep(bool),
    /// Puts on the operands what `tx` or `this` has one of.
    Look0(Look0),
    /// Puts in place of an index what the input or output there has.
    LookAt(LookAt),
    /// Checks a signature of the transaction: the signature, then the key.
    CheckSig,
    /// Checks a signature of a message: the signature, the message, then the key.
    CheckData,
    /// Checks several signatures of the transaction. From the top stand the number of keys, the keys, the number of
    /// signatures, the signatures, and an empty element.
    CheckMulti {
        sigs: u8,
        keys: u8,
    },
    /// Takes a lock time, and fails where the transaction's doesn't reach it.
    Time,
    /// Takes an age, and fails where the input's doesn't reach it.
    Age,
    /// Takes a truth value, and fails where it is false.
    Require,
    /// Takes what a script of data has so far and a chunk, and appends the chunk's push.
    Chunk,
    /// Takes an element as the first value of a slot.
    Define(Slot),
    /// Takes both parts of a split as the first values of two slots, the left part as that of the first.
    DefinePair(Slot, Slot),
    /// Takes an element as the new value of a slot.
    Assign(Slot),
    /// From here on the slot has no value.
    End(Slot),
    /// Takes a truth value, and runs the block that it picks.
    If {
        yes: Items<SlotInstr>,
        no: Items<SlotInstr>,
    },
}

/// An instruction. `doing` is the place of the operation that it does, and `checking` that of the statement in which it
/// stands; an instruction that serves no operation has the statement's for both.
#[cycle(slot_code)]
#[derive(Drop)]
pub struct SlotInstr {
    pub kind: SlotKind,
    pub doing: Span,
    pub checking: Span,
}

/// A function of a contract. Slots are numbered: first stand the constructor's `ctors` parameters, then the function's own
/// `params`, then what its body defines.
#[derive(Drop)]
pub struct SlotFunction {
    pub params: u16,
    pub ctors: u16,
    pub span: Span,
    pub body: Items<SlotInstr>,
}
