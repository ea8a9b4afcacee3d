//! What the tables of the types speak of.

use cash_base::Slot;
use cash_tree::Ty;

/// What an operator with two sides wants and gives.
#[derive(Clone, Copy, Debug, PartialEq, Eq)]
pub enum OperatorRule {
    /// Of two numbers a number.
    Arithmetic,
    /// Whether one number is before the other.
    Order,
    /// Of two truth values one.
    Logic,
    /// The sum of two numbers, or one text or bytes after another.
    Sum,
    /// Whether both are the same.
    Equality,
    /// Bytes with bytes, bit by bit.
    Bitwise,
}

/// What a cast does with an element.
#[derive(Clone, Copy, Debug, PartialEq, Eq)]
pub enum CastEffect {
    /// Nothing.
    Keep,
    /// Whether the number isn't zero.
    NonZero,
    /// The number is padded to so many bytes.
    Pad(u16),
    /// The number is padded to the size that the cast tells.
    PadToSize,
    /// The bytes are made the shortest form of their number.
    ToNumber,
}

/// The item of an array that a call wants.
#[derive(Clone, Copy, Debug, PartialEq, Eq)]
pub enum Item {
    Bytes,
    Sig,
    Pubkey,
}

/// What a call wants of an argument.
#[derive(Clone, Copy, Debug, PartialEq, Eq)]
pub enum Want {
    Int,
    /// Any type but arrays and pairs.
    Single,
    Sig,
    Pubkey,
    Datasig,
    Bytes,
    /// `bytes20`
    Hash,
    /// An array of such items.
    Items(Item),
}

/// What a call wants of its arguments, up to three.
#[derive(Clone, Copy, Debug, PartialEq, Eq)]
pub struct Signature {
    pub first: Option<Want>,
    pub second: Option<Want>,
    pub third: Option<Want>,
}

/// The type of a name.
#[derive(Drop)]
pub struct Binding {
    pub slot: Slot,
    pub ty: Ty,
}
