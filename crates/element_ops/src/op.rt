//! The names of the operations.

/// An operation on one element. Source: the Bitcoin Cash specification, the opcode of each.
#[derive(Clone, Copy, Debug, PartialEq, Eq)]
pub enum Op1 {
    /// The number with the other sign (NEGATE).
    Negate,
    /// The number without its sign (ABS).
    Abs,
    /// Whether the number is zero (NOT).
    Not,
    /// Whether the number isn't zero (0NOTEQUAL).
    NonZero,
    /// The number after it (1ADD).
    AddOne,
    /// The number before it (1SUB).
    SubOne,
    /// The number of bytes (SIZE).
    Size,
    /// The bytes, the last first (REVERSEBYTES).
    Reverse,
    /// The shortest element with the same sign and magnitude, which is a number (BIN2NUM).
    ToNumber,
    /// The RIPEMD-160 of the bytes.
    Ripemd160,
    /// The SHA-1 of the bytes.
    Sha1,
    /// The SHA-256 of the bytes.
    Sha256,
    /// The RIPEMD-160 of the SHA-256 of the bytes.
    Hash160,
    /// The SHA-256 of the SHA-256 of the bytes.
    Hash256,
}

/// An operation on two elements, the first of which lies deeper. Source: the Bitcoin Cash specification, the opcode of
/// each.
#[derive(Clone, Copy, Debug, PartialEq, Eq)]
pub enum Op2 {
    /// The sum of two numbers.
    Add,
    /// The first number less the second.
    Sub,
    /// The product of two numbers.
    Mul,
    /// The quotient, towards zero.
    Div,
    /// The remainder, with the sign of the first number.
    Mod,
    /// The lesser of two numbers.
    Min,
    /// The greater of two numbers.
    Max,
    /// Whether the first number is less than the second.
    Less,
    /// Whether the first number is greater than the second.
    Greater,
    /// Whether the first number is at most the second.
    LessEqual,
    /// Whether the first number is at least the second.
    GreaterEqual,
    /// Whether two numbers are the same.
    NumEqual,
    /// Whether two numbers differ.
    NumNotEqual,
    /// Whether both numbers aren't zero.
    BoolAnd,
    /// Whether one of the numbers isn't zero.
    BoolOr,
    /// Whether the bytes are the same.
    Equal,
    /// The bits that both have.
    And,
    /// The bits that one of them has.
    Or,
    /// The bits that just one of them has.
    Xor,
    /// The bytes of the first, and after them those of the second.
    Cat,
    /// The first element as a number of so many bytes as the second says (NUM2BIN).
    Pad,
}

/// An operation on three elements, the first of which lies deepest. Source: the Bitcoin Cash specification.
#[derive(Clone, Copy, Debug, PartialEq, Eq)]
pub enum Op3 {
    /// Whether the first number is at least the second and less than the third (WITHIN).
    Within,
}
