//! Why a call or a run fails.

use std::alloc::{AllocError, AllocFailed};
use std::error::Error;
use std::fmt;

/// Memory ran out. It is the only answer that no contract ties to its cause.
#[derive(Clone, Copy, Debug, PartialEq, Eq)]
pub struct Memory;

impl fmt::Display for Memory {
    fn fmt<W: fmt::Write>(&self, f: &mut fmt::Formatter<W>) -> fmt::Result {
        f.write_str("out of memory")
    }
}

impl Error for Memory {}

impl From<AllocError> for Memory {
    fn from(_e: AllocError) -> Memory {
        Memory
    }
}

impl<T: Drop> From<AllocFailed<T>> for Memory {
    fn from(_e: AllocFailed<T>) -> Memory {
        Memory
    }
}

/// Why a run of a contract fails, in its source and in the machine alike.
#[derive(Clone, Copy, Debug, PartialEq, Eq)]
pub enum Cause {
    /// A `require` found a false value.
    CheckFailed,
    /// An operand is read as a number, and is no script number.
    NotANumber,
    /// A number is outside -(2^63 - 1) to 2^63 - 1.
    NumberRange,
    /// A divisor is zero.
    DivideByZero,
    /// A split at a negative place, or at more bytes than there are.
    SplitRange,
    /// A size to pad to is negative, above 520 bytes, or less than the bytes of the shortest form of what is padded.
    PadSize,
    /// An element would have over 520 bytes.
    Oversize,
    /// Elements that are combined byte by byte have different lengths.
    LengthDiffers,
    /// The transaction has no input, or no output, at an index.
    IndexRange,
    /// A signature that isn't empty fails its check.
    NullFail,
    /// A signature or a key isn't well formed.
    Malformed,
    /// The transaction's lock time is before the wanted one or of the other kind, or doesn't count; or what is wanted is
    /// negative or has more than 5 bytes.
    LockTime,
    /// The sequence is below the wanted age or of the other kind, or doesn't count; or what is wanted is negative or has
    /// more than 5 bytes.
    Age,
}

/// Why the machine refuses.
#[derive(Clone, Copy, Debug, PartialEq, Eq)]
pub enum MachineCause {
    /// A cause that the source's run has too.
    Shared(Cause),
    /// An opcode doesn't find its operands.
    Underflow,
    /// An executed opcode that has no meaning, or one that may stand nowhere.
    BadOpcode,
    /// An opcode that the specification switched off.
    Disabled,
    /// A condition is open at the end of a script, IF or NOTIF has no element, or ELSE or ENDIF no condition.
    Unbalanced,
    /// More than one element is left at the end of the spend.
    NotClean,
    /// The unlocking script has an opcode that is no push.
    NotPushOnly,
    /// The redeem script isn't the one whose hash is locked.
    HashDiffers,
    /// A script has more than 201 counted opcodes.
    OpLimit,
    /// Both stacks together have more than 1,000 elements.
    StackLimit,
    /// A script has more than 10,000 bytes.
    ScriptSize,
    /// A push has more than 520 bytes.
    PushSize,
    /// An executed push isn't the shortest one for its element.
    NotMinimal,
    /// The number of keys is outside 0 to 20, or that of signatures outside 0 to the number of keys.
    KeyCount,
    /// The dummy element of a multisignature check isn't empty.
    CheckBits,
    /// RETURN was executed.
    Returned,
    /// The alternate stack is empty.
    AltEmpty,
    /// The top of the stack is false at the end of a script.
    EndFalse,
    /// The stack is empty at the end of a script.
    EndEmpty,
    /// The length or the bytes of a push are cut off.
    Truncated,
}
