//! Why a contract has no types.

ghost use Rattle.std.specs.Prelude.{◌≡◌};
ghost use Rattle.type_tables.specs.declared.fault.TypeFault.TheVariants as faults;

use cash_base::{Memory, Span};
use cash_tree::Ty;
use std::alloc::{AllocError, AllocFailed};

/// Why a contract has no types: the first node, parts before wholes, left before right and statements in order, whose
/// parts have types and which has none itself. The span is that of this node.
#[derive(Debug, Drop)]
pub enum TypeFault {
    /// A part has another type than its place wants: the first such part, with both types.
    Mismatch { span: Span, wanted: Ty, found: Ty },
    /// No cast leads from this type to that one.
    NoSuchCast { span: Span },
    /// A call has another number of arguments than it wants, or a check of several signatures has more than 20 keys.
    WrongCount { span: Span, wanted: u32, found: u32 },
    /// The index of a pair is neither 0 nor 1.
    BadTupleIndex { span: Span },
    /// An array has no item.
    EmptyArray { span: Span },
    /// A check of several signatures has more signatures than keys.
    MoreSigsThanKeys { span: Span },
    /// A literal number is above 9223372036854775807, or a literal of bytes or text has more than 520 bytes.
    LiteralRange { span: Span },
    /// A function's body doesn't end with a `require`, nor with an `if` whose block, and whose other block where there is
    /// one, ends so; the span is that of the function.
    NoFinalRequire { span: Span },
    /// Memory ran out.
    Memory,
}

impl From<AllocError> for TypeFault {
    ghost from_gives = { λ _ e. e ≡ faults.Memory };

    fn from(_e: AllocError) -> TypeFault {
        TypeFault::Memory
    }
}

impl<T: Drop> From<AllocFailed<T>> for TypeFault {
    ghost from_gives = { λ _ e. e ≡ faults.Memory };

    fn from(_e: AllocFailed<T>) -> TypeFault {
        TypeFault::Memory
    }
}

impl From<Memory> for TypeFault {
    ghost from_gives = { λ _ e. e ≡ faults.Memory };

    fn from(_e: Memory) -> TypeFault {
        TypeFault::Memory
    }
}
