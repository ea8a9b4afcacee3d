//! Why a text has no tokens.

ghost use Rattle.std.specs.Prelude.{◌≡◌};
ghost use Rattle.cash_lexer.specs.declared.fault.LexFault.TheVariants.{Memory};

use cash_base::Span;
use std::alloc::{AllocError, AllocFailed};

/// Why a text has no tokens. Spans count bytes from the start of the source.
#[derive(Clone, Copy, Debug, PartialEq, Eq)]
pub enum LexFault {
    /// No token begins with this character.
    BadCharacter { span: Span },
    /// A string isn't closed on its line; the span is its opening quote.
    OpenString { span: Span },
    /// A comment isn't closed; the span runs from its `/*` to the end of the source.
    OpenComment { span: Span },
    /// A number of 2^128 or more.
    NumberTooWide { span: Span },
    /// `0x` with an odd number of digits.
    OddHex { span: Span },
    /// What stands after `date(` is no date in a string and `)`; the span is `date(`.
    BadDate { span: Span },
    /// Memory ran out.
    Memory,
}

impl From<AllocError> for LexFault {
    ghost from_gives = { λ _ fault. fault ≡ Memory };

    fn from(_e: AllocError) -> LexFault {
        LexFault::Memory
    }
}

impl<T: Drop> From<AllocFailed<T>> for LexFault {
    ghost from_gives = { λ _ fault. fault ≡ Memory };

    fn from(_e: AllocFailed<T>) -> LexFault {
        LexFault::Memory
    }
}
