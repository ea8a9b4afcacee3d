//! Why a part of the tokens could not be read.

ghost use Rattle.std.specs.Prelude.{◌≡◌};
ghost use Rattle.cash_symbols.specs.declared.fault.Stop.TheVariants.{Memory};

use std::alloc::{AllocError, AllocFailed};

/// A limit on the tokens, counted from the left.
#[derive(Clone, Copy, Debug, PartialEq, Eq)]
pub enum DepthRule {
    /// More than 64 open `(` and `[` together.
    Brackets,
    /// More than 32 open `{`.
    Braces,
    /// More than 1,000 tokens since the last `;`, `{` or `}`.
    Run,
    /// More than 128 tokens `if`.
    Branches,
}

/// Why a part of the tokens could not be read: where the grammar wants another token, as many are left. The values of a
/// cast are counted after its `)`, so there as many are left.
#[derive(Clone, Copy, Debug, PartialEq, Eq)]
pub enum Stop {
    Syntax { left: usize },
    Memory,
}

impl From<AllocError> for Stop {
    ghost from_gives = { λ _ e. e ≡ Memory };

    fn from(_e: AllocError) -> Stop {
        Stop::Memory
    }
}

impl<T: Drop> From<AllocFailed<T>> for Stop {
    ghost from_gives = { λ _ e. e ≡ Memory };

    fn from(_e: AllocFailed<T>) -> Stop {
        Stop::Memory
    }
}
