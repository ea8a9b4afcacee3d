//! Why a tree has no named tree.

ghost use Rattle.std.specs.Prelude.{◌≡◌};
ghost use Rattle.name_scopes.specs.declared.fault.NameFault.TheVariants.{Memory};

use cash_base::Span;
use std::alloc::{AllocError, AllocFailed};

/// Why a tree of a source has no named tree.
#[derive(Clone, Copy, Debug, PartialEq, Eq)]
pub enum NameFault {
    /// A pragma's constraint, at this span, doesn't admit the language's version, or is no requirement at all.
    PragmaRefused { span: Span },
    /// No variable in scope has this name, or, where it is called, no built-in function or instantiation.
    UnknownName { span: Span },
    /// The name that is declared here is in scope already.
    Redeclared { span: Span },
    /// The name of a constant is assigned.
    AssignToConstant { span: Span },
    /// One more name is declared than may be.
    TooManyNames { span: Span },
    /// The contract, at this span, has no function.
    NoFunction { span: Span },
    /// Memory ran out.
    Memory,
}

impl From<AllocError> for NameFault {
    ghost from_gives = { λ _ e. e ≡ Memory };

    fn from(_e: AllocError) -> NameFault {
        NameFault::Memory
    }
}

impl<T: Drop> From<AllocFailed<T>> for NameFault {
    ghost from_gives = { λ _ e. e ≡ Memory };

    fn from(_e: AllocFailed<T>) -> NameFault {
        NameFault::Memory
    }
}

impl From<cash_base::Memory> for NameFault {
    ghost from_gives = { λ _ e. e ≡ Memory };

    fn from(_e: cash_base::Memory) -> NameFault {
        NameFault::Memory
    }
}
