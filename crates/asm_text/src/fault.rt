//! Why a text is no code.

ghost use Rattle.std.specs.Prelude.{◌≡◌};
ghost use Rattle.asm_text.specs.declared.fault.AsmFault.TheVariants as faults;

use std::alloc::{AllocError, AllocFailed};
use thiserror::Error;

/// Why a text is no code: its first word that stands for no instruction, by its number, counted from 0.
#[derive(Clone, Copy, Debug, PartialEq, Eq, Error)]
pub enum AsmFault {
    /// The word begins with `OP_`, and no opcode has the name that follows.
    #[error("word {word} names no opcode")]
    UnknownWord { word: u32 },
    /// The word doesn't begin with `OP_`, and is no even number of hexadecimal digits.
    #[error("word {word} is neither a name nor hexadecimal digits in pairs")]
    BadHex { word: u32 },
    /// The word has the digits of more than 520 bytes.
    #[error("word {word} has the digits of more than 520 bytes")]
    TooLong { word: u32 },
    /// Memory ran out.
    #[error("out of memory")]
    Memory,
}

impl From<AllocError> for AsmFault {
    ghost from_gives = { λ _ fault. fault ≡ faults.Memory };

    fn from(_e: AllocError) -> AsmFault {
        AsmFault::Memory
    }
}

impl<T: Drop> From<AllocFailed<T>> for AsmFault {
    ghost from_gives = { λ _ fault. fault ≡ faults.Memory };

    fn from(_e: AllocFailed<T>) -> AsmFault {
        AsmFault::Memory
    }
}
