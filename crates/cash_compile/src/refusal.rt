//! Why a source isn't compiled.

ghost use Rattle.std.specs.Prelude.{◌≡◌};
ghost use Rattle.cash_compile.specs.declared.refusal.Refusal.TheVariants.{Memory};

use cash_base::Memory;
use cash_lexer::LexFault;
use cash_names::NameFault;
use cash_parser::ParseFault;
use script_codec::Instr;
use std::alloc::AllocError;
use type_check::TypeFault;

/// Why a source isn't compiled: the first stage that gives nothing, in this order.
#[derive(Drop)]
pub enum Refusal {
    /// It has this number of bytes, more than 65,536.
    SourceTooLong { bytes: u32 },
    /// It isn't UTF-8; its longest valid prefix has this number of bytes.
    NotUtf8 { at: u32 },
    /// It has no tokens. The fault is never want of memory.
    Lex(LexFault),
    /// Its tokens give no tree. The fault is never want of memory.
    Parse(ParseFault),
    /// A pragma or a name of its tree is refused. The fault is never want of memory.
    Name(NameFault),
    /// A node of its named tree has no type. The fault is never want of memory.
    Typing(TypeFault),
    /// Its code, which is carried, has this number of bytes, more than the 520 of a redeem script, and at most those of the
    /// contract's room.
    CodeTooLong { bytes: usize, code: Vec<Instr> },
    /// Its code, which is carried, has few enough bytes, and counts this number of opcodes, more than the 201 of a script, and
    /// at most those of the contract's room.
    TooManyOps { count: u32, code: Vec<Instr> },
    /// Memory ran out.
    Memory,
}

impl From<Memory> for Refusal {
    ghost from_gives = { λ _ refusal. refusal ≡ Memory };

    fn from(_e: Memory) -> Refusal {
        Refusal::Memory
    }
}

impl From<AllocError> for Refusal {
    ghost from_gives = { λ _ refusal. refusal ≡ Memory };

    fn from(_e: AllocError) -> Refusal {
        Refusal::Memory
    }
}
