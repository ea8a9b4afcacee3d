//! Instructions as bytes: what the bytes of a script spell, the minimal spelling of instructions, and the names of opcodes.
#![tactic(auto)]

pub mod counting;
pub mod instr;
pub mod laws;
pub mod names;
pub mod reading;
pub mod spans;
pub mod spelling;

pub use counting::{counted, weight};
pub use instr::{Instr, Opcode};
pub use names::{are_named, has_name, is_named, opcode_name, opcode_named};
pub use reading::{CodecFault, RawInstr, next_instr};
pub use spans::{Mark, Marked, Spanned};
pub use spelling::{encode, own_opcode};
