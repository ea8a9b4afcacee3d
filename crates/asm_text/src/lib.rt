//! Assembly text: code as words, such as `OP_DUP OP_HASH160 1122 OP_EQUALVERIFY`, written and read.
#![tactic(auto)]

mod cutting;
pub mod fault;
pub mod laws;
pub mod reading;
pub mod writing;

pub use fault::AsmFault;
pub use reading::read_asm;
pub use writing::asm_text;
