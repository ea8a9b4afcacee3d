//! Emitted rows that follow slot code, instruction by instruction, and the place where the values stand.
#![tactic(auto)]

pub mod emit;
pub mod opcodes;
pub mod place;
pub mod settle;
