//! Laws of how many opcodes code counts, the keys of checks of several signatures among them.
#![tactic(auto)]

pub mod laws;
