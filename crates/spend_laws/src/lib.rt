//! Laws of the runs of instructions: how they decide spends, and what they keep.
#![tactic(auto)]

pub mod laws;
