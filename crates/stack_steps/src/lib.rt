//! Slot code's steps as rows: one instruction that is no choice, each value moved at its last read.
#![tactic(auto)]

pub mod low;
