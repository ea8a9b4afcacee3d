//! The rows of slot code's larger operations: a chunk's push, and a check of several signatures.
#![tactic(auto)]

pub mod pieces;
