//! From typed contracts to slot code.
#![tactic(auto)]

pub mod contract;
pub mod statements;

pub use contract::lower;
