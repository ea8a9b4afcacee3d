//! Laws of lowering.
#![tactic(auto)]

pub mod laws;

pub use laws::{contracts_are_lowered, expressions_are_ready};
