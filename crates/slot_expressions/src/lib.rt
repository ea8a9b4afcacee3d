//! From typed expressions to slot code, in the order of the text.
#![tactic(auto)]

pub mod expressions;
pub mod rows;
