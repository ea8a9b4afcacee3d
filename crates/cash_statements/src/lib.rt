//! Parses the statements that tokens spell.
#![tactic(auto)]

mod statements;

pub use statements::{Param, param_of, several};
