//! Rewrite rules on rows of code, each with a proved law: window and replacement do the same.
#![tactic(auto)]

pub mod rewriting;
pub mod rules;

pub use rewriting::{Replacement, Rewrite};
