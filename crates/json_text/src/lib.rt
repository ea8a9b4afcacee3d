//! JSON values as text in one layout, from which the same value is read.
#![tactic(auto)]

pub mod laws;
pub mod pretty;

pub use pretty::pretty_text;
