//! What the tokens of a source are to the grammar: signs, words and literals, and how deep they nest.
#![tactic(auto)]

mod depth;
mod fault;
pub mod front;
pub mod literals;
pub mod words;

pub use depth::first_too_deep;
pub use fault::{DepthRule, Stop};
