//! Parses the tokens of a source into a tree.
#![tactic(auto)]

mod fault;
mod file;
mod laws;
mod parsing;

pub use cash_symbols::DepthRule;
pub use fault::ParseFault;
pub use laws::{names_have_texts, one_tree, spans_come_apart, tokens_stand_in_order, trees_hold};
pub use parsing::parse;
