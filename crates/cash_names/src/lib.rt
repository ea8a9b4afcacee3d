//! Checks pragmas and resolves names: each variable becomes its slot.
#![tactic(auto)]

mod expressions;
mod laws;
mod resolving;
mod statements;

pub use laws::{nodes_are_kept, one_answer, slots_are_in_order, spans_are_kept, words_are_kept};
pub use name_scopes::NameFault;
pub use resolving::resolve;
