//! Layouts of values on the stack, and the moves that bring both arms of a choice to one layout.
#![tactic(auto)]

pub mod joining;
pub mod layout;
mod moves;

pub use joining::join;
pub use layout::{Join, Layout};
