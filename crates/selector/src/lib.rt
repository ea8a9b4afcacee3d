//! One code for the functions of a contract: an element on the stack chooses the function that is run.
#![tactic(auto)]

mod choosing;
mod code;
pub mod selecting;

pub use selecting::select;
