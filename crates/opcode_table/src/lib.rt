//! The opcodes of the Bitcoin Cash machine as rows of data, and what each does to the stack.
#![tactic(auto)]

pub mod asks;
pub mod elements;
pub mod rows;
mod signatures;

pub use asks::Asks;
pub use elements::{Elements, PLACES};
pub use rows::{Deed, Row, row_of};
