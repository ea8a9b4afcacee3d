//! Spend files: what an author writes down to try a contract, as JSON, is read exactly, or its first fault is told.
#![tactic(auto)]

pub mod choice;
pub mod fault;
mod fields;
pub mod file;
mod reading;
mod transaction;
mod values;
mod verdicts;

pub use choice::Choice;
pub use fault::{SpendFault, SpendField};
pub use file::SpendFile;
pub use reading::read;
