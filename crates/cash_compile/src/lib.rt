//! From a source to the program of its contract, or why there is none: reading, the code of each function, the choice among
//! functions, the limits of a script, and what a program tells of its contract.
#![tactic(auto)]

pub mod compile;
mod describe;
mod functions;
pub mod laws;
pub mod reading;
pub mod refusal;
mod size;

pub use refusal::Refusal;
pub use source_stages::MAX_SOURCE_LEN;
