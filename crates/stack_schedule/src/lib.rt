//! The scheduler: from slot code to stack code, each value moved at its last read.
#![tactic(auto)]

pub mod choices;
pub mod paths;
pub mod whole;

pub use whole::schedule;
