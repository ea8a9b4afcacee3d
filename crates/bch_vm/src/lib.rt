//! The Bitcoin Cash machine: what a spend's scripts do, instruction by instruction, and whether the spend is accepted.
#![tactic(auto)]

pub mod machine;
pub mod outcome;
pub mod phase;
mod room;
mod run;
mod surroundings;

pub use cash_base::MachineCause;
pub use machine::Machine;
pub use outcome::{MachineOutcome, Step, Which};
