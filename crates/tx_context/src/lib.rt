//! What the world outside of a contract holds when it is spent: the transaction, and the verdicts on signatures.
#![tactic(auto)]

pub mod context;
pub mod frame;
pub mod laws;
pub mod look_up;
pub mod part;
pub mod signature;
pub mod verdict;

pub use cash_base::{Look0, LookAt, Memory};
pub use context::{Context, fill};
pub use frame::{
    Frame, FrameFault, GREATEST_VALUE, GREATEST_VERSION, LONGEST_BYTECODE, MOST_INPUTS,
    MOST_OUTPUTS,
};
pub use look_up::{age_met, look_at, look0, time_met};
pub use part::{Bytecode, ContextInput, ContextOutput, Input, Output, plain_input};
pub use signature::{check_many, check_one};
pub use verdict::{Answer, Kind, MOST_ROWS, TableFault, VerdictRow, Verdicts};
