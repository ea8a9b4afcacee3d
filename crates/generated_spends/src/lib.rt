//! The contracts and the spend files of the workload: each contract has a number, from which its text and its fifty spend files are
//! drawn, the same at each run.
#![tactic(auto)]

mod draws;
mod spends;
mod texts;

pub use spends::{Generated, generated_contract};
