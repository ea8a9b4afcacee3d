//! The workload: generated contracts, compiled and spent, each spend beside the run of its source.
#![tactic(auto)]

pub mod lines;
mod summary;
mod trying;
pub mod work;

pub use summary::summary_of;
