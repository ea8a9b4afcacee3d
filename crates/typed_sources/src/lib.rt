//! What is known of the contract of each accepted source.
#![tactic(auto)]

pub mod laws;

pub use laws::accepted_contracts_fit;
