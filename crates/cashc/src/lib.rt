//! The compiler of contracts for Bitcoin Cash: its commands, and its top call.
#![tactic(auto)]

mod commands;
pub mod laws;
pub mod top_call;
