//! Laws over runs of the machine: code that is matched in its conditions, and what lies under the stack.
#![tactic(auto)]

pub mod conditions;
pub mod underneath;
