//! What is told of a source: the line of its refusal, the lines of a trace, and how its run ends.
#![tactic(auto)]

pub mod places;
pub mod refusal_text;
pub mod run_text;
pub mod trace_text;
