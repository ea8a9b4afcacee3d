//! What a spend of a program comes to, as a spend file asks for it: how the machine ends, where in the source, and which
//! instructions it executes on the way.
#![tactic(auto)]

mod judging;
mod opcodes;
mod tracing;

pub use judging::debug;
pub use tracing::{TraceRow, rows_are_low, trace};
