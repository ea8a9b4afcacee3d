//! The run of a contract's source, as its meaning has it, in a room that is reserved at first.
#![tactic(auto)]

mod evaluate;
mod execute;
pub mod room;

pub use meaning_room::{Failure, SourceOutcome, World, outcome, world};
pub use room::SourceRoom;
