//! What a contract means, and the room for the values of a run: those of an expression on a stack, and those of names.
#![tactic(auto)]

pub mod names;
pub mod operands;
pub mod outcome;
pub mod world;

pub use names::Names;
pub use operands::{Operands, Width};
pub use outcome::{Failure, SourceOutcome};
pub use world::World;
