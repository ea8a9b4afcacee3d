//! Compiled contracts, and the JSON files that keep them: written in one way, and read exactly.
#![tactic(auto)]

pub mod fault;
mod fields;
pub mod laws;
mod parts;
pub mod program;
mod reading;
pub mod types;
mod writing;

pub use fault::{ArtifactFault, Field};
pub use program::{AbiFunction, AbiInput, Program, is_spelled};
pub use reading::read;
pub use writing::write;
