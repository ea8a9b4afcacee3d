//! The operations on elements that a contract's source and the machine share, and the forms of an element as a whole number of
//! any width. None of them takes memory.
//!
//! What an operation gives is a table of the crate's `specs`, which the source's meaning and the machine both cite.
#![tactic(auto)]

mod apply;
mod bytes;
mod hashes;
pub mod laws;
mod numbers;
pub mod op;
mod operand;
mod width;

pub use apply::{apply1, apply2, apply3};
pub use bytes::split;
pub use op::{Op1, Op2, Op3};
pub use width::{of_width, shortest};
