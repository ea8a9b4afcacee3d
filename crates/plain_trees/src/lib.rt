//! What a source spells: literals that hold bytes, and parameters that are elements. So its runs on values find numbers.
#![tactic(auto)]

pub mod laws;

pub use laws::{accepted_runs_find_numbers, spelled_trees_are_plain};
