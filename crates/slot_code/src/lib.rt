//! Slot code: a contract's functions as instructions over operands and named slots. What it is, what it does, when it is
//! well formed, and what it weighs.
#![tactic(auto)]

pub mod slots;

pub use slots::{SlotFunction, SlotInstr, SlotKind};
