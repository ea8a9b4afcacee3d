//! Which slots some path of slot code reads, and which names are kept on the stack.
#![tactic(auto)]

pub mod live;
