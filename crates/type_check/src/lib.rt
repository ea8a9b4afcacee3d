//! Gives each expression of a contract its type, or tells the first node that has none.
#![tactic(auto)]

mod contract;
mod expressions;
mod nodes;
mod statements;

pub use contract::{check, judged_once, types_keep};
pub use type_tables::{CastEffect, TypeFault, cast_effect, sized_effect};
