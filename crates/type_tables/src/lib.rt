//! The rules of the types of expressions, as tables: each is a function of the types of a node's parts.
#![tactic(auto)]

pub mod calls;
pub mod fault;
pub mod rules;
pub mod tables;

pub use fault::TypeFault;
pub use rules::{Binding, CastEffect, Item, Signature, Want};
pub use tables::{TypedExpr, cast_effect, sized_effect};
