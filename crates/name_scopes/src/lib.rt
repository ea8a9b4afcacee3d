//! The names in scope at a place of a source, what is wanted of a name there, and constraints on the language's
//! version.
#![tactic(auto)]

mod fault;
mod pragma;
mod scope;
mod uses;

pub use fault::NameFault;
pub use pragma::all_admitted;
pub use scope::{Scope, Variable};
pub use uses::{fresh, fresh_pair, introduced, known, variable};
