//! Parses the expressions that tokens spell.
#![tactic(auto)]

mod expressions;
mod nodes;

pub use expressions::expression;
pub use nodes::{Expr, ExprKind};
