//! Which names are live and kept before each statement of a function, over its source and over its slot code: they are the same.
#![tactic(auto)]

pub mod laws;

pub use laws::{
    contract_spans_are_in_order, spans_are_in_order, statements_are_apart, statements_begin_alike,
};
