//! Which operations the forms of the language are, as tables. A run of a source and code that is made of it both cite them.
#![tactic(auto)]

pub mod apply;
pub mod forms;

pub use apply::{append_chunk, apply_binary, apply_cast, verdict_element};
pub use forms::{
    BinaryForm, CallForm, Lock, binary_form, call_form, is_int, lock_back, lock_front, unary_op,
};
