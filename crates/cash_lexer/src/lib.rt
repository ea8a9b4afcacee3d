//! Cuts a source into tokens.
//!
//! The rules are those of the CashScript 0.7 documentation with its grammar; `specs/Tokens.antt` says what is this
//! project's own. The definition is over the text as a list of bytes, by rows: the first row that fits gives the piece
//! with which a text begins, as long as it can be, and after it the rest goes on in the same way.
#![tactic(auto)]

mod dates;
mod fault;
mod gap;
mod laws;
mod lexing;
mod numbers;
mod piece;
mod rows;

pub use fault::LexFault;
pub use laws::{
    finds_go_by_pieces, next_tokens_are_the_tokens, tokens_cut_the_source, words_have_texts,
};
pub use lexing::{next_token, tokens};
