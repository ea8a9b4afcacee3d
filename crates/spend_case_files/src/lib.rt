//! What cases about spends are made of: the words of a line, elements, the artifact and the spend file that a case names, and the
//! contract of a source.
#![tactic(auto)]

pub mod files;
pub mod sources;
pub mod text;
