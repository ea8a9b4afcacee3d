//! Instructions with the places of the source that they come from.

use crate::instr::Instr;
use cash_base::Span;

/// An instruction with two places of the source: `doing` is that of the operation that it does a part of, and
/// `checking` that of the statement in which the operation stands.
#[derive(Drop)]
pub struct Spanned {
    pub instr: Instr,
    pub doing: Span,
    pub checking: Span,
}

/// Where the instructions of a statement begin: the number of the first of them, counted from 0, and how many elements
/// the stack has before it.
#[derive(Clone, Copy, Debug, PartialEq, Eq)]
pub struct Mark {
    pub at: u32,
    pub height: u32,
    pub statement: Span,
}

/// Code with its places, and with a mark for each of its statements.
#[derive(Drop)]
pub struct Marked {
    pub code: Vec<Spanned>,
    pub marks: Vec<Mark>,
}
