//! What a spend file holds.

use crate::choice::Choice;
use cash_base::TypedValue;
use tx_context::{Frame, Verdicts};

/// What an author wants to try: with which contract, by which call, in which transaction, and what signature checks answer.
#[derive(Debug, Drop)]
pub struct SpendFile {
    /// The values of the constructor's parameters, in the order of the source; at most 16.
    pub ctor: Vec<TypedValue>,
    /// The call, or the pushes in its place.
    pub choice: Choice,
    /// The transaction.
    pub frame: Frame,
    /// What the checks of signatures answer.
    pub verdicts: Verdicts,
}
