//! How a run of a contract's source ends.

use cash_base::{Cause, Span};

/// Where a run of the source fails, and why.
#[derive(Clone, Copy, Debug, PartialEq, Eq)]
pub struct Failure {
    pub span: Span,
    pub cause: Cause,
}

/// How a run of a contract's source ends: it meets every `require`, or fails first at a place for a cause.
#[derive(Clone, Copy, Debug, PartialEq, Eq)]
pub enum SourceOutcome {
    /// Every `require` is met.
    Met,
    /// The run fails first at this place of the source, for this cause.
    Failed { span: Span, cause: Cause },
}
