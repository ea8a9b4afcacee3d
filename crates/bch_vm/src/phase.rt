//! How far a spend is.

use crate::outcome::{MachineOutcome, Which};

/// Where a spend stands between two steps.
#[derive(Clone, Copy, Debug, PartialEq, Eq)]
pub enum Phase {
    /// Nothing was done.
    Begin,
    /// A script is run.
    Running(Which),
    /// The spend has ended.
    Over(MachineOutcome),
}
