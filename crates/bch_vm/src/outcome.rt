//! What the machine answers.

use cash_base::MachineCause;

/// A script of a spend.
#[derive(Clone, Copy, Debug, PartialEq, Eq)]
pub enum Which {
    /// The unlocking script of the input that is spent.
    Unlocking,
    /// The locking script of the output that it spends.
    Locking,
    /// The redeem script, which the unlocking script pushes last.
    Redeem,
}

/// How a spend ends.
#[derive(Clone, Copy, Debug, PartialEq, Eq)]
pub enum MachineOutcome {
    /// The input may be spent.
    Accepted,
    /// It may not: the script in which the spend fails, the index of the instruction, counted from 0, and why. Where a
    /// condition is open at the end of the script the index is the number of its instructions.
    Refused {
        script: Which,
        at: u32,
        cause: MachineCause,
    },
}

/// What a step of a spend was.
#[derive(Clone, Copy, Debug, PartialEq, Eq)]
pub enum Step {
    /// An instruction was passed: its script, its index, counted from 0, and whether it was executed.
    Ran {
        script: Which,
        at: u32,
        executed: bool,
    },
    /// The spend has ended.
    Ended(MachineOutcome),
}
