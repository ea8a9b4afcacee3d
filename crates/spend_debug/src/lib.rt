//! Spends of compiled contracts: the arguments that a file has, the scripts, how the machine ends on them, where in the
//! source they fail, and what is told of that.
#![tactic(auto)]

pub mod report;
pub mod spend_lines;
pub mod spends;

pub use report::{InputStop, Report, build_stop, input_text, line_stop, report_text};
pub use spends::{Spend, SpendStop, debug, plain_frame};
