//! Runs of rows: instructions with the places of the source that they come from.
#![tactic(auto)]

ghost use Rattle.std.specs.Prelude.{List, IsTrue};
ghost use Rattle.script_codec.specs.declared.spans.Spanned.{Spanned};
ghost use Rattle.row_runs.specs.Code.{are_simple, RunsAsCode};

/// A run of rows that have no CODESEPARATOR, TOALTSTACK or FROMALTSTACK is the machine's run of their instructions.
///
/// Both leave the same stack and open conditions, or fail for the same cause, the rows at the place of the row that fails. The
/// last executed row other than IF, NOTIF, ELSE and ENDIF is the one whose index the machine gives.
#[tactic(auto, using(crate::proofs::Located::runs_as_code))]
pub fn rows_run_as_code()
    ensures { (rows : List Spanned) → IsTrue (are_simple rows) → RunsAsCode rows }
{}
