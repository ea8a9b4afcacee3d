//! Runs of rows behind other instructions.
#![tactic(auto)]

ghost use Rattle.std.specs.Prelude.{List, IsTrue};
ghost use Rattle.script_codec.specs.declared.spans.Spanned.{Spanned};
ghost use Rattle.row_runs.specs.Code.{are_simple};
ghost use Rattle.rows_behind.specs.Behind.{RunsBehind};

/// A run of rows that have no CODESEPARATOR, TOALTSTACK or FROMALTSTACK is the machine's run of their instructions, wherever they
/// stand in the machine's code, and whatever was executed before them.
///
/// Both leave the same stack and open conditions, or fail for the same cause, the rows at the place of the row that fails. Where a
/// row other than IF, NOTIF, ELSE and ENDIF is executed, the machine's last executed instruction is the last of these rows.
#[tactic(auto, using(crate::proofs::Located::runs_behind))]
pub fn rows_run_behind()
    ensures { (rows : List Spanned) → IsTrue (are_simple rows) → RunsBehind rows }
{}
