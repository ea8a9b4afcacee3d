//! The code of a contract, made shorter: its run still ends as the run of its source.
#![tactic(auto)]

ghost use Rattle.std.specs.Prelude.{IfOk, IsTrue};
ghost use Rattle.row_runs.specs.Rows.{instructions};
ghost use Rattle.selector.specs.Place.{is_unseparated};
ghost use Rattle.tidied_code.specs.Keeps.{Keeps};

use cash_base::Memory;
use peephole::{rows_run_anywhere, tidy};
use script_codec::{Marked, Spanned};
use std::alloc::Global;

/// The code of a contract, made shorter by the rewrite rules until none matches.
///
/// The code has no CODESEPARATOR. However the run of a source ends, in every world, from every stack, behind whichever
/// instructions and in whichever code: where the machine's run of the code ends as it, so does its run of the answer. Where the
/// source's run is met, both leave one true element. Where it fails, both fail for its cause at its place, or leave the false
/// value of the failed check, which was the last to be executed. What else [`tidy`] promises holds of the answer too.
///
/// # Errors
///
/// `Memory`, where memory ran out. The code is dropped then.
pub fn tidied(alloc: Global, rows: Vec<Spanned>) -> Result<Vec<Spanned>, Memory>
    requires { IsTrue (is_unseparated (instructions rows.items)) }
    ensures { IfOk result (λ tidied. Keeps rows.items tidied.items) }
{
    rows_run_anywhere();
    let marks = Vec::new(alloc);
    let code = Marked { code: rows, marks };
    let Marked { code, marks: _ } = tidy(alloc, code)?;
    Ok(code)
}
