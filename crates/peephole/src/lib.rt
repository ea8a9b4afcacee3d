//! Code that is made shorter by rewrite rules until none matches.
#![tactic(auto)]

ghost use Rattle.std.specs.Prelude.{◌≡◌, List, [], IfOk, IsTrue};
ghost use Rattle.script_codec.specs.declared.spans.Spanned.{Spanned};
ghost use Rattle.selector.specs.Place.{is_unseparated};
ghost use Rattle.row_runs.specs.Rows.{instructions};
ghost use Rattle.peephole.specs.Tidy.{Tidied};
ghost use Rattle.peephole.specs.Scripts.{RunsAnywhere};

mod tidying;

use cash_base::Memory;
use script_codec::Marked;
use script_codec::laws::{meaning_of_spelled, reading_after_encoded, reading_in_turn};
use std::alloc::Global;
use tidying::tidied;

/// Code made shorter by the rewrite rules, until none matches. Its list of marks is empty.
///
/// The code has no CODESEPARATOR, since an ACTIVEBYTECODE that is executed after one gives bytes of the code itself. The answer:
///
/// - It has no CODESEPARATOR.
/// - In every world, on every stack on which a run of the code meets no Underflow, its run leaves the same stacks, or fails for
///   the same cause at the same place. Where it ends, the last executed instruction other than IF, NOTIF, ELSE and ENDIF has the
///   same checking span.
/// - The unbroken rows of executed instructions of one checking span are in such a run those of the code with some left out, each
///   on the stack on which it began, and each executed IF, NOTIF, ELSE and ENDIF stays.
/// - No rule matches a window of one checking span in it, but a rule that leaves nothing may match one before IF, NOTIF, ELSE,
///   ENDIF and the end: without this exception the last executed instruction could be another.
/// - It has no more bytes than the code.
/// - Its list of pairs of spans is that of the code with some left out.
/// - Where each CHECKMULTISIG and CHECKMULTISIGVERIFY of spelled code stands directly behind the push of a number from 0 to 20, so
///   does each of the answer, and it counts no more opcodes.
/// - Where each opcode of the code has a name, so has each of the answer.
/// - It has none of DEPTH, TOALTSTACK, FROMALTSTACK and CODESEPARATOR that isn't in the code.
///
/// The rules and these conditions are this project's own.
///
/// # Errors
///
/// `Memory`, where memory ran out. The code is dropped then.
pub fn tidy(alloc: Global, code: Marked) -> Result<Marked, Memory>
    requires unseparated { IsTrue (is_unseparated (instructions code.code.items)) }
    ensures tidied { IfOk result (λ tidied. Tidied code.code.items tidied.code.items) }
    ensures marks { IfOk result (λ tidied. tidied.marks.items ≡ []) }
{
    reading_in_turn();
    reading_after_encoded();
    meaning_of_spelled();
    let Marked { code, marks: _ } = code;
    let code = tidied(alloc, code)?;
    Ok(Marked {
        code,
        marks: Vec::new(alloc),
    })
}

/// A run of rows that have no CODESEPARATOR is the machine's run of their instructions, wherever they stand in the machine's code,
/// and whatever was executed before them.
///
/// Both leave the same stacks and open conditions, or fail for the same cause, the rows at the place of the row that fails. The
/// machine's last executed instruction other than IF, NOTIF, ELSE and ENDIF has the checking span of the last of these rows; where
/// none of them is executed, it is the one from before.
#[tactic(auto, using(crate::proofs::Located::runs_anywhere))]
pub fn rows_run_anywhere()
    ensures { (rows : List Spanned) → IsTrue (is_unseparated (instructions rows)) → RunsAnywhere rows }
{}
