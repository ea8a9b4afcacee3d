//! What is shown of a spend that was judged.

ghost use Rattle.std.specs.Prelude.{◌≡◌, ◌≢◌, ◌≤◌, ◌⊎◌, [], length, IfOk};
ghost use Rattle.spend_debug.specs.Telling.{report_lines};
ghost use Rattle.spend_command.specs.Spent.{report_status};

use bch_vm::MachineOutcome;
use cash_base::Memory;
use command_files::Output;
use spend_debug::{Report, report_text};
use std::alloc::Global;

/// The three scripts of a spend and its verdict, a line each, and the status that goes with it: 0 where the machine accepts, and 3
/// where it refuses. A place is told as LINE:COL of this source, which has at most 2,147,483,647 bytes. `Memory` comes where memory
/// ran out.
pub fn report_answer(alloc: Global, source: &[u8], report: &Report) -> Result<Output, Memory>
    requires { length source.now ≤ 2147483647 }
    ensures report { IfOk result (λ output. (output.status ≡ report_status report.now)
        × (output.text.items ≡ report_lines source.now report.now)) }
    ensures some { IfOk result (λ output. output.text.items ≢ []) }
    ensures status { IfOk result (λ output. (output.status ≡ 0) ⊎ (output.status ≡ 3)) }
{
    let text = report_text(alloc, source, report)?;
    let status = match report.outcome {
        MachineOutcome::Accepted => 0,
        MachineOutcome::Refused { .. } => 3,
    };
    Ok(Output { status, text })
}
