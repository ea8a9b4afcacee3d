//! The command `workload`.

ghost use Rattle.std.specs.Prelude.{◌≡◌, ◌≢◌, ◌≤◌, [], IfOk, IfErr};
ghost use Rattle.command_files.specs.Files.{IsSaid};
ghost use Rattle.workload.specs.Lines.{IsSummary};
ghost use Rattle.workload.specs.Refused.{HasWorkCause};

use crate::lines::work_text;
use crate::work::workload;
use command_files::{Output, Stop};
use std::alloc::Global;

/// The lines `contracts N`, `spends N`, `accepted N` and `digest HEX` of so many generated contracts, with status 0.
///
/// `Refused` and `Memory` come as in `workload`; `Unread` never comes.
pub fn summary_of(alloc: Global, contracts: u32) -> Result<Output, Stop>
    requires { contracts ≤ 1000 }
    ensures shown { IfOk result (λ output. (output.status ≡ 0) × IsSummary contracts output.text.items) }
    ensures some { IfOk result (λ output. output.text.items ≢ []) }
    ensures stopped { IfErr result (λ stop. HasWorkCause contracts stop) }
    ensures said { IfErr result (λ stop. IsSaid stop) }
{
    let summary = workload(alloc, contracts)?;
    let text = work_text(alloc, &summary)?;
    Ok(Output { status: 0, text })
}
