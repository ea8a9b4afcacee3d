//! The command `debug`.

ghost use Rattle.std.specs.Prelude.{◌≡◌, ◌≢◌, ◌⊎◌, ◌≤◌, ℕ, List, [], length, IfOk, IfErr};
ghost use Rattle.artifact_json.specs.Artifact.{HasFewInputs};
ghost use Rattle.cash_compile.specs.Compile.{IsCompiled};
ghost use Rattle.command_files.specs.Files.{IsSaid, IsFile};
ghost use Rattle.spend_command.specs.Spent.{IsReported, IsNoSpend, HasBytesRefusal, HasFileRefusal};
ghost use Rattle.source_commands.specs.Sources.{HasSpendCauseOf};
ghost use Rattle.source_commands.specs.Judged.{AreDecided, IsDebugged};

use crate::parts::parts_are_proper;
use crate::sources::{NO_TIME, compiled_in};
use cash_base::Store;
use cash_compile::compile::Compiled;
use command_files::{Output, Stop, read_file};
use spend_command::{INPUT_TOO_LONG, MAX_INPUT_LEN, read_spend, spent};
use std::alloc::Global;

/// The three scripts and the verdict of a spend of a source's contract, as a spend file asks for it, with status 0 where the machine
/// accepts it and 3 where it refuses; the files are named. A verdict on a call is that of the run of the source.
///
/// `Refused` has status 1 where the source is refused, and 4 where it isn't, and the spend file is longer than 4,194,304 bytes, has a
/// fault, or asks for what no scripts can be built of; its text is that of the first refusal. `Unread` comes only where the store's
/// count of faults rose, or the store tells its files and lacks one; the spend file is read only beside a source that is compiled.
/// `Memory` comes where memory ran out.
#[tactic(auto, using(crate::proofs::Causes::source_no_spend, crate::proofs::Causes::no_spend_stopped, crate::proofs::Causes::debugged))]
pub fn debug_files<S: Store>(
    alloc: Global,
    source: &str,
    spend: &str,
    store: &mut S,
) -> Result<Output, Stop>
    ensures shown { IfOk result (λ output.
        IsDebugged (S.files store.old) source.now spend.now output.status output.text.items) }
    ensures some { IfOk result (λ output. output.text.items ≢ []) }
    ensures status { IfOk result (λ output. (output.status ≡ 0) ⊎ (output.status ≡ 3)) }
    ensures stopped { IfErr result (λ stop.
        HasSpendCauseOf IsNoSpend (S.files store.old) source.now spend.now (S.faults store.old) (S.faults store.new) stop) }
    ensures said { IfErr result (λ stop. IsSaid stop) }
    ensures files { S.files store.new ≡ S.files store.old }
{
    let compiled = compiled_in(alloc, source, NO_TIME, store)?;
    match debugged_in(alloc, &compiled, spend, store) {
        Ok(output) => Ok(output),
        Err(stop) => Err(stop),
    }
}

/// What the spend of a program comes to that the file of this name asks for.
fn debugged_in<S: Store>(
    alloc: Global,
    compiled: &Compiled,
    name: &str,
    store: &mut S,
) -> Result<Output, Stop>
    requires compiled { IsCompiled compiled.now.program.source compiled.now.contract compiled.now.program }
    requires few { HasFewInputs compiled.now.program }
    ensures shown { IfOk result (λ output. (bytes : List ℕ) × IsFile (S.files store.old) name.now bytes
        × IsReported compiled.now.program bytes output.status output.text.items
        × AreDecided compiled.now.program.source compiled.now.contract compiled.now.program bytes [] output.status output.text.items) }
    ensures some { IfOk result (λ output. output.text.items ≢ []) }
    ensures status { IfOk result (λ output. (output.status ≡ 0) ⊎ (output.status ≡ 3)) }
    ensures stopped { IfErr result (λ stop. HasFileRefusal (IsNoSpend compiled.now.program) (S.files store.old) name.now
        (S.faults store.old) (S.faults store.new) stop) }
    ensures said { IfErr result (λ stop. IsSaid stop) }
    ensures files { S.files store.new ≡ S.files store.old }
{
    let bytes = read_file(alloc, name, MAX_INPUT_LEN, 4, INPUT_TOO_LONG, store)?;
    let output = debugged(alloc, compiled, bytes.as_slice())?;
    Ok(output)
}

/// The three scripts and the verdict of the spend of a program that the bytes of a spend file ask for, with status 0 where the machine
/// accepts it and 3 where it refuses. A verdict on a call is that of the run of the source.
///
/// `Refused` has status 4 and comes exactly where the bytes are no spend file, or ask for what no scripts can be built of. `Memory`
/// comes where memory ran out.
pub fn debugged(alloc: Global, compiled: &Compiled, bytes: &[u8]) -> Result<Output, Stop>
    requires compiled { IsCompiled compiled.now.program.source compiled.now.contract compiled.now.program }
    requires few { HasFewInputs compiled.now.program }
    ensures reported { IfOk result (λ output.
        IsReported compiled.now.program bytes.now output.status output.text.items) }
    ensures decided { IfOk result (λ output. AreDecided compiled.now.program.source compiled.now.contract compiled.now.program
        bytes.now [] output.status output.text.items) }
    ensures some { IfOk result (λ output. output.text.items ≢ []) }
    ensures status { IfOk result (λ output. (output.status ≡ 0) ⊎ (output.status ≡ 3)) }
    ensures stopped { IfErr result (λ stop. HasBytesRefusal (IsNoSpend compiled.now.program bytes.now) stop) }
    ensures said { IfErr result (λ stop. IsSaid stop) }
{
    let spend = read_spend(alloc, bytes)?;
    let output = spent(alloc, &compiled.program, &spend)?;
    parts_are_proper(alloc, &compiled.program, &spend)?;
    Ok(output)
}
