//! The command `meaning`.

ghost use Rattle.std.specs.Prelude.{◌≡◌, ◌≢◌, ◌⊎◌, ◌≤◌, ℕ, List, [], length, IfOk, IfErr};
ghost use Rattle.spend_json.specs.Given.{spend_parts};
ghost use Rattle.artifact_json.specs.Artifact.{HasFewInputs};
ghost use Rattle.spend_meaning.specs.Meant.{MeantParts, IsMeant};
ghost use Rattle.source_stages.specs.Stages.{max_source_len};
ghost use Rattle.cash_compile.specs.Compile.{IsCompiled};
ghost use Rattle.command_files.specs.Files.{IsSaid, IsFile};
ghost use Rattle.spend_command.specs.Spent.{HasBytesRefusal, HasFileRefusal};
ghost use Rattle.source_commands.specs.Sources.{HasSpendCauseOf};
ghost use Rattle.source_texts.specs.RunText.{meaning_lines};
ghost use Rattle.source_commands.specs.Meaning.{run_status, IsMeantBy, IsMeantIn, IsUncalled, IsNoCall};

use crate::runnable::can_be_run;
use crate::sources::{NO_TIME, compiled_in};
use cash_base::Store;
use cash_compile::compile::Compiled;
use command_files::{Output, Stop, read_file};
use source_meaning::{SourceOutcome, SourceRoom};
use source_texts::run_text::meaning_text;
use spend_command::fault_lines::build_text;
use spend_command::{INPUT_TOO_LONG, MAX_INPUT_LEN, read_spend};
use spend_debug::SpendStop;
use spend_json::SpendFile;
use spend_meaning::meaning;
use std::alloc::Global;

/// The three scripts of a call of a source's contract, as a spend file asks for it, and how the run of the source ends in the world
/// of its spend: `met`, with status 0, or `failed LINE:COL CAUSE`, with status 3; the files are named.
///
/// `Refused` has status 1 where the source is refused, and 4 where it isn't, and the spend file is longer than 4,194,304 bytes, has a
/// fault, has pushes in place of a call, or asks for what no scripts can be built of; its text is that of the first refusal. `Unread`
/// and `Memory` come as in `debug_files`.
#[tactic(auto, using(crate::proofs::Causes::source_no_call, crate::proofs::Causes::no_call_stopped, crate::proofs::Causes::meant))]
pub fn meaning_files<S: Store>(
    alloc: Global,
    source: &str,
    spend: &str,
    store: &mut S,
) -> Result<Output, Stop>
    ensures shown { IfOk result (λ output.
        IsMeantIn (S.files store.old) source.now spend.now output.status output.text.items) }
    ensures some { IfOk result (λ output. output.text.items ≢ []) }
    ensures status { IfOk result (λ output. (output.status ≡ 0) ⊎ (output.status ≡ 3)) }
    ensures stopped { IfErr result (λ stop.
        HasSpendCauseOf IsNoCall (S.files store.old) source.now spend.now (S.faults store.old) (S.faults store.new) stop) }
    ensures said { IfErr result (λ stop. IsSaid stop) }
    ensures files { S.files store.new ≡ S.files store.old }
{
    let compiled = compiled_in(alloc, source, NO_TIME, store)?;
    match meant_in(alloc, &compiled, spend, store) {
        Ok(output) => Ok(output),
        Err(stop) => Err(stop),
    }
}

/// The meaning of the call of a program that the file of this name asks for.
fn meant_in<S: Store>(
    alloc: Global,
    compiled: &Compiled,
    name: &str,
    store: &mut S,
) -> Result<Output, Stop>
    requires compiled { IsCompiled compiled.now.program.source compiled.now.contract compiled.now.program }
    requires few { HasFewInputs compiled.now.program }
    requires short { length compiled.now.program.source ≤ max_source_len }
    ensures shown { IfOk result (λ output. (bytes : List ℕ) × IsFile (S.files store.old) name.now bytes
        × IsMeantBy compiled.now.contract compiled.now.program bytes output.status output.text.items) }
    ensures some { IfOk result (λ output. output.text.items ≢ []) }
    ensures status { IfOk result (λ output. (output.status ≡ 0) ⊎ (output.status ≡ 3)) }
    ensures stopped { IfErr result (λ stop. HasFileRefusal (IsNoCall compiled.now.program) (S.files store.old) name.now
        (S.faults store.old) (S.faults store.new) stop) }
    ensures said { IfErr result (λ stop. IsSaid stop) }
    ensures files { S.files store.new ≡ S.files store.old }
{
    let bytes = read_file(alloc, name, MAX_INPUT_LEN, 4, INPUT_TOO_LONG, store)?;
    let output = meant(alloc, compiled, bytes.as_slice())?;
    Ok(output)
}

/// The three scripts of the call of a program that the bytes of a spend file ask for, and how the run of the source ends in the world
/// of its spend, with status 0 where it is met and 3 where it fails.
///
/// `Refused` has status 4 and comes exactly where the bytes are no spend file, have pushes in place of a call, or ask for what no
/// scripts can be built of. `Memory` comes where memory ran out.
pub fn meant(alloc: Global, compiled: &Compiled, bytes: &[u8]) -> Result<Output, Stop>
    requires compiled { IsCompiled compiled.now.program.source compiled.now.contract compiled.now.program }
    requires few { HasFewInputs compiled.now.program }
    requires short { length compiled.now.program.source ≤ max_source_len }
    ensures shown { IfOk result (λ output.
        IsMeantBy compiled.now.contract compiled.now.program bytes.now output.status output.text.items) }
    ensures some { IfOk result (λ output. output.text.items ≢ []) }
    ensures status { IfOk result (λ output. (output.status ≡ 0) ⊎ (output.status ≡ 3)) }
    ensures stopped { IfErr result (λ stop. HasBytesRefusal (IsNoCall compiled.now.program bytes.now) stop) }
    ensures said { IfErr result (λ stop. IsSaid stop) }
{
    let spend = read_spend(alloc, bytes)?;
    let output = meaning_of(alloc, compiled, &spend)?;
    Ok(output)
}

/// The meaning of the call that a spend makes of a program.
fn meaning_of(alloc: Global, compiled: &Compiled, spend: &SpendFile) -> Result<Output, Stop>
    requires compiled { IsCompiled compiled.now.program.source compiled.now.contract compiled.now.program }
    requires few { HasFewInputs compiled.now.program }
    requires short { length compiled.now.program.source ≤ max_source_len }
    ensures shown { IfOk result (λ output. (meant : MeantParts)
        × IsMeant compiled.now.program compiled.now.contract (spend_parts spend.now) meant
        × (output.status ≡ run_status meant.outcome)
        × (output.text.items ≡ meaning_lines compiled.now.program.source meant)) }
    ensures some { IfOk result (λ output. output.text.items ≢ []) }
    ensures status { IfOk result (λ output. (output.status ≡ 0) ⊎ (output.status ≡ 3)) }
    ensures stopped { IfErr result (λ stop. HasBytesRefusal (IsUncalled compiled.now.program (spend_parts spend.now)) stop) }
    ensures said { IfErr result (λ stop. IsSaid stop) }
{
    can_be_run(compiled);
    let mut room = SourceRoom::new(alloc)?;
    match meaning(
        alloc,
        &compiled.program,
        &compiled.contract,
        spend,
        &mut room,
    ) {
        Ok(meant) => {
            let text = meaning_text(alloc, compiled.program.source.as_bytes(), &meant)?;
            let status = match meant.outcome {
                SourceOutcome::Met => 0,
                SourceOutcome::Failed { .. } => 3,
            };
            Ok(Output { status, text })
        }
        Err(SpendStop::Memory) => Err(Stop::Memory),
        Err(SpendStop::Build(fault)) => {
            let text = build_text(alloc, fault)?;
            Err(Stop::Refused { status: 4, text })
        }
    }
}
