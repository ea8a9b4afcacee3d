//! The command `trace`.

ghost use Rattle.std.specs.Prelude.{◌≡◌, ◌≢◌, ◌⊎◌, ◌≤◌, ℕ, List, [], length, IfOk, IfErr, Ok};
ghost use Rattle.spend_json.specs.Given.{SpendParts, spend_parts};
ghost use Rattle.spend_json.specs.Files.{spend_reading};
ghost use Rattle.artifact_json.specs.Artifact.{HasFewInputs};
ghost use Rattle.spend_trace.specs.Traced.{Trace, trace_with};
ghost use Rattle.source_stages.specs.Stages.{max_source_len};
ghost use Rattle.cash_compile.specs.Compile.{IsCompiled};
ghost use Rattle.command_files.specs.Files.{IsSaid, IsFile};
ghost use Rattle.spend_command.specs.Spent.{IsNoSpend, IsUnbuilt, HasBytesRefusal, HasFileRefusal};
ghost use Rattle.source_commands.specs.Sources.{HasSpendCauseOf};
ghost use Rattle.source_texts.specs.TraceLines.{trace_lines};
ghost use Rattle.source_commands.specs.Judged.{IsTraceOf, IsTracedBy, IsTraced};

use crate::parts::parts_are_proper;
use crate::sources::{NO_TIME, compiled_in};
use artifact_json::Program;
use bch_vm::{Machine, MachineOutcome};
use cash_base::Store;
use cash_compile::compile::Compiled;
use command_files::{Output, Stop, read_file};
use source_texts::trace_text::trace_text;
use spend_command::fault_lines::build_text;
use spend_command::{INPUT_TOO_LONG, MAX_INPUT_LEN, read_spend};
use spend_debug::SpendStop;
use spend_json::SpendFile;
use spend_trace::trace;
use std::alloc::Global;

/// What `debug_files` shows, and before the verdict a line for each instruction that the machine executes: its script, its index
/// there, its name, its place in the source or `-`, and how many elements the stack has after it. The statuses and the refusals are
/// those of `debug_files`.
#[tactic(auto, using(crate::proofs::Causes::source_no_spend, crate::proofs::Causes::no_spend_stopped, crate::proofs::Causes::traced))]
pub fn trace_files<S: Store>(
    alloc: Global,
    source: &str,
    spend: &str,
    store: &mut S,
) -> Result<Output, Stop>
    ensures shown { IfOk result (λ output.
        IsTraced (S.files store.old) source.now spend.now output.status output.text.items) }
    ensures some { IfOk result (λ output. output.text.items ≢ []) }
    ensures status { IfOk result (λ output. (output.status ≡ 0) ⊎ (output.status ≡ 3)) }
    ensures stopped { IfErr result (λ stop.
        HasSpendCauseOf IsNoSpend (S.files store.old) source.now spend.now (S.faults store.old) (S.faults store.new) stop) }
    ensures said { IfErr result (λ stop. IsSaid stop) }
    ensures files { S.files store.new ≡ S.files store.old }
{
    let compiled = compiled_in(alloc, source, NO_TIME, store)?;
    match traced_in(alloc, &compiled, spend, store) {
        Ok(output) => Ok(output),
        Err(stop) => Err(stop),
    }
}

/// The trace of the spend of a program that the file of this name asks for.
fn traced_in<S: Store>(
    alloc: Global,
    compiled: &Compiled,
    name: &str,
    store: &mut S,
) -> Result<Output, Stop>
    requires compiled { IsCompiled compiled.now.program.source compiled.now.contract compiled.now.program }
    requires few { HasFewInputs compiled.now.program }
    requires short { length compiled.now.program.source ≤ max_source_len }
    ensures shown { IfOk result (λ output. (bytes : List ℕ) × IsFile (S.files store.old) name.now bytes
        × IsTracedBy compiled.now.contract compiled.now.program bytes output.status output.text.items) }
    ensures some { IfOk result (λ output. output.text.items ≢ []) }
    ensures status { IfOk result (λ output. (output.status ≡ 0) ⊎ (output.status ≡ 3)) }
    ensures stopped { IfErr result (λ stop. HasFileRefusal (IsNoSpend compiled.now.program) (S.files store.old) name.now
        (S.faults store.old) (S.faults store.new) stop) }
    ensures said { IfErr result (λ stop. IsSaid stop) }
    ensures files { S.files store.new ≡ S.files store.old }
{
    let bytes = read_file(alloc, name, MAX_INPUT_LEN, 4, INPUT_TOO_LONG, store)?;
    let output = traced(alloc, compiled, bytes.as_slice())?;
    Ok(output)
}

fn traced(alloc: Global, compiled: &Compiled, bytes: &[u8]) -> Result<Output, Stop>
    requires compiled { IsCompiled compiled.now.program.source compiled.now.contract compiled.now.program }
    requires few { HasFewInputs compiled.now.program }
    requires short { length compiled.now.program.source ≤ max_source_len }
    ensures shown { IfOk result (λ output.
        IsTracedBy compiled.now.contract compiled.now.program bytes.now output.status output.text.items) }
    ensures some { IfOk result (λ output. output.text.items ≢ []) }
    ensures status { IfOk result (λ output. (output.status ≡ 0) ⊎ (output.status ≡ 3)) }
    ensures stopped { IfErr result (λ stop. HasBytesRefusal (IsNoSpend compiled.now.program bytes.now) stop) }
    ensures said { IfErr result (λ stop. IsSaid stop) }
{
    let spend = read_spend(alloc, bytes)?;
    let output = trace_of(alloc, &compiled.program, &spend)?;
    parts_are_proper(alloc, &compiled.program, &spend)?;
    Ok(output)
}

/// The trace of a spend of a program.
fn trace_of(alloc: Global, program: &Program, spend: &SpendFile) -> Result<Output, Stop>
    requires few { HasFewInputs program.now }
    requires short { length program.now.source ≤ max_source_len }
    ensures shown { IfOk result (λ output. (trace : Trace)
        × IsTraceOf program.now.source program.now (spend_parts spend.now) trace output.status output.text.items) }
    ensures some { IfOk result (λ output. output.text.items ≢ []) }
    ensures status { IfOk result (λ output. (output.status ≡ 0) ⊎ (output.status ≡ 3)) }
    ensures stopped { IfErr result (λ stop. HasBytesRefusal (IsUnbuilt program.now (spend_parts spend.now)) stop) }
    ensures said { IfErr result (λ stop. IsSaid stop) }
{
    let mut machine = Machine::new(alloc)?;
    match trace(alloc, program, spend, &mut machine) {
        Ok((rows, report)) => {
            let text = trace_text(alloc, program.source.as_bytes(), rows.as_slice(), &report)?;
            let status = match report.outcome {
                MachineOutcome::Accepted => 0,
                MachineOutcome::Refused { .. } => 3,
            };
            Ok(Output { status, text })
        }
        Err(SpendStop::Memory) => Err(Stop::Memory),
        Err(SpendStop::Build(fault)) => {
            let text = build_text(alloc, fault)?;
            Err(Stop::Refused { status: 4, text })
        }
    }
}
