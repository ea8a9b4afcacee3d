//! The command `spend`: what a spend of an artifact's program comes to, as a spend file asks for it, and what is told of files that
//! are refused.
#![tactic(auto)]

ghost use Rattle.std.specs.Prelude.{◌≡◌, ◌≢◌, ◌⊎◌, ◌≤◌, ℕ, List, [], IfOk, IfErr, Ok};
ghost use Rattle.artifact_json.specs.Artifact.{HasFewInputs};
ghost use Rattle.artifact_json.specs.Reading.{artifact_reading};
ghost use Rattle.spend_json.specs.Given.{spend_parts};
ghost use Rattle.spend_json.specs.Files.{spend_reading};
ghost use Rattle.command_files.specs.Files.{IsSaid, IsFile};
ghost use Rattle.spend_command.specs.Spent.{IsArtifact, IsSpent, HasSpendCause, HasArtifactCause, HasFileRefusal, HasBytesRefusal, IsNoArtifact, IsNoSpendFile, IsNoSpend, IsUnbuilt, IsTold, IsReported};

pub mod fault_lines;
pub mod reports;

use artifact_json::{ArtifactFault, Program};
use bch_vm::Machine;
use cash_base::Store;
use command_files::{Output, Stop, read_file};
use fault_lines::{artifact_text, build_text, file_text};
use reports::report_answer;
use spend_debug::SpendStop;
use spend_json::{SpendFault, SpendFile};
use spend_trace::debug;
use std::alloc::Global;

/// The most bytes of an artifact.
pub const MAX_ARTIFACT_LEN: usize = 1_048_576;

/// The most bytes of a spend file.
pub const MAX_INPUT_LEN: usize = 4_194_304;

/// What is told of a longer one.
pub const INPUT_TOO_LONG: &str = "input TooLong\n";

/// The longest source in which a place has a line and a column. A source in an artifact is never as long.
const LONGEST_PLACED: usize = 2_147_483_647;

/// The three scripts and the verdict of the spend of an artifact's program that a spend file asks for, with status 0 where the
/// machine accepts it and 3 where it refuses; the files are named.
///
/// `Refused` has status 4 and comes exactly where the artifact is longer than 1,048,576 bytes or has a fault, else the spend file
/// is longer than 4,194,304 bytes or has one, or else no scripts can be built of what it says; its text is `input`, the fault's name, and the fault's field or
/// numbers. `Unread` comes only where the store's count of faults rose, or the store tells its files and lacks one; the spend file
/// is read only beside a readable artifact. `Memory` comes where memory ran out.
#[tactic(auto, using(crate::proofs::Causes::artifact_stopped, crate::proofs::Causes::file_stopped, crate::proofs::Causes::shown))]
pub fn spend_files<S: Store>(
    alloc: Global,
    artifact: &str,
    spend: &str,
    store: &mut S,
) -> Result<Output, Stop>
    ensures shown { IfOk result (λ output.
        IsSpent (S.files store.old) artifact.now spend.now output.status output.text.items) }
    ensures some { IfOk result (λ output. output.text.items ≢ []) }
    ensures status { IfOk result (λ output. (output.status ≡ 0) ⊎ (output.status ≡ 3)) }
    ensures stopped { IfErr result (λ stop.
        HasSpendCause (S.files store.old) artifact.now spend.now (S.faults store.old) (S.faults store.new) stop) }
    ensures said { IfErr result (λ stop. IsSaid stop) }
    ensures files { S.files store.new ≡ S.files store.old }
{
    let program = program_in(alloc, artifact, store)?;
    let output = spend_of(alloc, &program, spend, store)?;
    Ok(output)
}

/// The program of an artifact.
fn program_in<S: Store>(alloc: Global, name: &str, store: &mut S) -> Result<Program, Stop>
    ensures read { IfOk result (λ program. IsArtifact (S.files store.old) name.now program) }
    ensures few { IfOk result HasFewInputs }
    ensures stopped { IfErr result (λ stop.
        HasArtifactCause (S.files store.old) name.now (S.faults store.old) (S.faults store.new) stop) }
    ensures said { IfErr result (λ stop. IsSaid stop) }
    ensures later { S.faults store.old ≤ S.faults store.new }
    ensures files { S.files store.new ≡ S.files store.old }
{
    let bytes = read_file(alloc, name, MAX_ARTIFACT_LEN, 4, INPUT_TOO_LONG, store)?;
    let program = read_program(alloc, bytes.as_slice())?;
    Ok(program)
}

fn read_program(alloc: Global, bytes: &[u8]) -> Result<Program, Stop>
    ensures read { IfOk result (λ program. artifact_reading bytes.now ≡ Ok program) }
    ensures few { IfOk result HasFewInputs }
    ensures stopped { IfErr result (λ stop. HasBytesRefusal (IsNoArtifact bytes.now) stop) }
    ensures said { IfErr result (λ stop. IsSaid stop) }
{
    match artifact_json::read(alloc, bytes) {
        Ok(program) => Ok(program),
        Err(ArtifactFault::Memory) => Err(Stop::Memory),
        Err(fault) => {
            let text = artifact_text(alloc, fault)?;
            Err(Stop::Refused { status: 4, text })
        }
    }
}

/// What the spend of a program comes to that a spend file asks for.
fn spend_of<S: Store>(
    alloc: Global,
    program: &Program,
    name: &str,
    store: &mut S,
) -> Result<Output, Stop>
    requires { HasFewInputs program.now }
    ensures shown { IfOk result (λ output. (bytes : List ℕ) × IsFile (S.files store.old) name.now bytes
        × IsReported program.now bytes output.status output.text.items) }
    ensures some { IfOk result (λ output. output.text.items ≢ []) }
    ensures status { IfOk result (λ output. (output.status ≡ 0) ⊎ (output.status ≡ 3)) }
    ensures stopped { IfErr result (λ stop.
        HasFileRefusal (IsNoSpend program.now) (S.files store.old) name.now (S.faults store.old) (S.faults store.new) stop) }
    ensures said { IfErr result (λ stop. IsSaid stop) }
    ensures files { S.files store.new ≡ S.files store.old }
{
    let bytes = read_file(alloc, name, MAX_INPUT_LEN, 4, INPUT_TOO_LONG, store)?;
    let output = judged(alloc, program, bytes.as_slice())?;
    Ok(output)
}

/// ... that the bytes of one ask for.
fn judged(alloc: Global, program: &Program, bytes: &[u8]) -> Result<Output, Stop>
    requires { HasFewInputs program.now }
    ensures shown { IfOk result (λ output. IsReported program.now bytes.now output.status output.text.items) }
    ensures some { IfOk result (λ output. output.text.items ≢ []) }
    ensures status { IfOk result (λ output. (output.status ≡ 0) ⊎ (output.status ≡ 3)) }
    ensures stopped { IfErr result (λ stop. HasBytesRefusal (IsNoSpend program.now bytes.now) stop) }
    ensures said { IfErr result (λ stop. IsSaid stop) }
{
    let spend = read_spend(alloc, bytes)?;
    let output = spent(alloc, program, &spend)?;
    Ok(output)
}

/// What the bytes of a spend file say. `Refused` has status 4 and comes exactly where they are no spend file, with the first fault.
pub fn read_spend(alloc: Global, bytes: &[u8]) -> Result<SpendFile, Stop>
    ensures read { IfOk result (λ spend. spend_reading bytes.now ≡ Ok (spend_parts spend)) }
    ensures stopped { IfErr result (λ stop. HasBytesRefusal (IsNoSpendFile bytes.now) stop) }
    ensures said { IfErr result (λ stop. IsSaid stop) }
{
    match spend_json::read(alloc, bytes) {
        Ok(spend) => Ok(spend),
        Err(SpendFault::Memory) => Err(Stop::Memory),
        Err(fault) => {
            let text = file_text(alloc, fault)?;
            Err(Stop::Refused { status: 4, text })
        }
    }
}

/// What the spend of a program comes to, each of whose functions has at most 16 parameters: the three scripts and the verdict, with
/// status 0 where the machine accepts it and 3 where it refuses. `Refused` has status 4 and comes exactly where no scripts can be
/// built, with the first fault.
pub fn spent(alloc: Global, program: &Program, spend: &SpendFile) -> Result<Output, Stop>
    requires { HasFewInputs program.now }
    ensures shown { IfOk result (λ output. IsTold program.now (spend_parts spend.now) output.status output.text.items) }
    ensures some { IfOk result (λ output. output.text.items ≢ []) }
    ensures status { IfOk result (λ output. (output.status ≡ 0) ⊎ (output.status ≡ 3)) }
    ensures stopped { IfErr result (λ stop. HasBytesRefusal (IsUnbuilt program.now (spend_parts spend.now)) stop) }
    ensures said { IfErr result (λ stop. IsSaid stop) }
{
    if program.source.len() > LONGEST_PLACED {
        return Err(Stop::Memory);
    }
    let mut machine = Machine::new(alloc)?;
    match debug(alloc, program, spend, &mut machine) {
        Ok(report) => Ok(report_answer(alloc, program.source.as_bytes(), &report)?),
        Err(SpendStop::Memory) => Err(Stop::Memory),
        Err(SpendStop::Build(fault)) => {
            let text = build_text(alloc, fault)?;
            Err(Stop::Refused { status: 4, text })
        }
    }
}
