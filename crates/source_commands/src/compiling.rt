//! The command `compile`.

ghost use Rattle.std.specs.Prelude.{◌≡◌, ◌≢◌, [], IfOk, IfErr, Ok};
ghost use Rattle.artifact_json.specs.Reading.{artifact_reading};
ghost use Rattle.artifact_json.specs.Text.{artifact_text};
ghost use Rattle.cash_compile.specs.Compile.{IsCompiled};
ghost use Rattle.command_files.specs.Files.{IsSaid};
ghost use Rattle.source_commands.specs.Compiled.{IsArtifactOf};
ghost use Rattle.source_commands.specs.Sources.{HasSourceFileCause};

use crate::sources::compiled_in;
use artifact_json::write;
use cash_base::{Memory, Store};
use cash_compile::compile::Compiled;
use command_files::{Output, Stop};
use std::alloc::Global;

/// The artifact of the program of a source, compiled at this time, with status 0; the file is named.
///
/// `Refused` has status 1 and comes exactly where the source has more than 65,536 bytes or is refused. `Unread` comes only where the
/// store's count of faults rose, or the store tells its files and has none of this name. `Memory` comes where memory ran out.
#[tactic(auto, using(crate::proofs::Stored::artifact_shown))]
pub fn compile_file<S: Store>(
    alloc: Global,
    source: &str,
    updated: &str,
    store: &mut S,
) -> Result<Output, Stop>
    ensures shown { IfOk result (λ output. (output.status ≡ 0)
        × IsArtifactOf (S.files store.old) source.now updated.now output.text.items) }
    ensures some { IfOk result (λ output. output.text.items ≢ []) }
    ensures stopped { IfErr result (λ stop.
        HasSourceFileCause (S.files store.old) source.now (S.faults store.old) (S.faults store.new) stop) }
    ensures said { IfErr result (λ stop. IsSaid stop) }
    ensures files { S.files store.new ≡ S.files store.old }
{
    let compiled = compiled_in(alloc, source, updated, store)?;
    let text = artifact_of(alloc, &compiled)?;
    Ok(Output { status: 0, text })
}

/// The text of a compiled program.
#[tactic(auto, using(crate::proofs::Stored::read_again, crate::proofs::Stored::text_is_there))]
fn artifact_of(alloc: Global, compiled: &Compiled) -> Result<Vec<u8>, Memory>
    requires { IsCompiled compiled.now.program.source compiled.now.contract compiled.now.program }
    ensures text { IfOk result (λ text. text.items ≡ artifact_text compiled.now.program) }
    ensures read_back { IfOk result (λ text. artifact_reading text.items ≡ Ok compiled.now.program) }
    ensures some { IfOk result (λ text. text.items ≢ []) }
{
    let text = write(alloc, &compiled.program)?;
    Ok(text.into_bytes())
}
