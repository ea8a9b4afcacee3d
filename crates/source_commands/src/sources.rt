//! The contract and the program of a source in a file.

ghost use Rattle.std.specs.Prelude.{◌≡◌, ◌≤◌, length, IfOk, IfErr};
ghost use Rattle.artifact_json.specs.Artifact.{HasFewInputs};
ghost use Rattle.source_stages.specs.Stages.{max_source_len};
ghost use Rattle.cash_compile.specs.Compile.{IsCompiled};
ghost use Rattle.command_files.specs.Files.{IsSaid};
ghost use Rattle.source_commands.specs.Sources.{IsBuilt, HasSourceCause, HasSourceFileCause};

use cash_base::Store;
use cash_compile::compile::{Compiled, compile};
use cash_compile::{MAX_SOURCE_LEN, Refusal};
use command_files::{Stop, read_file};
use source_texts::refusal_text::{SOURCE_TOO_LONG, refusal_text};
use std::alloc::Global;

/// When a program was compiled, where nothing else is said.
pub const NO_TIME: &str = "1970-01-01T00:00:00.000Z";

/// The contract and the program of the source in a file, compiled at this time.
///
/// `Refused` has status 1 and comes exactly where the source has more than 65,536 bytes or is refused; its text is that of the
/// refusal. `Unread` comes only where the store's count of faults rose, or the store tells its files and has none of this name.
/// `Memory` comes where memory ran out.
#[tactic(auto, using(crate::proofs::Causes::built, crate::proofs::Causes::source_short))]
pub fn compiled_in<S: Store>(
    alloc: Global,
    name: &str,
    updated: &str,
    store: &mut S,
) -> Result<Compiled, Stop>
    ensures built { IfOk result (λ compiled.
        IsBuilt (S.files store.old) name.now compiled.program.source compiled.contract compiled.program) }
    ensures updated { IfOk result (λ compiled. compiled.program.updated ≡ updated.now) }
    ensures few { IfOk result (λ compiled. HasFewInputs compiled.program) }
    ensures short { IfOk result (λ compiled. length compiled.program.source ≤ max_source_len) }
    ensures stopped { IfErr result (λ stop.
        HasSourceFileCause (S.files store.old) name.now (S.faults store.old) (S.faults store.new) stop) }
    ensures said { IfErr result (λ stop. IsSaid stop) }
    ensures later { S.faults store.old ≤ S.faults store.new }
    ensures files { S.files store.new ≡ S.files store.old }
{
    let source = read_file(alloc, name, MAX_SOURCE_LEN, 1, SOURCE_TOO_LONG, store)?;
    let compiled = compiled(alloc, source.as_slice(), updated)?;
    Ok(compiled)
}

/// The contract and the program of a source of at most 65,536 bytes, compiled at this time.
///
/// `Refused` has status 1 and comes exactly where the source is refused; its text is that of the refusal. `Memory` comes where memory
/// ran out.
#[tactic(auto, using(crate::proofs::Causes::few_inputs))]
pub fn compiled(alloc: Global, source: &[u8], updated: &str) -> Result<Compiled, Stop>
    requires { length source.now ≤ max_source_len }
    ensures built { IfOk result (λ compiled. IsCompiled source.now compiled.contract compiled.program) }
    ensures updated { IfOk result (λ compiled. compiled.program.updated ≡ updated.now) }
    ensures few { IfOk result (λ compiled. HasFewInputs compiled.program) }
    ensures stopped { IfErr result (λ stop. HasSourceCause source.now stop) }
    ensures said { IfErr result (λ stop. IsSaid stop) }
{
    match compile(alloc, source, updated) {
        Ok(compiled) => Ok(compiled),
        Err(Refusal::Memory) => Err(Stop::Memory),
        Err(refusal) => {
            let text = refusal_text(alloc, source, refusal)?.into_bytes();
            Err(Stop::Refused { status: 1, text })
        }
    }
}
