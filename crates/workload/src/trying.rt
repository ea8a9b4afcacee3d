//! The spends of generated contracts.

ghost use Rattle.std.specs.Prelude.{◌≡◌, ◌+◌, ◌≤◌, ◌⊎◌, List, ◌++◌, [], ◌∷◌, length, map, OnOk, IfOk, IfErr, ℕ};
ghost use Rattle.std.specs.List.{AllZip};
ghost use Rattle.artifact_json.specs.Artifact.{HasFewInputs};
ghost use Rattle.source_stages.specs.Stages.{max_source_len};
ghost use Rattle.cash_compile.specs.Compile.{IsCompiled};
ghost use Rattle.command_files.specs.Files.{IsSaid};
ghost use Rattle.spend_command.specs.Spent.{IsNoSpend, HasBytesRefusal};
ghost use Rattle.source_commands.specs.Meaning.{IsNoCall};
ghost use Rattle.generated_spends.specs.Generated.{generated as generated_by};
ghost use Rattle.workload.specs.Work.{IsTried, AreTried, AreVerdicts};
ghost use Rattle.workload.specs.Refused.{IsSpendRefused, IsTooLong, HasContractCause, HasWorkCause};

use cash_base::Memory;
use cash_compile::MAX_SOURCE_LEN;
use cash_compile::compile::Compiled;
use command_files::Stop;
use generated_spends::{Generated, generated_contract};
use source_commands::{NO_TIME, compiled, debugged, meant};
use source_texts::refusal_text::SOURCE_TOO_LONG;
use std::alloc::{AllocError, Global};

/// The verdict of a spend: 1 where it is accepted or met, else 0.
#[derive(Clone, Copy)]
pub(crate) struct Tried {
    pub(crate) by_machine: u8,
    pub(crate) by_source: u8,
}

/// The verdicts of spends, in order.
#[derive(Drop)]
pub(crate) struct Verdicts {
    pub(crate) by_machine: Vec<u8>,
    pub(crate) by_source: Vec<u8>,
}

/// The byte for a status: 1 for 0.
fn byte_of(status: u8) -> u8
    ensures zero { status ≡ 0 → result ≡ 1 }
    ensures three { status ≡ 3 → result ≡ 0 }
{
    if status == 0 { 1 } else { 0 }
}

/// Tries a spend of a program.
#[tactic(auto, using(crate::proofs::Tries::no_spend, crate::proofs::Tries::no_call))]
fn try_spend(alloc: Global, compiled: &Compiled, bytes: &[u8]) -> Result<Tried, Stop>
    requires compiled { IsCompiled compiled.now.program.source compiled.now.contract compiled.now.program }
    requires few { HasFewInputs compiled.now.program }
    requires short { length compiled.now.program.source ≤ max_source_len }
    ensures tried { IfOk result (λ tried. IsTried compiled.now.contract compiled.now.program bytes.now tried.by_source) }
    ensures alike { IfOk result (λ tried. tried.by_machine ≡ tried.by_source) }
    ensures stopped { IfErr result (λ stop. HasBytesRefusal (λ text. IsNoSpend compiled.now.program bytes.now text ⊎ IsNoCall compiled.now.program bytes.now text) stop) }
    ensures said { IfErr result (λ stop. IsSaid stop) }
{
    let judged = debugged(alloc, compiled, bytes)?;
    let run = meant(alloc, compiled, bytes)?;
    let by_machine = byte_of(judged.status);
    let by_source = byte_of(run.status);
    Ok(Tried {
        by_machine,
        by_source,
    })
}

/// Adds the verdicts of a spend.
fn add_tried(verdicts: &mut Verdicts, tried: Tried) -> Result<(), AllocError>
    ensures by_machine { OnOk result (verdicts.new.by_machine.items ≡ verdicts.old.by_machine.items ++ tried.by_machine ∷ []) }
    ensures by_source { OnOk result (verdicts.new.by_source.items ≡ verdicts.old.by_source.items ++ tried.by_source ∷ []) }
{
    verdicts.by_machine.push(tried.by_machine)?;
    verdicts.by_source.push(tried.by_source)?;
    Ok(())
}

/// Adds the verdicts of spends of a program, in order.
#[tactic(auto, using(crate::proofs::Tries::first_spend, crate::proofs::Tries::later_spend))]
fn add_spends(
    alloc: Global,
    compiled: &Compiled,
    spends: &[Vec<u8>],
    verdicts: &mut Verdicts,
) -> Result<(), Stop>
    requires compiled { IsCompiled compiled.now.program.source compiled.now.contract compiled.now.program }
    requires few { HasFewInputs compiled.now.program }
    requires short { length compiled.now.program.source ≤ max_source_len }
    ensures added { OnOk result ((more : List ℕ) × (verdicts.new.by_machine.items ≡ verdicts.old.by_machine.items ++ more)
        × (verdicts.new.by_source.items ≡ verdicts.old.by_source.items ++ more)
        × AllZip (IsTried compiled.now.contract compiled.now.program) (map (λ spend. spend.items) spends.now) more) }
    ensures stopped { IfErr result (λ stop.
        HasBytesRefusal (IsSpendRefused compiled.now.program (map (λ spend. spend.items) spends.now)) stop) }
    ensures said { IfErr result (λ stop. IsSaid stop) }
{
    match spends {
        [] => Ok(()),
        [spend, others @ ..] => {
            let tried = try_spend(alloc, compiled, spend.as_slice())?;
            add_tried(verdicts, tried)?;
            match add_spends(alloc, compiled, others, verdicts) {
                Ok(()) => Ok(()),
                Err(stop) => Err(stop),
            }
        }
    }
}

/// The refusal of a source that is longer than it may be.
fn source_too_long(alloc: Global) -> Result<Stop, Memory>
    ensures { IfOk result (λ stop. IsTooLong stop) }
{
    let text = Vec::from_slice(alloc, SOURCE_TOO_LONG.as_bytes())?;
    Ok(Stop::Refused { status: 1, text })
}

/// Adds the verdicts of the spends of a generated contract.
#[tactic(auto, using(crate::proofs::Tries::long_cause))]
fn add_contract(alloc: Global, number: u32, verdicts: &mut Verdicts) -> Result<(), Stop>
    ensures added { OnOk result ((more : List ℕ) × (verdicts.new.by_machine.items ≡ verdicts.old.by_machine.items ++ more)
        × (verdicts.new.by_source.items ≡ verdicts.old.by_source.items ++ more) × AreTried (generated_by number) more) }
    ensures stopped { IfErr result (λ stop. HasContractCause (generated_by number) stop) }
    ensures said { IfErr result (λ stop. IsSaid stop) }
{
    let generated = generated_contract(alloc, number)?;
    if generated.source.len() > MAX_SOURCE_LEN {
        return Err(source_too_long(alloc)?);
    }
    try_generated(alloc, &generated, verdicts)?;
    Ok(())
}

/// Adds the verdicts of the spends of a contract.
#[tactic(auto, using(crate::proofs::Tries::spend_cause))]
fn try_generated(alloc: Global, generated: &Generated, verdicts: &mut Verdicts) -> Result<(), Stop>
    requires { length generated.now.source ≤ max_source_len }
    ensures added { OnOk result ((more : List ℕ) × (verdicts.new.by_machine.items ≡ verdicts.old.by_machine.items ++ more)
        × (verdicts.new.by_source.items ≡ verdicts.old.by_source.items ++ more) × AreTried generated.now more) }
    ensures stopped { IfErr result (λ stop. HasContractCause generated.now stop) }
    ensures said { IfErr result (λ stop. IsSaid stop) }
{
    let compiled = compiled(alloc, generated.source.as_slice(), NO_TIME)?;
    match add_spends(alloc, &compiled, generated.spends.as_slice(), verdicts) {
        Ok(()) => Ok(()),
        Err(stop) => Err(stop),
    }
}

/// Adds the verdicts of the spends of so many generated contracts, from this number on.
pub(crate) fn add_contracts(
    alloc: Global,
    from: u32,
    count: u32,
    verdicts: &mut Verdicts,
) -> Result<(), Stop>
    requires { from + count ≤ 1000 }
    ensures added { OnOk result ((more : List ℕ) × (verdicts.new.by_machine.items ≡ verdicts.old.by_machine.items ++ more)
        × (verdicts.new.by_source.items ≡ verdicts.old.by_source.items ++ more) × AreVerdicts count from more) }
    ensures stopped { IfErr result (λ stop. HasWorkCause (from + count) stop) }
    ensures said { IfErr result (λ stop. IsSaid stop) }
{
    if count == 0 {
        return Ok(());
    }
    add_contract(alloc, from, verdicts)?;
    add_contracts(alloc, from + 1, count - 1, verdicts)?;
    Ok(())
}
