//! From a source to its contract with types.

ghost use Rattle.std.specs.Prelude.{◌≡◌, ◌≢◌, ◌<◌, ◌^◌, ℕ, List, length, IfOk, IfErr};
ghost use Rattle.source_stages.specs.declared.fault.SourceFault.TheVariants.{Memory as FaultOfMemory};
ghost use Rattle.source_stages.specs.Stages as stages;
ghost use Rattle.cash_compile.specs.declared.refusal.Refusal.TheVariants.{Memory};
ghost use Rattle.cash_compile.specs.Compile.{IsAccepted, IsRefused};

use crate::refusal::Refusal;
use cash_tree::TypedContract;
use source_stages::SourceFault;
use std::alloc::Global;

/// The refusal for what is wrong with a source.
fn refusal_of(fault: SourceFault) -> Refusal
    ensures { (source : List ℕ) → (fault ≢ FaultOfMemory → stages.IsRefused source fault) → result ≢ Memory → IsRefused source result }
{
    match fault {
        SourceFault::TooLong { bytes } => Refusal::SourceTooLong { bytes },
        SourceFault::NotUtf8 { at } => Refusal::NotUtf8 { at },
        SourceFault::Lex(fault) => Refusal::Lex(fault),
        SourceFault::Parse(fault) => Refusal::Parse(fault),
        SourceFault::Name(fault) => Refusal::Name(fault),
        SourceFault::Typing(fault) => Refusal::Typing(fault),
        SourceFault::Memory => Refusal::Memory,
    }
}

/// The contract of a source, with the type of each expression; or the refusal for what is wrong with the source, or `Memory`,
/// where memory ran out.
pub fn typed_contract_of(alloc: Global, source: &[u8]) -> Result<TypedContract, Refusal>
    requires { length source.now < 2 ^ 32 }
    ensures accepted { IfOk result (λ contract. IsAccepted source.now contract) }
    ensures refused { IfErr result (λ refusal. refusal ≢ Memory → IsRefused source.now refusal) }
{
    match source_stages::typed_contract_of(alloc, source) {
        Ok(contract) => Ok(contract),
        Err(fault) => Err(refusal_of(fault)),
    }
}
