//! The contracts and the slot code of sources.

ghost use Rattle.std.specs.Prelude.{◌≤◌, length, IfOk};
ghost use Rattle.source_meaning.specs.Runnable.{CanRun};

use anyhow::{Result, bail};
use cash_tree::TypedContract;
use slot_code::SlotFunction;
use slot_lowering::lower;
use source_stages::reading::typed_contract_of;
use spend_case_files::sources::contract_of;
use std::alloc::Global;
use typed_sources::accepted_contracts_fit;

/// The contract of a source, if it has a function at this place with so many parameters, and so many of its constructor.
pub fn runnable(
    alloc: Global,
    source: &str,
    ctor: usize,
    place: usize,
    args: usize,
) -> Result<TypedContract>
    requires { length source.now ≤ 65536 }
    ensures { IfOk result (λ contract. CanRun contract ctor place args) }
{
    let contract = contract_of(alloc, source)?;
    match contract.functions.get(place) {
        Some(function) if contract.params.len() == ctor && function.params.len() == args => {
            Ok(contract)
        }
        _ => bail!("there is no such function, or other values are needed"),
    }
}

/// The slot code of a source's functions.
pub fn lowered(alloc: Global, source: &str) -> Result<Vec<SlotFunction>>
    requires { length source.now ≤ 65536 }
{
    accepted_contracts_fit();
    let Ok(contract) = typed_contract_of(alloc, source.as_bytes()) else {
        bail!("no contract");
    };
    let Ok(functions) = lower(alloc, &contract) else {
        bail!("memory ran out");
    };
    Ok(functions)
}
