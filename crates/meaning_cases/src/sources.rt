//! The contracts of sources.

ghost use Rattle.std.specs.Prelude.{◌≤◌, length, IfOk};
ghost use Rattle.source_meaning.specs.Runnable.{CanRun};

use anyhow::{Result, bail};
use cash_tree::TypedContract;
use spend_case_files::sources::contract_of;
use std::alloc::Global;

/// The contract of a source, if it has a function at this place with so many parameters, and so many of its constructor.
pub fn runnable(
    alloc: Global,
    source: &str,
    ctor: usize,
    place: usize,
    args: usize,
) -> Result<TypedContract>
    requires { length source.now ≤ 65536 }
    ensures { IfOk result (λ contract. CanRun contract ctor place args) }
{
    let contract = contract_of(alloc, source)?;
    match contract.functions.get(place) {
        Some(function) if contract.params.len() == ctor && function.params.len() == args => {
            Ok(contract)
        }
        _ => bail!("there is no such function, or other values are needed"),
    }
}
