//! The contracts of sources.

ghost use Rattle.std.specs.Prelude.{◌≡◌, ◌≤◌, ℕ, Some, length, slice_get, IfOk};
ghost use Rattle.type_check.specs.Outline.{TypedFunction};
ghost use Rattle.source_meaning.specs.Runnable.{CanRun};

use anyhow::{Result, bail};
use cash_lexer::tokens;
use cash_names::resolve;
use cash_parser::parse;
use cash_tree::TypedContract;
use std::alloc::Global;
use type_check::check;
use type_soundness::contracts_have_room;

/// The longest source that is read.
pub const LONGEST: usize = 65_536;

/// The contract of a source, with the type of each expression.
pub fn contract_of(alloc: Global, source: &str) -> Result<TypedContract>
    requires { length source.now ≤ 65536 }
    ensures room { IfOk result (λ contract. (place : ℕ) (f : TypedFunction) → slice_get contract.functions place ≡ Some f
        → CanRun contract (length contract.params) place (length f.params)) }
{
    contracts_have_room();
    let Ok(tokens) = tokens(alloc, source) else {
        bail!("no tokens");
    };
    let Ok(tree) = parse(alloc, source, &tokens) else {
        bail!("no tree");
    };
    let Ok(named) = resolve(alloc, source, &tree) else {
        bail!("an unknown name");
    };
    let Ok(contract) = check(alloc, &named) else {
        bail!("no types");
    };
    Ok(contract)
}
