//! Runs of a source in the world of a spend file.

ghost use Rattle.std.specs.Prelude.{◌≤◌, length};
ghost use Rattle.source_meaning.specs.Runnable.{CanRun};

use crate::sources::runnable;
use anyhow::{Result, bail, ensure};
use cash_base::element::copy_of;
use cash_base::{Element, TypedValue, write_number};
use cash_tree::TypedContract;
use source_meaning::{SourceOutcome, SourceRoom, World};
use span_map::line_col;
use spend_case_files::sources::LONGEST;
use spend_json::{Choice, SpendFile};
use std::alloc::Global;
use tx_context::fill;

/// The element of a value.
fn element_of(value: &TypedValue) -> Result<Element> {
    match value {
        TypedValue::Int(number) => {
            ensure!(*number != i64::MIN, "a number out of range");
            Ok(write_number(*number))
        }
        TypedValue::Bool(true) => Ok(copy_of(&[1])),
        TypedValue::Bool(false) => Ok(Element::new()),
        TypedValue::Raw(element) => Ok(copy_of(element.as_slice())),
        TypedValue::Text(_) => bail!("a text is no value here"),
    }
}

fn elements_of(alloc: Global, values: &[TypedValue]) -> Result<Vec<Element>> {
    let mut elements = Vec::new(alloc);
    for value in values {
        elements.push(element_of(value)?)?;
    }
    Ok(elements)
}

/// How a run of a source ends, in the world of a spend file.
fn outcome(
    alloc: Global,
    spend: &SpendFile,
    args: &[Element],
    place: usize,
    source: &str,
) -> Result<SourceOutcome>
    requires { length source.now ≤ 65536 }
{
    let ctor = elements_of(alloc, spend.ctor.as_slice())?;
    let contract = runnable(alloc, source, ctor.len(), place, args.len())?;
    run_of(alloc, &contract, ctor.as_slice(), place, args, spend)
}

/// How a run of a function on these elements ends, in the world of a spend file.
fn run_of(
    alloc: Global,
    contract: &TypedContract,
    ctor: &[Element],
    place: usize,
    args: &[Element],
    spend: &SpendFile,
) -> Result<SourceOutcome>
    requires { CanRun contract.now (length ctor.now) place (length args.now) }
{
    let Ok(context) = fill(alloc, &spend.frame, &[], &[]) else {
        bail!("memory ran out");
    };
    let world = World {
        ctx: &context,
        verdicts: &spend.verdicts,
        redeem: &[0x51],
    };
    let Ok(mut room) = SourceRoom::new(alloc) else {
        bail!("memory ran out");
    };
    Ok(room.run(contract, ctor, place, args, &world))
}

/// What is printed of a run.
pub fn ending(alloc: Global, spend: &SpendFile, place: usize, source: &str) -> Result<String> {
    let Choice::Call { args, .. } = &spend.choice else {
        bail!("pushes are no call");
    };
    ensure!(source.len() <= LONGEST, "the source is too long");
    let args = elements_of(alloc, args.as_slice())?;
    match outcome(alloc, spend, args.as_slice(), place, source)? {
        SourceOutcome::Met => Ok(String::from_str(alloc, "met")?),
        SourceOutcome::Failed { span, cause } => {
            let (line, column) = line_col(source, span.from);
            Ok(format!(in alloc; "failed {line}:{column} {cause:?}")?)
        }
    }
}
