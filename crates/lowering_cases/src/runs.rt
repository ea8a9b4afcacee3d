//! Both runs of a source in the world of a spend file.

ghost use Rattle.std.specs.Prelude.{◌≤◌, length};
ghost use Rattle.source_meaning.specs.Runnable.{CanRun};

use crate::board::{Board, Stop};
use crate::lowered::{lowered, runnable};
use crate::slots::run;
use anyhow::{Result, bail, ensure};
use cash_base::element::copy_of;
use cash_base::{Element, TypedValue, write_number};
use cash_tree::TypedContract;
use slot_code::SlotFunction;
use source_meaning::{SourceOutcome, SourceRoom, World};
use span_map::line_col;
use spend_case_files::sources::LONGEST;
use spend_json::{Choice, SpendFile};
use std::alloc::Global;
use tx_context::{Context, fill};

/// How both runs end.
#[derive(Clone, Copy)]
struct Endings {
    source: SourceOutcome,
    code: SourceOutcome,
}

/// The element of a value.
fn element_of(value: &TypedValue) -> Result<Element> {
    match value {
        TypedValue::Int(number) => {
            ensure!(*number != i64::MIN, "a number out of range");
            Ok(write_number(*number))
        }
        TypedValue::Bool(true) => Ok(copy_of(&[1])),
        TypedValue::Bool(false) => Ok(Element::new()),
        TypedValue::Raw(element) => Ok(copy_of(element.as_slice())),
        TypedValue::Text(_) => bail!("a text is no value here"),
    }
}

fn elements_of(alloc: Global, values: &[TypedValue]) -> Result<Vec<Element>> {
    let mut elements = Vec::new(alloc);
    for value in values {
        elements.push(element_of(value)?)?;
    }
    Ok(elements)
}

/// The transaction of a spend file.
fn context_of(alloc: Global, spend: &SpendFile) -> Result<Context> {
    let Ok(context) = fill(alloc, &spend.frame, &[], &[]) else {
        bail!("memory ran out");
    };
    Ok(context)
}

/// How the run of a source's function on these elements ends.
fn source_ending(
    alloc: Global,
    contract: &TypedContract,
    ctor: &[Element],
    place: usize,
    args: &[Element],
    world: &World<'_>,
) -> Result<SourceOutcome>
    requires { CanRun contract.now (length ctor.now) place (length args.now) }
{
    let Ok(mut room) = SourceRoom::new(alloc) else {
        bail!("memory ran out");
    };
    Ok(room.run(contract, ctor, place, args, world))
}

/// How the run of slot code on these elements ends.
fn code_ending(
    alloc: Global,
    function: &SlotFunction,
    values: &[Element],
    world: &World<'_>,
) -> Result<SourceOutcome> {
    let Ok(mut board) = Board::new(alloc, values) else {
        bail!("memory ran out");
    };
    match run(function.body.as_slice(), alloc, world, &mut board) {
        Ok(()) => Ok(SourceOutcome::Met),
        Err(Stop::Failed(failure)) => Ok(SourceOutcome::Failed {
            span: failure.span,
            cause: failure.cause,
        }),
        Err(Stop::Memory) => bail!("memory ran out"),
    }
}

/// All elements of a call, those of the constructor first.
fn values_of(alloc: Global, ctor: &[Element], args: &[Element]) -> Result<Vec<Element>> {
    let mut values = Vec::new(alloc);
    for element in ctor {
        values.push(copy_of(element.as_slice()))?;
    }
    for element in args {
        values.push(copy_of(element.as_slice()))?;
    }
    Ok(values)
}

/// How both runs of a source's function end, in the world of a spend file.
fn ends_of(
    alloc: Global,
    spend: &SpendFile,
    args: &[Element],
    place: usize,
    source: &str,
) -> Result<Endings>
    requires { length source.now ≤ 65536 }
{
    let ctor = elements_of(alloc, spend.ctor.as_slice())?;
    let contract = runnable(alloc, source, ctor.len(), place, args.len())?;
    both(
        alloc,
        &contract,
        ctor.as_slice(),
        place,
        args,
        spend,
        source,
    )
}

fn both(
    alloc: Global,
    contract: &TypedContract,
    ctor: &[Element],
    place: usize,
    args: &[Element],
    spend: &SpendFile,
    source: &str,
) -> Result<Endings>
    requires short { length source.now ≤ 65536 }
    requires runnable { CanRun contract.now (length ctor.now) place (length args.now) }
{
    let context = context_of(alloc, spend)?;
    let world = World {
        ctx: &context,
        verdicts: &spend.verdicts,
        redeem: &[0x51],
    };
    let of_source = source_ending(alloc, contract, ctor, place, args, &world)?;
    let functions = lowered(alloc, source)?;
    let Some(function) = functions.get(place) else {
        bail!("there is no such function");
    };
    let values = values_of(alloc, ctor, args)?;
    let of_code = code_ending(alloc, function, values.as_slice(), &world)?;
    Ok(Endings {
        source: of_source,
        code: of_code,
    })
}

/// What is printed of a run.
fn text_of(alloc: Global, outcome: SourceOutcome, source: &str) -> Result<String>
    requires { length source.now ≤ 65536 }
{
    match outcome {
        SourceOutcome::Met => Ok(String::from_str(alloc, "met")?),
        SourceOutcome::Failed { span, cause } => {
            let (line, column) = line_col(source, span.from);
            Ok(format!(in alloc; "failed {line}:{column} {cause:?}")?)
        }
    }
}

/// What is printed of both runs.
pub fn ending(alloc: Global, spend: &SpendFile, place: usize, source: &str) -> Result<String> {
    let Choice::Call { args, .. } = &spend.choice else {
        bail!("pushes are no call");
    };
    ensure!(source.len() <= LONGEST, "the source is too long");
    let args = elements_of(alloc, args.as_slice())?;
    let both = ends_of(alloc, spend, args.as_slice(), place, source)?;
    let code = text_of(alloc, both.code, source)?;
    if both.code == both.source {
        return Ok(code);
    }
    let other = text_of(alloc, both.source, source)?;
    Ok(format!(in alloc; "{code}, and its source {other}")?)
}
