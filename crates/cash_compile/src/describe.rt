//! From a contract and the rows of its code to its program.

ghost use Rattle.std.specs.Prelude.{◌≡◌, length, map, string_bytes, IfOk, IsTrue};
ghost use Rattle.std.specs.List.{AllByRecursion};
ghost use Rattle.std.specs.Str.{IsUtf8};
ghost use Rattle.artifact_json.specs.Artifact.{IsRowInside, is_spelled};
ghost use Rattle.row_runs.specs.Rows.{instructions};
ghost use Rattle.tidied_code.specs.Ends.{places};
ghost use Rattle.cash_compile.specs.Describes.{lossy_at, described_param, described_function, DescribesBy};

use artifact_json::{AbiFunction, AbiInput, Program};
use cash_base::{Memory, Slot, Span, text_at};
use cash_tree::{Function, Param, Ty, TypedContract};
use script_codec::{Instr, Spanned};
use span_map::SpanRow;
use std::alloc::Global;

/// The program of a contract, with its code, a row of places for each instruction and the time of its compilation.
#[tactic(auto, using(crate::proofs::Described::text_kept))]
pub(crate) fn program_of(
    alloc: Global,
    source: &[u8],
    updated: &str,
    contract: &TypedContract,
    code: Vec<Instr>,
    spans: Vec<SpanRow>,
) -> Result<Program, Memory>
    requires each { length spans.items ≡ length code.items }
    requires spelled { IsTrue (is_spelled code.items (map (described_param (lossy_at source.now)) contract.now.params)
        (map (described_function (lossy_at source.now)) contract.now.functions)) }
    requires utf8 { IsUtf8 source.now }
    requires inside { AllByRecursion (IsRowInside (length source.now)) spans.items }
    ensures code { IfOk result (λ program. program.code ≡ code.items) }
    ensures updated { IfOk result (λ program. program.updated ≡ updated.now) }
    ensures describes { IfOk result (λ program.
        DescribesBy (lossy_at source.now) source.now contract.now program spans.items) }
{
    let ctor = inputs_of(alloc, source, contract.params.as_slice())?;
    let abi = functions_of(alloc, source, contract.functions.as_slice())?;
    let name = name_of(alloc, source, contract.name)?;
    let text = String::from_utf8_lossy(alloc, source)?;
    let updated = String::from_str(alloc, updated)?;
    Ok(Program {
        code,
        spans: Some(spans),
        ctor,
        abi,
        name,
        source: text,
        updated,
    })
}

/// Instructions, and a row of places for each.
#[derive(Drop)]
pub(crate) struct CodeAndPlaces {
    pub(crate) code: Vec<Instr>,
    pub(crate) spans: Vec<SpanRow>,
}

pub(crate) fn split(alloc: Global, rows: Vec<Spanned>) -> Result<CodeAndPlaces, Memory>
    ensures code { IfOk result (λ split. split.code.items ≡ instructions rows.items) }
    ensures spans { IfOk result (λ split. split.spans.items ≡ map places rows.items) }
{
    let mut code = Vec::new(alloc);
    let mut spans = Vec::new(alloc);
    for row in rows {
        let Spanned {
            instr,
            doing,
            checking,
        } = row;
        code.push(instr)?;
        spans.push(SpanRow { doing, checking })?;
    }
    Ok(CodeAndPlaces { code, spans })
}

fn name_of(alloc: Global, source: &[u8], span: Span) -> Result<String, Memory>
    ensures { IfOk result (λ name. string_bytes name ≡ lossy_at source.now span) }
{
    Ok(String::from_utf8_lossy(alloc, text_at(source, span))?)
}

fn input_of(alloc: Global, source: &[u8], param: &Param<Slot>) -> Result<AbiInput, Memory>
    ensures { IfOk result (λ input. input ≡ described_param (lossy_at source.now) param.now) }
{
    Ok(AbiInput {
        name: name_of(alloc, source, param.place)?,
        ty: param.ty.copy(alloc)?,
    })
}

fn inputs_of(alloc: Global, source: &[u8], params: &[Param<Slot>]) -> Result<Vec<AbiInput>, Memory>
    ensures { IfOk result (λ inputs. inputs.items ≡ map (described_param (lossy_at source.now)) params.now) }
{
    let mut inputs = Vec::new(alloc);
    for param in params {
        inputs.push(input_of(alloc, source, param)?)?;
    }
    Ok(inputs)
}

fn function_of(
    alloc: Global,
    source: &[u8],
    function: &Function<Slot, Ty>,
) -> Result<AbiFunction, Memory>
    ensures { IfOk result (λ call. call ≡ described_function (lossy_at source.now) function.now) }
{
    Ok(AbiFunction {
        name: name_of(alloc, source, function.name)?,
        inputs: inputs_of(alloc, source, function.params.as_slice())?,
    })
}

fn functions_of(
    alloc: Global,
    source: &[u8],
    functions: &[Function<Slot, Ty>],
) -> Result<Vec<AbiFunction>, Memory>
    ensures { IfOk result (λ calls. calls.items ≡ map (described_function (lossy_at source.now)) functions.now) }
{
    let mut calls = Vec::new(alloc);
    for function in functions {
        calls.push(function_of(alloc, source, function)?)?;
    }
    Ok(calls)
}
