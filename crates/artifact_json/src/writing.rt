//! Writes an artifact.

ghost use Rattle.std.specs.Prelude.{◌≡◌, Ok, map, string_bytes, IfOk};
ghost use Rattle.serde_json.specs.View.{view, items_view, items_of};
ghost use Rattle.artifact_json.specs.Artifact.{IsStorable};
ghost use Rattle.artifact_json.specs.Reading.{artifact_reading};
ghost use Rattle.artifact_json.specs.Text.{input_value, inputs_value, call_value, compiler_value, row_value, program_value, artifact_text};

use crate::fault::Field;
use crate::laws::parts_have_types;
use crate::program::{AbiFunction, AbiInput, Program};
use crate::types::spelling;
use asm_text::asm_text;
use cash_base::Memory;
use json_text::pretty_text;
use serde_json::{Map, Value, put};
use span_map::SpanRow;
use std::alloc::{AllocError, Global};

/// What a contract is compiled by.
const COMPILER: &str = "cashc";

/// The version of the language, which artifacts tell as the compiler's.
const COMPILER_VERSION: &str = "0.7.0";

#[tactic(auto, unfolding(crate::specs::Text::input_value))]
fn input_value(alloc: Global, input: &AbiInput) -> Result<Value, AllocError>
    ensures { IfOk result (λ v. view v ≡ input_value input.now) }
{
    let name = Value::try_from_str(alloc, input.name.as_str())?;
    let spelled = Value::from(spelling(alloc, &input.ty)?);
    let mut members = Map::new(alloc);
    put(&mut members, alloc, Field::Name.key(), name)?;
    put(&mut members, alloc, Field::TypeName.key(), spelled)?;
    Ok(Value::from(members))
}

fn each_input(alloc: Global, inputs: &[AbiInput]) -> Result<Vec<Value>, AllocError>
    ensures { IfOk result (λ v. items_view v.items ≡ items_of (map input_value inputs.now)) }
{
    let mut values = Vec::new(alloc);
    for input in inputs {
        let value = input_value(alloc, input)?;
        values.push(value)?;
    }
    Ok(values)
}

fn inputs_value(alloc: Global, inputs: &[AbiInput]) -> Result<Value, AllocError>
    ensures { IfOk result (λ v. view v ≡ inputs_value inputs.now) }
{
    let values = each_input(alloc, inputs)?;
    Ok(Value::from(values))
}

#[tactic(auto, unfolding(crate::specs::Text::call_value))]
fn call_value(alloc: Global, call: &AbiFunction) -> Result<Value, AllocError>
    ensures { IfOk result (λ v. view v ≡ call_value call.now) }
{
    let name = Value::try_from_str(alloc, call.name.as_str())?;
    let inputs = inputs_value(alloc, call.inputs.as_slice())?;
    let mut members = Map::new(alloc);
    put(&mut members, alloc, Field::Inputs.key(), inputs)?;
    put(&mut members, alloc, Field::Name.key(), name)?;
    Ok(Value::from(members))
}

fn each_call(alloc: Global, calls: &[AbiFunction]) -> Result<Vec<Value>, AllocError>
    ensures { IfOk result (λ v. items_view v.items ≡ items_of (map call_value calls.now)) }
{
    let mut values = Vec::new(alloc);
    for call in calls {
        let value = call_value(alloc, call)?;
        values.push(value)?;
    }
    Ok(values)
}

#[tactic(auto, unfolding(crate::specs::Text::compiler_value))]
fn compiler_value(alloc: Global) -> Result<Value, AllocError>
    ensures { IfOk result (λ v. view v ≡ compiler_value) }
{
    let name = Value::try_from_str(alloc, COMPILER)?;
    let version = Value::try_from_str(alloc, COMPILER_VERSION)?;
    let mut members = Map::new(alloc);
    put(&mut members, alloc, Field::Name.key(), name)?;
    put(&mut members, alloc, Field::Version.key(), version)?;
    Ok(Value::from(members))
}

#[tactic(auto, unfolding(crate::specs::Text::row_value))]
fn row_value(alloc: Global, row: SpanRow) -> Result<Value, AllocError>
    ensures { IfOk result (λ v. view v ≡ row_value row) }
{
    let mut numbers = Vec::new(alloc);
    numbers.push(Value::from(row.doing.from))?;
    numbers.push(Value::from(row.doing.to))?;
    numbers.push(Value::from(row.checking.from))?;
    numbers.push(Value::from(row.checking.to))?;
    Ok(Value::from(numbers))
}

fn each_row(alloc: Global, rows: &[SpanRow]) -> Result<Vec<Value>, AllocError>
    ensures { IfOk result (λ v. items_view v.items ≡ items_of (map row_value rows.now)) }
{
    let mut values = Vec::new(alloc);
    for row in rows {
        let value = row_value(alloc, *row)?;
        values.push(value)?;
    }
    Ok(values)
}

#[tactic(auto, unfolding(crate::specs::Text::program_value))]
fn program_value(alloc: Global, program: &Program) -> Result<Value, Memory>
    ensures { IfOk result (λ v. view v ≡ program_value program.now) }
{
    let abi = Value::from(each_call(alloc, program.abi.as_slice())?);
    let code = Value::from(asm_text(alloc, program.code.as_slice())?);
    let compiler = compiler_value(alloc)?;
    let ctor = inputs_value(alloc, program.ctor.as_slice())?;
    let name = Value::try_from_str(alloc, program.name.as_str())?;
    let source = Value::try_from_str(alloc, program.source.as_str())?;
    let updated = Value::try_from_str(alloc, program.updated.as_str())?;
    let mut members = Map::new(alloc);
    put(&mut members, alloc, Field::Abi.key(), abi)?;
    put(&mut members, alloc, Field::Bytecode.key(), code)?;
    put(&mut members, alloc, Field::Compiler.key(), compiler)?;
    put(&mut members, alloc, Field::ConstructorInputs.key(), ctor)?;
    put(&mut members, alloc, Field::ContractName.key(), name)?;
    put(&mut members, alloc, Field::Source.key(), source)?;
    put(&mut members, alloc, Field::UpdatedAt.key(), updated)?;
    if let Some(rows) = &program.spans {
        let rows = Value::from(each_row(alloc, rows.as_slice())?);
        put(&mut members, alloc, Field::Spans.key(), rows)?;
    }
    Ok(Value::from(members))
}

/// The artifact of a program: its one text. `Memory` comes where memory ran out.
///
/// It is a JSON object in the pretty layout of `serde_json`, its keys in the order of their bytes, and a line feed. `read` gives
/// the same program for it, where the program can be stored. The fields are those of the artifacts of CashScript, and `spans`
/// is this project's own: docs/FORMATS.md.
#[tactic(auto, unfolding(crate::specs::Text::artifact_text))]
pub fn write(alloc: Global, program: &Program) -> Result<String, Memory>
    ensures text { IfOk result (λ text. string_bytes text ≡ artifact_text program.now) }
    ensures read_back { IfOk result (λ text. IsStorable program.now → artifact_reading (string_bytes text) ≡ Ok program.now) }
{
    let value = program_value(alloc, program)?;
    let text = pretty_text(alloc, &value)?;
    parts_have_types(program);
    Ok(text)
}
