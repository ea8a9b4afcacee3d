//! Reads an artifact.

ghost use Rattle.std.specs.Prelude.{◌≡◌, Ok, IfOk};
ghost use Rattle.serde_json.specs.View.{view, items_view};
ghost use Rattle.json_fields.specs.Fields.{each};
ghost use Rattle.artifact_json.specs.Artifact.{IsStorable};
ghost use Rattle.artifact_json.specs.Fields.{Gives};
ghost use Rattle.artifact_json.specs.Reading.{input_of, call_of, compiler_check, program_of, artifact_reading};

use crate::fault::{ArtifactFault, Field};
use crate::fields::{object_at, objects_at, text_at};
use crate::parts::{code_at, count_check, spans_at};
use crate::program::{AbiFunction, AbiInput, Program};
use cash_symbols::words::type_of;
use json_fields::object_in;
use serde_json::Value;
use std::alloc::Global;

/// The constructor and each function have at most so many parameters.
const MOST_INPUTS: usize = 16;

/// A contract has at most so many functions.
const MOST_FUNCTIONS: usize = 64;

#[tactic(auto, unfolding(crate::specs::Reading::input_of))]
fn input_of(alloc: Global, value: &Value) -> Result<AbiInput, ArtifactFault>
    ensures { Gives (λ i. i) result (input_of (view value.now)) }
{
    let name = text_at(value, Field::Name)?;
    let spelled = text_at(value, Field::TypeName)?;
    let ty = type_of(spelled.as_bytes()).ok_or(ArtifactFault::WrongKind {
        field: Field::TypeName,
    })?;
    let name = String::from_str(alloc, name)?;
    Ok(AbiInput { name, ty })
}

fn each_input(alloc: Global, items: &[Value]) -> Result<Vec<AbiInput>, ArtifactFault>
    ensures { Gives (λ v. v.items) result (each input_of (items_view items.now)) }
{
    let mut inputs = Vec::new(alloc);
    for item in items {
        let input = input_of(alloc, item)?;
        inputs.push(input)?;
    }
    Ok(inputs)
}

#[tactic(auto, unfolding(crate::specs::Reading::call_of))]
fn call_of(alloc: Global, value: &Value) -> Result<AbiFunction, ArtifactFault>
    ensures { Gives (λ f. f) result (call_of (view value.now)) }
{
    let name = text_at(value, Field::Name)?;
    let items = objects_at(value, Field::Inputs, 0, MOST_INPUTS)?;
    let inputs = each_input(alloc, items)?;
    let name = String::from_str(alloc, name)?;
    Ok(AbiFunction { name, inputs })
}

fn each_call(alloc: Global, items: &[Value]) -> Result<Vec<AbiFunction>, ArtifactFault>
    ensures { Gives (λ v. v.items) result (each call_of (items_view items.now)) }
{
    let mut calls = Vec::new(alloc);
    for item in items {
        let call = call_of(alloc, item)?;
        calls.push(call)?;
    }
    Ok(calls)
}

#[tactic(auto, unfolding(crate::specs::Reading::compiler_check))]
fn compiler_check(value: &Value) -> Result<(), ArtifactFault>
    ensures { Gives (λ t. t) result (compiler_check (view value.now)) }
{
    let _ = text_at(value, Field::Name)?;
    let _ = text_at(value, Field::Version)?;
    Ok(())
}

#[tactic(auto, unfolding(crate::specs::Reading::program_of))]
fn program_of(alloc: Global, value: &Value) -> Result<Program, ArtifactFault>
    ensures { Gives (λ p. p) result (program_of (view value.now)) }
{
    let name = text_at(value, Field::ContractName)?;
    let params = objects_at(value, Field::ConstructorInputs, 0, MOST_INPUTS)?;
    let functions = objects_at(value, Field::Abi, 1, MOST_FUNCTIONS)?;
    let code = code_at(alloc, value)?;
    let source = text_at(value, Field::Source)?;
    let compiler = object_at(value, Field::Compiler)?;
    let updated = text_at(value, Field::UpdatedAt)?;
    let spans = spans_at(alloc, value, source.len())?;
    let ctor = each_input(alloc, params)?;
    let abi = each_call(alloc, functions)?;
    compiler_check(compiler)?;
    count_check(&code, &spans)?;
    let name = String::from_str(alloc, name)?;
    let source = String::from_str(alloc, source)?;
    let updated = String::from_str(alloc, updated)?;
    Ok(Program {
        code,
        spans,
        ctor,
        abi,
        name,
        source,
        updated,
    })
}

/// The program that the bytes of an artifact spell, or its first fault.
///
/// `NotJson` comes where they spell no JSON object. Then the fields `contractName`, `constructorInputs`, `abi`, `bytecode`,
/// `source`, `compiler`, `updatedAt` and `spans` are looked at in this order, and after them what is inside: the parameters of
/// the constructor (`name`, `type`), the functions (`name`, `inputs`, and the parameters in it) and the compiler (`name`,
/// `version`), the items of a list in turn. In one field the faults come in the order of `ArtifactFault`; `SpanCount` comes last.
/// `spans` alone may be missing, and unknown fields are passed over. What is read can be stored.
///
/// The fields are those of the artifacts of CashScript; `spans` and the limits are this project's own: docs/FORMATS.md.
#[tactic(auto, unfolding(crate::specs::Reading::artifact_reading))]
pub fn read(alloc: Global, bytes: &[u8]) -> Result<Program, ArtifactFault>
    ensures value { Gives (λ p. p) result (artifact_reading bytes.now) }
    ensures storable { IfOk result IsStorable }
{
    let value = object_in(alloc, bytes)?.ok_or(ArtifactFault::NotJson)?;
    let program = program_of(alloc, &value)?;
    Ok(program)
}
