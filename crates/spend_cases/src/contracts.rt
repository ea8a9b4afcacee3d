//! Contracts that are spent.

ghost use Rattle.std.specs.Prelude.{◌≡◌, length, IfOk};
ghost use Rattle.artifact_json.specs.Artifact.{HasFewInputs};

use anyhow::{Result, ensure};
use artifact_json::{AbiFunction, AbiInput, Program, is_spelled};
use cash_base::Span;
use cash_tree::Ty;
use script_codec::{Instr, Opcode};
use span_map::SpanRow;
use std::alloc::{AllocError, Global};

/// The source of the contract that is spent.
pub const SOURCE: &str = "contract Eq(int a) { function f(int b) { require(a == b); } }";

/// NUMEQUAL, or nothing.
fn code(alloc: Global, has_code: bool) -> Result<Vec<Instr>, AllocError> {
    let mut code = Vec::new(alloc);
    if !has_code {
        return Ok(code);
    }
    code.push(Instr::Do(Opcode::NUMEQUAL))?;
    Ok(code)
}

fn parameters(alloc: Global, count: u8) -> Result<Vec<AbiInput>, AllocError> {
    let mut inputs = Vec::new(alloc);
    for _ in 0..count {
        let name = String::from_str(alloc, "x")?;
        inputs.push(AbiInput { name, ty: Ty::Int })?;
    }
    Ok(inputs)
}

/// A contract of so many parameters, and of functions with so many each, whose code is NUMEQUAL.
pub fn contract(alloc: Global, params: &str, functions: &str) -> Result<Program> {
    let mut abi = Vec::new(alloc);
    for count in functions.split(',') {
        let name = String::from_str(alloc, "f")?;
        let inputs = parameters(alloc, count.parse::<u8>()?)?;
        abi.push(AbiFunction { name, inputs })?;
    }
    let code = code(alloc, true)?;
    let ctor = parameters(alloc, params.parse::<u8>()?)?;
    ensure!(
        is_spelled(&code, &ctor, &abi),
        "the program can't be spelled"
    );
    Ok(Program {
        code,
        spans: None,
        ctor,
        abi,
        name: String::from_str(alloc, "C")?,
        source: String::new(alloc),
        updated: String::new(alloc),
    })
}

/// The places of one instruction, or none that are known.
fn spans(alloc: Global, has_places: bool) -> Result<Option<Vec<SpanRow>>, AllocError> {
    if !has_places {
        return Ok(None);
    }
    let mut rows = Vec::new(alloc);
    rows.push(SpanRow {
        doing: Span { from: 49, to: 55 },
        checking: Span { from: 41, to: 57 },
    })?;
    Ok(Some(rows))
}

fn parameter(alloc: Global, name: &str) -> Result<Vec<AbiInput>, AllocError>
    ensures { IfOk result (λ inputs. length inputs.items ≡ 1) }
{
    let mut inputs = Vec::new(alloc);
    let name = String::from_str(alloc, name)?;
    inputs.push(AbiInput { name, ty: Ty::Int })?;
    Ok(inputs)
}

/// The contract of `SOURCE`.
pub fn equality(alloc: Global, has_code: bool, has_places: bool) -> Result<Program>
    ensures { IfOk result HasFewInputs }
{
    let mut abi = Vec::new(alloc);
    let name = String::from_str(alloc, "f")?;
    let inputs = parameter(alloc, "b")?;
    abi.push(AbiFunction { name, inputs })?;
    let code = code(alloc, has_code)?;
    let ctor = parameter(alloc, "a")?;
    ensure!(
        is_spelled(&code, &ctor, &abi),
        "the program can't be spelled"
    );
    Ok(Program {
        code,
        spans: spans(alloc, has_places)?,
        ctor,
        abi,
        name: String::from_str(alloc, "Eq")?,
        source: String::from_str(alloc, SOURCE)?,
        updated: String::new(alloc),
    })
}
