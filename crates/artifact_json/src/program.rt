//! What an artifact holds.

ghost use Rattle.std.specs.Prelude.{◌≡◌};
ghost use Rattle.artifact_json.specs.Artifact;

use crate::types::is_named_type;
use cash_tree::Ty;
use script_codec::{Instr, are_named};
use span_map::SpanRow;
use std::marker::Model;

/// A parameter of the constructor or of a function. Contracts see its name as bytes.
#[derive(Drop)]
pub struct AbiInput {
    pub name: String,
    pub ty: Ty,
}

impl Model for AbiInput {
    ghost use Rattle.std.specs.Prelude.{string_bytes};
    ghost use Rattle.std.specs.Coded.{codes};
    ghost use Rattle.cash_tree.specs.contracts.Ty as types;
    ghost use Rattle.artifact_json.specs.Artifact.{AbiParam};

    ghost Value = { AbiParam };

    ghost coded = { Prim.hlevel (codes, types.the_row.coded) };

    ghost view = { λ i. record { name = string_bytes i.name; ty = i.ty } };
}

/// A function with its parameters, in the order of the source.
#[derive(Drop)]
pub struct AbiFunction {
    pub name: String,
    pub inputs: Vec<AbiInput>,
}

impl Model for AbiFunction {
    ghost use Rattle.std.specs.Prelude.{string_bytes};
    ghost use Rattle.std.specs.Coded.{codes};
    ghost use Rattle.cash_tree.specs.contracts.Ty as types;
    ghost use Rattle.artifact_json.specs.Artifact.{AbiCall};

    ghost Value = { AbiCall };

    ghost coded = { Prim.hlevel (codes, types.the_row.coded) };

    ghost view = { λ f. record { name = string_bytes f.name; inputs = f.inputs.items } };
}

/// A compiled contract: its code, where they are known the places in the source of each instruction, the constructor's
/// parameters, the functions in the order of the source, the contract's name, its source, and when it was compiled.
///
/// Each opcode of the code is above 60 (hexadecimal) and has a name, and each type is one that a source can name. Contracts see
/// lists for vectors, and bytes for texts.
#[derive(Drop)]
pub struct Program {
    pub code: Vec<Instr>,
    pub spans: Option<Vec<SpanRow>>,
    pub ctor: Vec<AbiInput>,
    pub abi: Vec<AbiFunction>,
    pub name: String,
    pub source: String,
    pub updated: String,
}

impl Model for Program {
    ghost use Rattle.std.specs.Prelude.{string_bytes, option_map, IsTrue};
    ghost use Rattle.std.specs.Coded.{codes};
    ghost use Rattle.cash_tree.specs.contracts.Ty as types;
    ghost use Rattle.artifact_json.specs.Artifact.{Artifact, is_spelled};

    ghost Value = { Artifact };

    ghost coded = { Prim.hlevel (codes, types.the_row.coded) };

    ghost view = { λ p. record {
      code = p.code.items;
      spans = option_map (λ rows. rows.items) p.spans;
      ctor = p.ctor.items;
      abi = p.abi.items;
      name = string_bytes p.name;
      source = string_bytes p.source;
      updated = string_bytes p.updated;
    } };

    ghost invariant = { λ p. IsTrue (is_spelled p.code.items p.ctor.items p.abi.items) };
}

/// Whether each opcode of some code is above 60 (hexadecimal) and has a name, and each type of a parameter is one that a source
/// can name: what a program keeps. It takes no memory.
pub fn is_spelled(code: &[Instr], ctor: &[AbiInput], abi: &[AbiFunction]) -> bool
    ensures { result ≡ Artifact.is_spelled code.now ctor.now abi.now }
{
    are_named(code) && have_named_types(ctor) && take_named_types(abi)
}

fn have_named_types(params: &[AbiInput]) -> bool
    ensures { result ≡ Artifact.have_named_types params.now }
{
    params.iter().all(|param| is_named_type(&param.ty))
}

fn take_named_types(calls: &[AbiFunction]) -> bool
    ensures { result ≡ Artifact.take_named_types calls.now }
{
    calls
        .iter()
        .all(|call| have_named_types(call.inputs.as_slice()))
}
