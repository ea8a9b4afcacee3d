//! The transaction of a spend file.

ghost use Rattle.std.specs.Prelude.{◌≡◌, Ok};
ghost use Rattle.serde_json.specs.View.{view, items_view};
ghost use Rattle.json_fields.specs.Fields.{each};
ghost use Rattle.tx_context.specs.Given.{given_bytes};
ghost use Rattle.spend_json.specs.Fields.{Gives};
ghost use Rattle.spend_json.specs.Transactions;
ghost use Rattle.spend_json.specs.Transactions.{hash_of, hash_at, locking_of, locking_at, input_of, inputs_at, output_of, outputs_at, transaction_of, transaction_at, plain_inputs};
ghost use Rattle.spend_json.specs.Parts.{parts_of};

use crate::fault::{SpendFault, SpendField};
use crate::fields::{amount_at, bytes_at, bytes_of, text_of, u32_at};
use json_fields::{hex_bytes, objects_of};
use serde_json::Value;
use std::alloc::Global;
use tx_context::{Bytecode, Input, Output, plain_input};

/// The parts of a frame, which are put to its tests when all of the file is read.
#[derive(Debug, Drop)]
pub struct TransactionParts {
    pub version: u32,
    pub locktime: u32,
    pub inputs: Vec<Input>,
    pub outputs: Vec<Output>,
    pub active: u32,
}

#[tactic(auto, unfolding(crate::specs::Transactions::hash_of))]
fn hash_of(alloc: Global, value: &Value) -> Result<[u8; 32], SpendFault>
    ensures { Gives (λ hash. hash) result (hash_of (view value.now)) }
{
    let field = SpendField::OutpointTransactionHash;
    let bytes = bytes_of(alloc, value, field)?;
    if bytes.len() != 32 {
        return Err(SpendFault::Range { field });
    }
    let mut hash = [0; 32];
    hash.copy_from_slice(bytes.as_slice());
    Ok(hash)
}

#[tactic(auto, unfolding(crate::specs::Transactions::hash_at))]
fn hash_at(alloc: Global, value: &Value) -> Result<[u8; 32], SpendFault>
    ensures { Gives (λ hash. hash) result (hash_at (view value.now)) }
{
    match value.get(SpendField::OutpointTransactionHash.key()) {
        None => Ok([0; 32]),
        Some(value) => {
            let hash = hash_of(alloc, value)?;
            Ok(hash)
        }
    }
}

// The locking bytecode of a text.
fn bytecode_in(alloc: Global, text: &str) -> Result<Bytecode, SpendFault>
    ensures { Gives given_bytes result (Transactions.bytecode_in text.now) }
{
    if text.as_bytes() == b"self".as_slice() {
        return Ok(Bytecode::Own);
    }
    let decoded = hex_bytes(alloc, text)?;
    let bytes = decoded.ok_or(SpendFault::BadHex {
        field: SpendField::LockingBytecode,
    })?;
    Ok(Bytecode::Given(bytes))
}

#[tactic(auto, unfolding(crate::specs::Transactions::locking_of))]
fn locking_of(alloc: Global, value: &Value) -> Result<Bytecode, SpendFault>
    ensures { Gives given_bytes result (locking_of (view value.now)) }
{
    let text = text_of(value, SpendField::LockingBytecode)?;
    let bytecode = bytecode_in(alloc, text)?;
    Ok(bytecode)
}

#[tactic(auto, unfolding(crate::specs::Transactions::locking_at))]
fn locking_at(alloc: Global, value: &Value) -> Result<Bytecode, SpendFault>
    ensures { Gives given_bytes result (locking_at (view value.now)) }
{
    match value.get(SpendField::LockingBytecode.key()) {
        None => Ok(Bytecode::Given(Vec::new(alloc))),
        Some(value) => {
            let bytecode = locking_of(alloc, value)?;
            Ok(bytecode)
        }
    }
}

#[tactic(auto, unfolding(crate::specs::Transactions::input_of))]
fn input_of(alloc: Global, value: &Value) -> Result<Input, SpendFault>
    ensures { Gives (λ i. i) result (input_of (view value.now)) }
{
    let hash = hash_at(alloc, value)?;
    let index = u32_at(value, SpendField::OutpointIndex, 0)?;
    let sequence = u32_at(value, SpendField::SequenceNumber, 0)?;
    let satoshis = amount_at(value)?;
    let locking = locking_at(alloc, value)?;
    let unlocking = bytes_at(alloc, value, SpendField::UnlockingBytecode)?;
    Ok(Input {
        hash,
        index,
        sequence,
        value: satoshis,
        locking,
        unlocking,
    })
}

fn each_input(alloc: Global, items: &[Value]) -> Result<Vec<Input>, SpendFault>
    ensures { Gives (λ v. v.items) result (each input_of (items_view items.now)) }
{
    let mut inputs = Vec::new(alloc);
    for item in items {
        let input = input_of(alloc, item)?;
        inputs.push(input)?;
    }
    Ok(inputs)
}

// One input without bytes or a value.
fn plain_inputs(alloc: Global) -> Result<Vec<Input>, SpendFault>
    ensures { Gives (λ v. v.items) result (Ok plain_inputs) }
{
    let input = plain_input(0, Bytecode::Given(Vec::new(alloc)), Vec::new(alloc));
    let mut inputs = Vec::new(alloc);
    inputs.push(input)?;
    Ok(inputs)
}

#[tactic(auto, unfolding(crate::specs::Transactions::inputs_at))]
fn inputs_at(alloc: Global, value: &Value) -> Result<Vec<Input>, SpendFault>
    ensures { Gives (λ v. v.items) result (inputs_at (view value.now)) }
{
    let field = SpendField::Inputs;
    match value.get(field.key()) {
        None => {
            let inputs = plain_inputs(alloc)?;
            Ok(inputs)
        }
        Some(value) => {
            let items = objects_of(value).ok_or(SpendFault::WrongKind { field })?;
            let inputs = each_input(alloc, items)?;
            Ok(inputs)
        }
    }
}

#[tactic(auto, unfolding(crate::specs::Transactions::output_of))]
fn output_of(alloc: Global, value: &Value) -> Result<Output, SpendFault>
    ensures { Gives (λ o. o) result (output_of (view value.now)) }
{
    let satoshis = amount_at(value)?;
    let locking = locking_at(alloc, value)?;
    Ok(Output {
        value: satoshis,
        locking,
    })
}

fn each_output(alloc: Global, items: &[Value]) -> Result<Vec<Output>, SpendFault>
    ensures { Gives (λ v. v.items) result (each output_of (items_view items.now)) }
{
    let mut outputs = Vec::new(alloc);
    for item in items {
        let output = output_of(alloc, item)?;
        outputs.push(output)?;
    }
    Ok(outputs)
}

#[tactic(auto, unfolding(crate::specs::Transactions::outputs_at))]
fn outputs_at(alloc: Global, value: &Value) -> Result<Vec<Output>, SpendFault>
    ensures { Gives (λ v. v.items) result (outputs_at (view value.now)) }
{
    let field = SpendField::Outputs;
    match value.get(field.key()) {
        None => Ok(Vec::new(alloc)),
        Some(value) => {
            let items = objects_of(value).ok_or(SpendFault::WrongKind { field })?;
            let outputs = each_output(alloc, items)?;
            Ok(outputs)
        }
    }
}

#[tactic(auto, unfolding(crate::specs::Transactions::transaction_of))]
fn transaction_of(alloc: Global, value: &Value) -> Result<TransactionParts, SpendFault>
    ensures { Gives parts_of result (transaction_of (view value.now)) }
{
    if !value.is_object() {
        return Err(SpendFault::WrongKind {
            field: SpendField::Transaction,
        });
    }
    let version = u32_at(value, SpendField::Version, 2)?;
    let locktime = u32_at(value, SpendField::Locktime, 0)?;
    let inputs = inputs_at(alloc, value)?;
    let outputs = outputs_at(alloc, value)?;
    let active = u32_at(value, SpendField::ActiveInputIndex, 0)?;
    Ok(TransactionParts {
        version,
        locktime,
        inputs,
        outputs,
        active,
    })
}

/// The field `transaction`, or the usual one where it is missing: version 2, one input without bytes or a value, no output.
#[tactic(auto, unfolding(crate::specs::Transactions::transaction_at))]
pub fn transaction_at(alloc: Global, value: &Value) -> Result<TransactionParts, SpendFault>
    ensures { Gives parts_of result (transaction_at (view value.now)) }
{
    match value.get(SpendField::Transaction.key()) {
        None => {
            let inputs = plain_inputs(alloc)?;
            Ok(TransactionParts {
                version: 2,
                locktime: 0,
                inputs,
                outputs: Vec::new(alloc),
                active: 0,
            })
        }
        Some(value) => {
            let parts = transaction_of(alloc, value)?;
            Ok(parts)
        }
    }
}
