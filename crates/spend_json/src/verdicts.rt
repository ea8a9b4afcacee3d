//! The verdicts of a spend file.

ghost use Rattle.std.specs.Prelude.{◌≡◌};
ghost use Rattle.serde_json.specs.View.{view, items_view};
ghost use Rattle.json_fields.specs.Fields.{each};
ghost use Rattle.spend_json.specs.Fields.{Gives};
ghost use Rattle.spend_json.specs.Rows.{kind_named, answer_named, kind_at, answer_at, missing_message, message_at, needed_bytes, row_of, rows_at};

use crate::fault::{SpendFault, SpendField};
use crate::fields::{bytes_of, needed, text_of};
use json_fields::objects_of;
use serde_json::Value;
use std::alloc::Global;
use tx_context::{Answer, Kind, VerdictRow};

fn kind_named(text: &str) -> Option<Kind>
    ensures { result ≡ kind_named text.now }
{
    let bytes = text.as_bytes();
    if bytes == b"single".as_slice() {
        return Some(Kind::Single);
    }
    if bytes == b"multi".as_slice() {
        return Some(Kind::Multi);
    }
    if bytes == b"data".as_slice() {
        return Some(Kind::DataSig);
    }
    None
}

fn answer_named(text: &str) -> Option<Answer>
    ensures { result ≡ answer_named text.now }
{
    let bytes = text.as_bytes();
    if bytes == b"good".as_slice() {
        return Some(Answer::Good);
    }
    if bytes == b"malformed".as_slice() {
        return Some(Answer::Malformed);
    }
    None
}

#[tactic(auto, unfolding(crate::specs::Rows::kind_at))]
fn kind_at(value: &Value) -> Result<Kind, SpendFault>
    ensures { Gives (λ kind. kind) result (kind_at (view value.now)) }
{
    let field = SpendField::Kind;
    let value = needed(value, field)?;
    let text = text_of(value, field)?;
    kind_named(text).ok_or(SpendFault::WrongKind { field })
}

#[tactic(auto, unfolding(crate::specs::Rows::answer_at))]
fn answer_at(value: &Value) -> Result<Answer, SpendFault>
    ensures { Gives (λ answer. answer) result (answer_at (view value.now)) }
{
    let field = SpendField::Answer;
    let value = needed(value, field)?;
    let text = text_of(value, field)?;
    answer_named(text).ok_or(SpendFault::WrongKind { field })
}

#[tactic(auto, unfolding(crate::specs::Rows::needed_bytes))]
fn needed_bytes(alloc: Global, value: &Value, field: SpendField) -> Result<Vec<u8>, SpendFault>
    ensures { Gives (λ v. v.items) result (needed_bytes field (view value.now)) }
{
    let value = needed(value, field)?;
    let bytes = bytes_of(alloc, value, field)?;
    Ok(bytes)
}

// What stands for a message that is missing.
fn missing_message(alloc: Global, kind: Kind) -> Result<Vec<u8>, SpendFault>
    ensures { Gives (λ v. v.items) result (missing_message kind) }
{
    match kind {
        Kind::Single | Kind::Multi => Ok(Vec::new(alloc)),
        Kind::DataSig => Err(SpendFault::Missing {
            field: SpendField::Message,
        }),
    }
}

#[tactic(auto, unfolding(crate::specs::Rows::message_at))]
fn message_at(alloc: Global, value: &Value, kind: Kind) -> Result<Vec<u8>, SpendFault>
    ensures { Gives (λ v. v.items) result (message_at kind (view value.now)) }
{
    match value.get(SpendField::Message.key()) {
        None => {
            let message = missing_message(alloc, kind)?;
            Ok(message)
        }
        Some(value) => {
            let message = bytes_of(alloc, value, SpendField::Message)?;
            Ok(message)
        }
    }
}

#[tactic(auto, unfolding(crate::specs::Rows::row_of))]
fn row_of(alloc: Global, value: &Value) -> Result<VerdictRow, SpendFault>
    ensures { Gives (λ row. row) result (row_of (view value.now)) }
{
    let kind = kind_at(value)?;
    let sig = needed_bytes(alloc, value, SpendField::Signature)?;
    let key = needed_bytes(alloc, value, SpendField::Key)?;
    let message = message_at(alloc, value, kind)?;
    let answer = answer_at(value)?;
    Ok(VerdictRow {
        kind,
        sig,
        key,
        message,
        answer,
    })
}

fn each_row(alloc: Global, items: &[Value]) -> Result<Vec<VerdictRow>, SpendFault>
    ensures { Gives (λ v. v.items) result (each row_of (items_view items.now)) }
{
    let mut rows = Vec::new(alloc);
    for item in items {
        let row = row_of(alloc, item)?;
        rows.push(row)?;
    }
    Ok(rows)
}

/// The rows of the field `verdicts`, or none where it is missing.
#[tactic(auto, unfolding(crate::specs::Rows::rows_at))]
pub fn rows_at(alloc: Global, value: &Value) -> Result<Vec<VerdictRow>, SpendFault>
    ensures { Gives (λ v. v.items) result (rows_at (view value.now)) }
{
    let field = SpendField::Verdicts;
    match value.get(field.key()) {
        None => Ok(Vec::new(alloc)),
        Some(value) => {
            let items = objects_of(value).ok_or(SpendFault::WrongKind { field })?;
            let rows = each_row(alloc, items)?;
            Ok(rows)
        }
    }
}
