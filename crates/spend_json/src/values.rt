//! Values of parameters, and elements. All faults of a list name one field, so each kind of fault is sought over all items.

ghost use Rattle.std.specs.Prelude.{◌≡◌, Ok, Some, map, option_map};
ghost use Rattle.serde_json.specs.View.{view, items_view};
ghost use Rattle.json_fields.specs.Fields.{all_of, each};
ghost use Rattle.spend_json.specs.Fields.{Gives};
ghost use Rattle.spend_json.specs.Given.{value_parts};
ghost use Rattle.spend_json.specs.Values;
ghost use Rattle.spend_json.specs.Values.{is_value, is_hex, has_hex, element_of, value_of, values_of, values_at};

use crate::fault::{SpendFault, SpendField};
use cash_base::element::copy_of;
use cash_base::{Element, MAX_ELEMENT_LEN, TypedValue};
use json_fields::hex_bytes;
use serde_json::Value;
use std::alloc::Global;

/// A list has at most so many values.
const MOST_VALUES: usize = 16;

// The hexadecimal text of a raw value.
fn raw_text(value: &Value) -> Option<&str>
    ensures { option_map (λ s. s.now) result ≡ Values.raw_text (view value.now) }
{
    value.get("raw").and_then(Value::as_str)
}

// Of one of the four kinds.
fn is_value(value: &Value) -> bool
    ensures { result ≡ is_value (view value.now) }
{
    if value.is_object() {
        return raw_text(value).is_some();
    }
    value.is_string() || value.is_boolean() || value.is_u64() || value.is_i64()
}

fn are_values(items: &[Value]) -> bool
    ensures { result ≡ all_of is_value (items_view items.now) }
{
    for item in items {
        if !is_value(item) {
            return false;
        }
    }
    true
}

/// Whether a text is hexadecimal.
pub fn is_hex(alloc: Global, text: &str) -> Result<bool, SpendFault>
    ensures { Gives (λ b. b) result (Ok (is_hex text.now)) }
{
    let bytes = hex_bytes(alloc, text)?;
    Ok(bytes.is_some())
}

// Hexadecimal, where it is a raw value.
#[tactic(auto, unfolding(crate::specs::Values::has_hex))]
fn has_hex(alloc: Global, value: &Value) -> Result<bool, SpendFault>
    ensures { Gives (λ b. b) result (Ok (has_hex (view value.now))) }
{
    match raw_text(value) {
        None => Ok(true),
        Some(text) => {
            let is = is_hex(alloc, text)?;
            Ok(is)
        }
    }
}

fn all_have_hex(alloc: Global, items: &[Value]) -> Result<bool, SpendFault>
    ensures { Gives (λ b. b) result (Ok (all_of has_hex (items_view items.now))) }
{
    for item in items {
        if !has_hex(alloc, item)? {
            return Ok(false);
        }
    }
    Ok(true)
}

/// The element that a text spells in hexadecimal.
#[tactic(auto, unfolding(crate::specs::Values::element_of))]
pub fn element_of(alloc: Global, text: &str, field: SpendField) -> Result<Element, SpendFault>
    ensures { Gives (λ e. e.items) result (element_of field text.now) }
{
    let decoded = hex_bytes(alloc, text)?;
    let bytes = decoded.ok_or(SpendFault::BadHex { field })?;
    if bytes.len() > MAX_ELEMENT_LEN {
        return Err(SpendFault::Range { field });
    }
    Ok(copy_of(&bytes))
}

fn raw_of(alloc: Global, text: &str, field: SpendField) -> Result<TypedValue, SpendFault>
    ensures { Gives value_parts result (Values.raw_of field (Some text.now)) }
{
    let element = element_of(alloc, text, field)?;
    Ok(TypedValue::Raw(element))
}

#[tactic(auto, unfolding(crate::specs::Values::value_of))]
fn value_of(alloc: Global, value: &Value, field: SpendField) -> Result<TypedValue, SpendFault>
    ensures { Gives value_parts result (value_of field (view value.now)) }
{
    match value {
        Value::Bool(truth) => Ok(TypedValue::Bool(*truth)),
        Value::Number(number) => match number.as_i64() {
            Some(whole) => Ok(TypedValue::Int(whole)),
            None => Err(SpendFault::Range { field }),
        },
        Value::String(text) => Ok(TypedValue::Text(String::from_str(alloc, text.as_str())?)),
        Value::Object(_) => match raw_text(value) {
            Some(text) => {
                let raw = raw_of(alloc, text, field)?;
                Ok(raw)
            }
            None => Err(SpendFault::WrongKind { field }),
        },
        Value::Null | Value::Array(_) => Err(SpendFault::WrongKind { field }),
    }
}

fn each_value(
    alloc: Global,
    items: &[Value],
    field: SpendField,
) -> Result<Vec<TypedValue>, SpendFault>
    ensures { Gives (λ v. map value_parts v.items) result (each (value_of field) (items_view items.now)) }
{
    let mut values = Vec::new(alloc);
    for item in items {
        let value = value_of(alloc, item, field)?;
        values.push(value)?;
    }
    Ok(values)
}

#[tactic(auto, unfolding(crate::specs::Values::values_of), using(json_fields::proofs::Items::count_items))]
fn values_of(alloc: Global, value: &Value, field: SpendField) -> Result<Vec<TypedValue>, SpendFault>
    ensures { Gives (λ v. map value_parts v.items) result (values_of field (view value.now)) }
{
    let items = value.as_array().ok_or(SpendFault::WrongKind { field })?;
    if !are_values(items) {
        return Err(SpendFault::WrongKind { field });
    }
    if items.len() > MOST_VALUES {
        return Err(SpendFault::TooMany { field });
    }
    if !all_have_hex(alloc, items)? {
        return Err(SpendFault::BadHex { field });
    }
    let values = each_value(alloc, items, field)?;
    Ok(values)
}

/// A field with a list of values, or none where it is missing.
#[tactic(auto, unfolding(crate::specs::Values::values_at))]
pub fn values_at(
    alloc: Global,
    value: &Value,
    field: SpendField,
) -> Result<Vec<TypedValue>, SpendFault>
    ensures { Gives (λ v. map value_parts v.items) result (values_at field (view value.now)) }
{
    match value.get(field.key()) {
        None => Ok(Vec::new(alloc)),
        Some(value) => {
            let values = values_of(alloc, value, field)?;
            Ok(values)
        }
    }
}
