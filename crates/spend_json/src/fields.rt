//! Fields of a spend file that hold a number, a text or bytes.

ghost use Rattle.std.specs.Prelude.{◌≡◌, ◌≤◌, IfOk};
ghost use Rattle.serde_json.specs.View.{view};
ghost use Rattle.spend_json.specs.Fields.{Gives, number_of, u32_at, amount_at, text_of, needed, bytes_of, bytes_at};

use crate::fault::{SpendFault, SpendField};
use json_fields::{hex_bytes, natural_within, whole_of};
use serde_json::Value;
use std::alloc::Global;

/// A whole number from 0 to the greatest one.
#[tactic(auto, unfolding(crate::specs::Fields::number_of))]
pub fn number_of(value: &Value, field: SpendField, greatest: u64) -> Result<u64, SpendFault>
    ensures value { Gives (λ n. n) result (number_of greatest field (view value.now)) }
    ensures within { IfOk result (λ n. n ≤ greatest) }
{
    let whole = whole_of(value).ok_or(SpendFault::WrongKind { field })?;
    let number = natural_within(greatest, whole).ok_or(SpendFault::Range { field })?;
    Ok(number)
}

/// A field with a whole number of 32 bits, or another number where it is missing.
#[tactic(auto, unfolding(crate::specs::Fields::u32_at))]
pub fn u32_at(value: &Value, field: SpendField, other: u32) -> Result<u32, SpendFault>
    ensures { Gives (λ n. n) result (u32_at other field (view value.now)) }
{
    match value.get(field.key()) {
        None => Ok(other),
        Some(value) => {
            let number = number_of(value, field, u32::MAX as u64)?;
            Ok(number as u32)
        }
    }
}

/// The field `value`, in satoshis.
#[tactic(auto, unfolding(crate::specs::Fields::amount_at))]
pub fn amount_at(value: &Value) -> Result<u64, SpendFault>
    ensures { Gives (λ n. n) result (amount_at (view value.now)) }
{
    match value.get(SpendField::Value.key()) {
        None => Ok(0),
        Some(value) => {
            let number = number_of(value, SpendField::Value, u64::MAX)?;
            Ok(number)
        }
    }
}

/// A text.
#[tactic(auto, unfolding(crate::specs::Fields::text_of))]
pub fn text_of(value: &Value, field: SpendField) -> Result<&str, SpendFault>
    ensures { Gives (λ s. s.now) result (text_of field (view value.now)) }
{
    value.as_str().ok_or(SpendFault::WrongKind { field })
}

/// A field that has to be there.
#[tactic(auto, unfolding(crate::specs::Fields::needed))]
pub fn needed(value: &Value, field: SpendField) -> Result<&Value, SpendFault>
    ensures { Gives (λ v. view v.now) result (needed field (view value.now)) }
{
    value.get(field.key()).ok_or(SpendFault::Missing { field })
}

/// Bytes in hexadecimal.
#[tactic(auto, unfolding(crate::specs::Fields::bytes_of))]
pub fn bytes_of(alloc: Global, value: &Value, field: SpendField) -> Result<Vec<u8>, SpendFault>
    ensures { Gives (λ v. v.items) result (bytes_of field (view value.now)) }
{
    let text = text_of(value, field)?;
    let decoded = hex_bytes(alloc, text)?;
    let bytes = decoded.ok_or(SpendFault::BadHex { field })?;
    Ok(bytes)
}

/// A field with bytes in hexadecimal, or no bytes where it is missing.
#[tactic(auto, unfolding(crate::specs::Fields::bytes_at))]
pub fn bytes_at(alloc: Global, value: &Value, field: SpendField) -> Result<Vec<u8>, SpendFault>
    ensures { Gives (λ v. v.items) result (bytes_at field (view value.now)) }
{
    match value.get(field.key()) {
        None => Ok(Vec::new(alloc)),
        Some(value) => {
            let bytes = bytes_of(alloc, value, field)?;
            Ok(bytes)
        }
    }
}
