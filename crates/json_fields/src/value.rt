//! Whole numbers, and bytes in hexadecimal.

ghost use Rattle.std.specs.Prelude.{◌≡◌, ◌≤◌, IfSome, option_map};
ghost use Rattle.serde_json.specs.View.{view};
ghost use Rattle.json_fields.specs.Fields.{Answers};
ghost use Rattle.json_fields.specs.Fields as fields;

use cash_base::Memory;
use serde_json::Value;
use std::alloc::Global;

/// A whole number of a file.
#[derive(Clone, Copy, Debug, PartialEq, Eq)]
pub enum Whole {
    /// From 0 to 18,446,744,073,709,551,615.
    Natural(u64),
    /// From -9,223,372,036,854,775,808 to -1.
    Negative(i64),
}

/// The whole number that a value is, or `None` where it is no number, or none that is written whole. It takes no memory.
///
/// A number is whole exactly where it is written without point and exponent, lies between -9,223,372,036,854,775,808 and
/// 18,446,744,073,709,551,615, and isn't `-0`. So `1.0` and `1e2` are none. Source: the numbers of `serde_json`.
#[tactic(auto, unfolding(crate::specs::Fields::whole_of))]
pub fn whole_of(value: &Value) -> Option<Whole>
    ensures { result ≡ fields.whole_of (view value.now) }
{
    if let Some(n) = value.as_u64() {
        return Some(Whole::Natural(n));
    }
    if let Some(z) = value.as_i64() {
        return Some(Whole::Negative(z));
    }
    None
}

/// The number, where it is from 0 to the greatest one that is allowed. It takes no memory.
pub fn natural_within(greatest: u64, whole: Whole) -> Option<u64>
    ensures value { result ≡ fields.natural_within greatest whole }
    ensures within { IfSome result (λ n. n ≤ greatest) }
{
    match whole {
        Whole::Natural(n) => { if n <= greatest { Some(n) } else { None } }
        Whole::Negative(_) => None,
    }
}

/// The bytes that a text spells, with two hexadecimal digits for each, in upper or lower case; `None` where it spells none.
#[tactic(auto, unfolding(crate::specs::Fields::hex_bytes))]
pub fn hex_bytes(alloc: Global, text: &str) -> Result<Option<Vec<u8>>, Memory>
    ensures { Answers (option_map (λ v. v.items)) result (fields.hex_bytes text.now) }
{
    match hex::decode(alloc, text) {
        Ok(bytes) => Ok(Some(bytes)),
        Err(hex::FromHexError::OutOfMemory) => Err(Memory),
        Err(_) => Ok(None),
    }
}
