//! The object that a file holds.

ghost use Rattle.std.specs.Prelude.{◌≡◌, option_map};
ghost use Rattle.serde_json.specs.View.{view};
ghost use Rattle.json_fields.specs.Fields.{Answers};
ghost use Rattle.json_fields.specs.Document;

use cash_base::Memory;
use serde_json::Value;
use std::alloc::Global;

/// The JSON object that the bytes of a file spell, or `None` where they spell none.
///
/// They spell one exactly where they are UTF-8, `serde_json` reads a value from them, and that is an object: arrays and objects
/// nest to at most 127 levels, and of members with one key the last counts. Source: RFC 8259, and the documentation of
/// `serde_json`.
pub fn object_in(alloc: Global, bytes: &[u8]) -> Result<Option<Value>, Memory>
    ensures { Answers (option_map view) result (Document.object_in bytes.now) }
{
    let value = match Value::from_slice(alloc, bytes) {
        Ok(value) => value,
        Err(e) => {
            if e.is_memory() {
                return Err(Memory);
            }
            return Ok(None);
        }
    };
    if !value.is_object() {
        return Ok(None);
    }
    Ok(Some(value))
}
