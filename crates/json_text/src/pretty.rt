//! The text of a value.

ghost use Rattle.std.specs.Prelude.{◌≡◌, false, string_bytes, IfOk};
ghost use Rattle.serde_json.specs.View.{view};
ghost use Rattle.serde_json.specs.Written.{has_float};
ghost use Rattle.json_text.specs.Text;

use cash_base::Memory;
use serde_json::Value;
use std::alloc::Global;

/// The text of a value that has no float: a line for each item and each member, indented by two spaces for each list or
/// object around it, and a line feed at the end. `Memory` comes where memory ran out.
///
/// Source: RFC 8259, in the pretty layout of `serde_json`.
pub fn pretty_text(alloc: Global, value: &Value) -> Result<String, Memory>
    requires { has_float (view value.now) ≡ false }
    ensures { IfOk result (λ text. string_bytes text ≡ Text.pretty_text (view value.now)) }
{
    let mut text = value.to_string_pretty(alloc)?;
    text.push('\n')?;
    Ok(text)
}
