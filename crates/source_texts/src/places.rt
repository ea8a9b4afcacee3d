//! Places in a source.

ghost use Rattle.std.specs.Prelude.{◌≡◌, ◌≤◌, length, string_bytes, IfOk};
ghost use Rattle.span_map.specs.Lines.{line_col};
ghost use Rattle.spend_debug.specs.Telling.{at_place};

use span_map::line_col_of;
use std::alloc::{AllocError, Global};

/// LINE:COL of the byte at this place in a source of at most 2,147,483,647 bytes, both counted from 1. The only error is want of
/// memory.
pub fn place_text(alloc: Global, source: &[u8], at: u32) -> Result<String, AllocError>
    requires { length source.now ≤ 2147483647 }
    ensures { IfOk result (λ text. string_bytes text ≡ at_place (line_col source.now at)) }
{
    let (line, column) = line_col_of(source, at);
    line_col_text(alloc, line, column)
}

fn line_col_text(alloc: Global, line: u32, column: u32) -> Result<String, AllocError>
    ensures { IfOk result (λ text. string_bytes text ≡ at_place (line, column)) }
{
    Ok(format!(in alloc; "{line}:{column}")?)
}
