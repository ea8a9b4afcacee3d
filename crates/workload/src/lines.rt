//! The four lines of a workload.

ghost use Rattle.std.specs.Prelude.{◌≡◌, ◌≢◌, ◌++◌, [], IfOk, OnOk, codes};
ghost use Rattle.workload.specs.Lines.{work_lines, count_line};

use crate::work::Summary;
use std::alloc::{AllocError, Global};

/// Adds a line with a name and a number.
fn add_count(alloc: Global, text: &mut Vec<u8>, name: &str, n: usize) -> Result<(), AllocError>
    ensures { OnOk result (text.new.items ≡ text.old.items ++ count_line name.now n) }
{
    text.extend_from_slice(name.as_bytes())?;
    text.extend_from_slice(b" ")?;
    text.extend_from_slice(format!(in alloc; "{n}")?.as_bytes())?;
    text.extend_from_slice(b"\n")?;
    Ok(())
}

/// The lines `contracts N`, `spends N`, `accepted N` and `digest HEX`. The only error is want of memory.
pub fn work_text(alloc: Global, summary: &Summary) -> Result<Vec<u8>, AllocError>
    ensures lines { IfOk result (λ text. text.items ≡ work_lines summary.now) }
    ensures some { IfOk result (λ text. text.items ≢ []) }
{
    let mut text = Vec::new(alloc);
    add_count(alloc, &mut text, "contracts", summary.contracts as usize)?;
    add_count(alloc, &mut text, "spends", summary.spends)?;
    add_count(alloc, &mut text, "accepted", summary.accepted)?;
    text.extend_from_slice(b"digest ")?;
    text.extend_from_slice(hex::encode(alloc, &summary.digest)?.as_bytes())?;
    text.extend_from_slice(b"\n")?;
    Ok(text)
}
