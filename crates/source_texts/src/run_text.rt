//! How the run of a source ends, behind the scripts of its spend.

ghost use Rattle.std.specs.Prelude.{◌≡◌, ◌≢◌, ◌≤◌, ◌++◌, codes, length, string_bytes, [], IfOk};
ghost use Rattle.source_texts.specs.RunText.{run_line, meaning_lines};

use crate::places::place_text;
use cash_base::Memory;
use source_meaning::SourceOutcome;
use spend_debug::report::{add_scripts, cause_name};
use spend_meaning::Meant;
use std::alloc::{AllocError, Global};

/// The text of a meaning: the lines `redeem HEX`, `unlocking HEX` and `locking HEX`, and then `met`, or `failed LINE:COL CAUSE`. A place
/// is told as LINE:COL of this source, which has at most 2,147,483,647 bytes. `Memory` comes where memory ran out.
pub fn meaning_text(alloc: Global, source: &[u8], meant: &Meant) -> Result<Vec<u8>, Memory>
    requires { length source.now ≤ 2147483647 }
    ensures text { IfOk result (λ text. text.items ≡ meaning_lines source.now meant.now) }
    ensures some { IfOk result (λ text. text.items ≢ []) }
{
    let mut text = Vec::new(alloc);
    add_scripts(
        alloc,
        &mut text,
        meant.redeem.as_slice(),
        meant.unlocking.as_slice(),
        &meant.locking,
    )?;
    let line = run_text(alloc, source, meant.outcome)?;
    text.extend_from_slice(line.as_bytes())?;
    Ok(text)
}

fn run_text(alloc: Global, source: &[u8], outcome: SourceOutcome) -> Result<String, AllocError>
    requires { length source.now ≤ 2147483647 }
    ensures { IfOk result (λ text. string_bytes text ≡ run_line source.now outcome) }
{
    match outcome {
        SourceOutcome::Met => Ok(String::from_str(alloc, "met\n")?),
        SourceOutcome::Failed { span, cause } => {
            let place = place_text(alloc, source, span.from)?;
            let line = failed_line(alloc, place.as_str(), cause_name(cause))?;
            Ok(line)
        }
    }
}

fn failed_line(alloc: Global, place: &str, cause: &str) -> Result<String, AllocError>
    ensures { IfOk result (λ text. string_bytes text ≡ codes "failed " ++ place.now ++ codes " " ++ cause.now ++ codes "\n") }
{
    Ok(format!(in alloc; "failed {place} {cause}\n")?)
}
