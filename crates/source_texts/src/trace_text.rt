//! The lines of a trace.

ghost use Rattle.std.specs.Prelude.{◌≡◌, ◌≢◌, ◌≤◌, ◌++◌, [], codes, length, string_bytes, IfOk};
ghost use Rattle.std.specs.Fmt.{decimal};
ghost use Rattle.spend_trace.specs.Traced.{trace_with};
ghost use Rattle.source_texts.specs.TraceLines;
ghost use Rattle.source_texts.specs.TraceLines.{row_line, row_lines, trace_lines};

use crate::places::place_text;
use cash_base::{Memory, Span};
use script_codec::opcode_name;
use spend_debug::Report;
use spend_debug::report::{add_scripts, add_verdict, script_name, told_place};
use spend_trace::TraceRow;
use std::alloc::{AllocError, Global};

/// The text of a trace: the lines `redeem HEX`, `unlocking HEX` and `locking HEX`, a line `SCRIPT INDEX NAME PLACE HEIGHT` for each
/// row, and the verdict. A place is told as LINE:COL of this source, which has at most 2,147,483,647 bytes, and `-` where there is
/// none. `Memory` comes where memory ran out.
pub fn trace_text(
    alloc: Global,
    source: &[u8],
    rows: &[TraceRow],
    report: &Report,
) -> Result<Vec<u8>, Memory>
    requires { length source.now ≤ 2147483647 }
    ensures text { IfOk result (λ text. text.items ≡ trace_lines source.now (trace_with rows.now report.now)) }
    ensures some { IfOk result (λ text. text.items ≢ []) }
{
    let mut text = Vec::new(alloc);
    add_scripts(
        alloc,
        &mut text,
        report.redeem.as_slice(),
        report.unlocking.as_slice(),
        &report.locking,
    )?;
    text.extend_from_slice(rows_text(alloc, source, rows)?.as_slice())?;
    let place = told_place(source, report.place);
    add_verdict(alloc, &mut text, report.outcome, place)?;
    Ok(text)
}

fn rows_text(alloc: Global, source: &[u8], rows: &[TraceRow]) -> Result<Vec<u8>, AllocError>
    requires { length source.now ≤ 2147483647 }
    ensures { IfOk result (λ text. text.items ≡ row_lines source.now rows.now) }
{
    let mut text = Vec::new(alloc);
    'row: for row in rows {
        text.extend_from_slice(row_text(alloc, source, row)?.as_bytes())?;
    }
    Ok(text)
}

fn row_text(alloc: Global, source: &[u8], row: &TraceRow) -> Result<String, AllocError>
    requires { length source.now ≤ 2147483647 }
    ensures { IfOk result (λ text. string_bytes text ≡ row_line source.now row.now) }
{
    let name = opcode_told(alloc, row.opcode)?;
    let place = place_told(alloc, source, row.place)?;
    let line = line_of(
        alloc,
        script_name(row.script),
        row.at,
        name.as_str(),
        place.as_str(),
        row.height,
    )?;
    Ok(line)
}

fn line_of(
    alloc: Global,
    script: &str,
    at: u32,
    name: &str,
    place: &str,
    height: u32,
) -> Result<String, AllocError>
    ensures { IfOk result (λ text. string_bytes text
        ≡ script.now ++ codes " " ++ decimal at ++ codes " " ++ name.now ++ codes " " ++ place.now ++ codes " " ++ decimal height
        ++ codes "\n") }
{
    let mut text = front_of(alloc, script, at, name)?;
    text.push_str(end_of(alloc, place, height)?.as_str())?;
    Ok(text)
}

fn front_of(alloc: Global, script: &str, at: u32, name: &str) -> Result<String, AllocError>
    ensures { IfOk result (λ text. string_bytes text ≡ script.now ++ codes " " ++ decimal at ++ codes " " ++ name.now) }
{
    let mut text = String::from_str(alloc, script)?;
    text.push_str(" ")?;
    text.push_str(at.to_string(alloc)?.as_str())?;
    text.push_str(" ")?;
    text.push_str(name)?;
    Ok(text)
}

fn end_of(alloc: Global, place: &str, height: u32) -> Result<String, AllocError>
    ensures { IfOk result (λ text. string_bytes text ≡ codes " " ++ place.now ++ codes " " ++ decimal height ++ codes "\n") }
{
    Ok(format!(in alloc; " {place} {height}\n")?)
}

fn opcode_told(alloc: Global, opcode: u8) -> Result<String, AllocError>
    ensures { IfOk result (λ text. string_bytes text ≡ TraceLines.opcode_told opcode) }
{
    if 0 < opcode && opcode <= 0x4e {
        return Ok(String::from_str(alloc, "PUSH")?);
    }
    match opcode_name(opcode) {
        Some(name) => Ok(format!(in alloc; "OP_{name}")?),
        None => Ok(String::from_str(alloc, "-")?),
    }
}

fn place_told(alloc: Global, source: &[u8], place: Option<Span>) -> Result<String, AllocError>
    requires { length source.now ≤ 2147483647 }
    ensures { IfOk result (λ text. string_bytes text ≡ TraceLines.place_told source.now place) }
{
    match place {
        Some(span) => Ok(place_text(alloc, source, span.from)?),
        None => Ok(String::from_str(alloc, "-")?),
    }
}
