//! The code of an artifact, and its spans.

ghost use Rattle.std.specs.Prelude.{◌≡◌, ◌<◌, ◌^◌, Ok, map, option_map, IsTrue, IfOk};
ghost use Rattle.script_codec.specs.Names.{are_named};
ghost use Rattle.json_fields.specs.Fields.{each};
ghost use Rattle.serde_json.specs.View.{view, items_view};
ghost use Rattle.asm_text.specs.Assembly.{assembly_code};
ghost use Rattle.artifact_json.specs.Fields.{Gives};
ghost use Rattle.artifact_json.specs.Reading;
ghost use Rattle.artifact_json.specs.Reading.{if_code, if_short, code_at, number_at, is_inside, span_at, row_of, rows_of, spans_at, count_check};

use crate::fault::{ArtifactFault, Field};
use crate::fields::text_at;
use asm_text::{AsmFault, read_asm};
use cash_base::{MAX_ELEMENT_LEN, Span};
use json_fields::{natural_within, whole_of};
use script_codec::{Instr, encode};
use serde_json::Value;
use span_map::SpanRow;
use std::alloc::Global;

const NO_SPANS: ArtifactFault = ArtifactFault::WrongKind {
    field: Field::Spans,
};

/// A number of 32 bits, the greatest for a greater one.
fn capped(n: usize) -> u32
    ensures { result ≡ Reading.capped n }
{
    if n <= 4_294_967_295 {
        n as u32
    } else {
        u32::MAX
    }
}

/// The code of an assembly text.
fn read_code(alloc: Global, text: &str) -> Result<Vec<Instr>, ArtifactFault>
    ensures named { IfOk result (λ code. IsTrue (are_named code.items)) }
    ensures value { Gives (λ v. v.items) result (if_code (assembly_code text.now)) }
{
    match read_asm(alloc, text) {
        Ok(code) => Ok(code),
        Err(AsmFault::UnknownWord { word }) => Err(ArtifactFault::BadAsm { word }),
        Err(AsmFault::BadHex { word }) => Err(ArtifactFault::BadAsm { word }),
        Err(AsmFault::TooLong { word }) => Err(ArtifactFault::BadAsm { word }),
        Err(AsmFault::Memory) => Err(ArtifactFault::Memory),
    }
}

/// The code, where it has at most 520 bytes.
#[tactic(auto, using(crate::proofs::Named::are_spelled))]
fn if_short(alloc: Global, code: Vec<Instr>) -> Result<Vec<Instr>, ArtifactFault>
    requires { IsTrue (are_named code.items) }
    ensures named { IfOk result (λ code. IsTrue (are_named code.items)) }
    ensures value { Gives (λ v. v.items) result (if_short code.items) }
{
    let bytes = encode(alloc, code.as_slice())?;
    if bytes.len() > MAX_ELEMENT_LEN {
        let bytes = capped(bytes.len());
        return Err(ArtifactFault::TooLong { bytes });
    }
    Ok(code)
}

/// The code.
#[tactic(auto, unfolding(crate::specs::Reading::code_at))]
pub fn code_at(alloc: Global, value: &Value) -> Result<Vec<Instr>, ArtifactFault>
    ensures value { Gives (λ v. v.items) result (code_at (view value.now)) }
    ensures named { IfOk result (λ code. IsTrue (are_named code.items)) }
{
    let text = text_at(value, Field::Bytecode)?;
    let code = read_code(alloc, text)?;
    let code = if_short(alloc, code)?;
    Ok(code)
}

/// A number of 32 bits at a place of a list.
#[tactic(auto, unfolding(crate::specs::Reading::number_at))]
fn number_at(value: &Value, place: usize) -> Result<u32, ArtifactFault>
    ensures { Gives (λ n. n) result (number_at place (view value.now)) }
{
    let value = value.get(place).ok_or(NO_SPANS)?;
    let whole = whole_of(value).ok_or(NO_SPANS)?;
    let number = natural_within(u32::MAX as u64, whole).ok_or(NO_SPANS)?;
    Ok(number as u32)
}

fn is_inside(span: Span, size: usize) -> bool
    ensures { result ≡ is_inside size span }
{
    span.from <= span.to && span.to as usize <= size
}

/// The span of two numbers of a list.
#[tactic(auto, unfolding(crate::specs::Reading::span_at))]
fn span_at(value: &Value, size: usize, place: usize, next: usize) -> Result<Span, ArtifactFault>
    ensures { Gives (λ s. s) result (span_at size place next (view value.now)) }
{
    let from = number_at(value, place)?;
    let to = number_at(value, next)?;
    let span = Span { from, to };
    if !is_inside(span, size) {
        return Err(NO_SPANS);
    }
    Ok(span)
}

/// The spans of an instruction.
#[tactic(auto, unfolding(crate::specs::Reading::row_of), using(json_fields::proofs::Items::count_items))]
fn row_of(value: &Value, size: usize) -> Result<SpanRow, ArtifactFault>
    ensures { Gives (λ r. r) result (row_of size (view value.now)) }
{
    let items = value.as_array().ok_or(NO_SPANS)?;
    if items.len() != 4 {
        return Err(NO_SPANS);
    }
    let doing = span_at(value, size, 0, 1)?;
    let checking = span_at(value, size, 2, 3)?;
    Ok(SpanRow { doing, checking })
}

fn each_row(alloc: Global, items: &[Value], size: usize) -> Result<Vec<SpanRow>, ArtifactFault>
    ensures { Gives (λ v. v.items) result (each (row_of size) (items_view items.now)) }
{
    let mut rows = Vec::new(alloc);
    for item in items {
        let row = row_of(item, size)?;
        rows.push(row)?;
    }
    Ok(rows)
}

#[tactic(auto, unfolding(crate::specs::Reading::rows_of))]
fn rows_of(alloc: Global, value: &Value, size: usize) -> Result<Vec<SpanRow>, ArtifactFault>
    ensures { Gives (λ v. v.items) result (rows_of size (view value.now)) }
{
    let items = value.as_array().ok_or(NO_SPANS)?;
    let rows = each_row(alloc, items, size)?;
    Ok(rows)
}

/// The spans in a source of so many bytes, or `None` where the field is missing.
#[tactic(auto, unfolding(crate::specs::Reading::spans_at))]
pub fn spans_at(
    alloc: Global,
    value: &Value,
    size: usize,
) -> Result<Option<Vec<SpanRow>>, ArtifactFault>
    ensures { Gives (λ o. option_map (λ v. v.items) o) result (spans_at size (view value.now)) }
{
    match value.get(Field::Spans.key()) {
        None => Ok(None),
        Some(value) => {
            let rows = rows_of(alloc, value, size)?;
            Ok(Some(rows))
        }
    }
}

/// A row for each instruction, where there are rows.
pub fn count_check(code: &[Instr], spans: &Option<Vec<SpanRow>>) -> Result<(), ArtifactFault>
    ensures { result ≡ count_check code.now (option_map (λ v. v.items) spans.now) }
{
    let Some(rows) = spans else {
        return Ok(());
    };
    if rows.len() == code.len() {
        return Ok(());
    }
    let rows = capped(rows.len());
    let opcodes = capped(code.len());
    Err(ArtifactFault::SpanCount { rows, opcodes })
}
