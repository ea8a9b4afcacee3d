//! The places of instructions in a source, and where a place stands for a reader. None of it takes memory.
#![tactic(auto)]

ghost use Rattle.std.specs.Prelude.{◌≡◌, ◌≤◌, ◌+◌, cond, length};
ghost use Rattle.span_map.specs.Places.{place_of};
ghost use Rattle.span_map.specs.Lines;
ghost use Rattle.span_map.specs.Lines.{is_feed, line_after, column_after};

use cash_base::{Cause, MachineCause, Span};

/// The places of an instruction: that of the operation that it does a part of, and that of the statement in which the
/// operation stands.
#[derive(Clone, Copy, Debug, PartialEq, Eq)]
pub struct SpanRow {
    pub doing: Span,
    pub checking: Span,
}

/// The place in the source of a failure at a row, counted from 0, or `None` exactly where there is no such row.
///
/// A false check, in the code or at its end, is told at its statement, and every other cause at the operation.
pub fn place(rows: &[SpanRow], at: u32, cause: MachineCause) -> Option<Span>
    ensures { result ≡ place_of rows.now at cause }
{
    let row = rows.get(at as usize)?;
    match cause {
        MachineCause::Shared(Cause::CheckFailed) | MachineCause::EndFalse => Some(row.checking),
        _ => Some(row.doing),
    }
}

/// The line and the column of a place in a source, both counted from 1: one more than the line feeds before it, and one
/// more than the bytes since the last of them. A place past the end is the end.
pub fn line_col(source: &str, at: u32) -> (u32, u32)
    requires { length source.now ≤ 2147483647 }
    ensures { result ≡ Lines.line_col source.now at }
{
    line_col_of(source.as_bytes(), at)
}

/// The same of a source as bytes.
pub fn line_col_of(source: &[u8], at: u32) -> (u32, u32)
    requires { length source.now ≤ 2147483647 }
    ensures { result ≡ Lines.line_col source.now at }
{
    let before = source.get(..at as usize).unwrap_or(source);
    (line_after(before), column_after(before))
}

fn line_after(text: &[u8]) -> u32
    requires { length text.now ≤ 2147483647 }
    ensures { result ≡ line_after text.now }
{
    text.iter().filter(|byte| **byte == b'\n').count() as u32 + 1
}

/// The column after one more byte.
fn next_column(byte: u8, column: u32) -> u32
    requires { column ≤ 2147483648 }
    ensures value { result ≡ cond (is_feed byte) 1 (column + 1) }
    ensures more { result ≤ column + 1 }
{
    if byte == b'\n' { 1 } else { column + 1 }
}

#[tactic(auto, using(crate::proofs::Columns::column_step, crate::proofs::Columns::column_start))]
fn column_after(text: &[u8]) -> u32
    requires { length text.now ≤ 2147483647 }
    ensures { result ≡ column_after text.now }
{
    let mut column = 1;
    for byte in text {
        column = next_column(*byte, column);
    }
    column
}

#[cfg(test)]
mod tests;
