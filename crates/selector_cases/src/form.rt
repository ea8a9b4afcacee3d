//! The form of the code.

use crate::functions::{code_of, height_of, place_of};
use crate::machine::CONTRACT;
use anyhow::Result;
use script_codec::{Instr, Mark, Spanned};
use std::alloc::Global;

/// The instructions of each function.
const ROWS: usize = 2;

/// The functions whose instructions stand in the code, in order, each in one piece.
fn functions_in(alloc: Global, rows: &[Spanned]) -> Result<Vec<u32>> {
    let mut found = Vec::new(alloc);
    let mut left = 0usize;
    for row in rows {
        if row.doing == CONTRACT {
            continue;
        }
        if left > 0 && found.last() == Some(&row.doing.from) {
            left = left.wrapping_sub(1);
        } else {
            found.push(row.doing.from)?;
            left = ROWS - 1;
        }
    }
    Ok(found)
}

/// Whether the mark stands at the push of the function with this number, with the function's height.
fn is_kept(rows: &[Spanned], mark: &Mark, n: usize) -> bool {
    let Some(row) = rows.get(mark.at as usize) else {
        return false;
    };
    let is_push = matches!(&row.instr, Instr::Push(_));
    is_push
        && row.doing == place_of(n)
        && mark.statement == place_of(n)
        && mark.height == height_of(n)
}

fn are_kept(rows: &[Spanned], marks: &[Mark], functions: usize) -> bool {
    let mut all = marks.len() == functions;
    for (n, mark) in marks.iter().enumerate() {
        all = all && is_kept(rows, mark, n);
    }
    all
}

/// The bytes of the minimal push of an element of at most 75 bytes.
fn push_size(element: &[u8]) -> usize {
    match element {
        [] | [1..=16] | [0x81] => 1,
        _ => element.len().wrapping_add(1),
    }
}

/// What the instructions with the contract's place weigh: their bytes, and the opcodes among them that count.
fn weight_of(rows: &[Spanned]) -> (usize, usize) {
    let mut bytes = 0usize;
    let mut opcodes = 0usize;
    for row in rows {
        if row.doing != CONTRACT {
            continue;
        }
        match &row.instr {
            Instr::Push(e) => bytes = bytes.wrapping_add(push_size(e.as_slice())),
            Instr::Do(_) => {
                bytes = bytes.wrapping_add(1);
                opcodes = opcodes.wrapping_add(1);
            }
        }
    }
    (bytes, opcodes)
}

/// What is to be told of the code of so many functions.
pub fn form(alloc: Global, functions: usize, ctors: usize) -> Result<String> {
    let code = code_of(alloc, functions, ctors)?;
    let rows = code.code.as_slice();
    let found = functions_in(alloc, rows)?;
    let mut in_order = found.len() == functions;
    for (n, from) in found.iter().enumerate() {
        in_order = in_order && *from == place_of(n).from;
    }
    let order = if in_order { "in order" } else { "out of order" };
    let kept = if are_kept(rows, code.marks.as_slice(), functions) {
        "marks kept"
    } else {
        "marks elsewhere"
    };
    let (bytes, opcodes) = weight_of(rows);
    let is_light = bytes <= functions.wrapping_mul(15) && opcodes <= functions.wrapping_mul(7);
    let weight = if is_light { "light" } else { "heavy" };
    Ok(format!(in alloc; "{order}, {kept}, {weight}")?)
}
