//! Script numbers, truth values, and texts of a source.

use crate::words::{bytes, element, outcome, word};
use anyhow::{Result, ensure};
use cash_base::number::has_sign;
use cash_base::{Span, operand, read_number, text_at, truth, write_number};
use std::alloc::Global;

/// What a call of these gives, or `None` where it is none of them.
pub fn answer(alloc: Global, call: &str, a: &str, b: &str, c: &str) -> Result<Option<String>> {
    Ok(Some(match call {
        "read_number" => {
            let a = element(alloc, a)?;
            let number = read_number(a.as_slice());
            format!(in alloc; "{number:?}")?
        }
        "operand" => {
            let a = element(alloc, a)?;
            match operand(a.as_slice()) {
                Ok(number) => format!(in alloc; "{number}")?,
                Err(cause) => outcome(alloc, Err(cause))?,
            }
        }
        "write_number" => {
            let number = a.parse::<i64>()?;
            ensure!(number > i64::MIN, "no element stands for it");
            word(alloc, write_number(number).as_slice())?
        }
        "truth" => {
            let a = element(alloc, a)?;
            let is = truth(a.as_slice());
            format!(in alloc; "{is}")?
        }
        "has_sign" => {
            let a = element(alloc, a)?;
            let is = has_sign(a.as_slice());
            format!(in alloc; "{is}")?
        }
        "text_at" => {
            let source = bytes(alloc, a)?;
            let span = Span {
                from: b.parse::<u32>()?,
                to: c.parse::<u32>()?,
            };
            word(alloc, text_at(source.as_slice(), span))?
        }
        _ => return Ok(None),
    }))
}
