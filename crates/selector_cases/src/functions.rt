//! Functions that push their numbers.

ghost use Rattle.std.specs.Prelude.{◌≤◌, ◌≡◌, length, IfOk};
ghost use Rattle.selector_cases.specs.Selectable.{IsSelectable};

use crate::machine::CONTRACT;
use anyhow::{Result, bail};
use cash_base::{Span, write_number};
use script_codec::{Instr, Mark, Marked, Opcode, Spanned};
use selector::select;
use std::alloc::Global;

/// The height that the mark of a function names.
pub fn height_of(n: usize) -> u32 {
    if n < 1000 { n as u32 } else { 0 }
}

/// The place of a function.
pub fn place_of(n: usize) -> Span {
    let from = height_of(n).wrapping_add(1);
    Span { from, to: from }
}

fn row(instr: Instr, place: Span) -> Spanned
    ensures { result.instr ≡ instr }
{
    Spanned {
        instr,
        doing: place,
        checking: place,
    }
}

/// A function that does nothing, and then pushes its number. Its mark is at the push.
#[tactic(auto, unfolding(opcode_table::specs::Table::rows))]
fn function(alloc: Global, n: usize) -> Result<Marked>
    ensures { IfOk result (λ function. IsSelectable function) }
{
    let place = place_of(n);
    let mut code = Vec::new(alloc);
    code.push(row(Instr::Do(Opcode::NOP), place))?;
    let number = write_number(i64::from(height_of(n)));
    code.push(row(Instr::Push(number), place))?;
    let mut marks = Vec::new(alloc);
    marks.push(Mark {
        at: 1,
        height: height_of(n),
        statement: place,
    })?;
    Ok(Marked { code, marks })
}

/// The code that chooses among so many of these functions.
pub fn code_of(alloc: Global, functions: usize, ctors: usize) -> Result<Marked> {
    if functions < 1 || functions > 64 {
        bail!("1 to 64 functions are put together");
    }
    let Ok(ctors) = u16::try_from(ctors) else {
        bail!("there are too many elements of the constructor");
    };
    let mut all = Vec::new(alloc);
    for n in 0..functions {
        all.push(function(alloc, n)?)?;
    }
    let Ok(code) = select(alloc, all.as_slice(), ctors, CONTRACT) else {
        bail!("memory ran out");
    };
    Ok(code)
}

pub fn number(text: &str) -> Result<usize> {
    let Ok(n) = text.parse::<usize>() else {
        bail!("{text} is no number");
    };
    if n > 1000 {
        bail!("{text} is too much");
    }
    Ok(n)
}
