//! Puts functions together, runs the code on a selector, and prints what was run. It reads a line each from the standard input:
//!
//! - `run FUNCTIONS CTORS SELECTOR` makes the code of so many functions, of which each pushes its number, and runs it on so many
//!   elements of the constructor, the selector in hexadecimal below them (`-` is the empty element), and one more element. Its
//!   answer is `function N`, where that function was run on the elements without the selector, or the cause of the failure and
//!   whether it has the contract's place. With `none` for the selector nothing stands below the constructor's elements.
//! - `form FUNCTIONS CTORS` is answered by the order in which the functions stand in the code, whether their marks stand at their
//!   first instructions with their heights, and whether the rest has at most 15 bytes and 7 counted opcodes for each function.
//!
//! Empty lines, and those that begin with `#`, are printed as they are.
#![tactic(auto)]

mod form;
mod functions;
mod machine;

use anyhow::{Result, bail};
use form::form;
use functions::{code_of, number};
use machine::{CONTRACT, End, end_of};
use script_codec::Spanned;
use std::alloc::Global;

/// What stands below the selector, and what the constructor's elements are; no function pushes it.
const REST: [u8; 1] = [0x7f];

/// Whether the stack is what a function leaves: its number, and below it so many elements and the rest.
fn function_on(stack: &[Vec<u8>], ctors: usize) -> Option<u8> {
    let (top, below) = stack.split_last()?;
    let as_handed_in = below.len() == ctors.wrapping_add(1);
    if !as_handed_in || !below.iter().all(|e| e.as_slice() == REST.as_slice()) {
        return None;
    }
    match top.as_slice() {
        [] => Some(0),
        [n] => Some(*n),
        _ => None,
    }
}

fn end_text(alloc: Global, code: &[Spanned], end: &End, ctors: usize) -> Result<String> {
    match end {
        End::Left(stack) => match function_on(stack.as_slice(), ctors) {
            Some(n) => Ok(format!(in alloc; "function {n}")?),
            None => Ok(String::from_str(alloc, "other elements are left")?),
        },
        End::Failed { at, cause } => {
            let here = match code.get(*at) {
                Some(row) => row.doing == CONTRACT && row.checking == CONTRACT,
                None => false,
            };
            let place = if here { "at the contract" } else { "elsewhere" };
            Ok(format!(in alloc; "{cause} {place}")?)
        }
    }
}

/// What is handed in, the top last.
fn handed_in(
    alloc: Global,
    functions: usize,
    ctors: usize,
    selector: &str,
) -> Result<Vec<Vec<u8>>> {
    let mut stack = Vec::new(alloc);
    if selector != "none" {
        stack.push(Vec::from_slice(alloc, &REST)?)?;
        if functions > 1 {
            let text = if selector == "-" { "" } else { selector };
            stack.push(hex::decode(alloc, text)?)?;
        }
    }
    for _ in 0..ctors {
        stack.push(Vec::from_slice(alloc, &REST)?)?;
    }
    Ok(stack)
}

fn run_of(alloc: Global, functions: usize, ctors: usize, selector: &str) -> Result<String> {
    let code = code_of(alloc, functions, ctors)?;
    let stack = handed_in(alloc, functions, ctors, selector)?;
    let end = end_of(alloc, code.code.as_slice(), stack)?;
    end_text(alloc, code.code.as_slice(), &end, ctors)
}

/// What a case gives.
fn answer(alloc: Global, case: &str) -> Result<String> {
    let mut words = case.split_whitespace();
    let call = words.next().unwrap_or("");
    let functions = number(words.next().unwrap_or(""))?;
    let ctors = number(words.next().unwrap_or(""))?;
    let selector = words.next().unwrap_or("none");
    match call {
        "run" => run_of(alloc, functions, ctors, selector),
        "form" => form(alloc, functions, ctors),
        _ => bail!("there is no call {call}"),
    }
}

fn main(rt: HostRuntime) -> Result<()> {
    for line in rt.lines(rt.alloc()) {
        let line = line?;
        let case = line.as_str();
        if case.is_empty() || case.starts_with('#') {
            println!(rt; "{case}")?;
        } else {
            let answer = answer(rt.alloc(), case)?;
            println!(rt; "{case} = {answer}")?;
        }
    }
    Ok(())
}
