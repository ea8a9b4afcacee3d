//! Joins layouts, runs the moves, and prints what they leave. It reads a line each from the standard input:
//!
//! - `layout SLOTS` is answered by the slots of the layout, or by `twice` where a slot stands twice.
//! - `join A B KEEP` is answered by the target, and by what the moves of each arm leave of its layout.
//! - `most THEN ELSE A B KEEP` is answered by `yes` where the arms have at most so many instructions, and by their numbers
//!   where they have more.
//! - `every NAMES` goes through all pairs of layouts of at most 3 slots out of so many names, and with each pair through all
//!   lists of slots that stand in both. Its answer is the number of joins, all of which were right.
//!
//! Slots are numbers with a comma between them, from the top, and `-` is none of them. The moves are run on elements that
//! name their slots, above three others, which must be left. Empty lines, and those that begin with `#`, are printed as they
//! are.
#![tactic(auto)]

mod every;
mod moves;
mod slots;

use anyhow::{Result, bail};
use branch_layout::{Join, Layout, join};
use every::every;
use moves::left_of;
use slots::{layout_of, slots_of, stand_in, text_of};
use std::alloc::Global;

/// The join of two layouts, where it may be asked for.
pub(crate) fn joined(
    alloc: Global,
    a: &Layout,
    b: &Layout,
    keep: &[cash_base::Slot],
) -> Result<Option<Join>> {
    if a.slots().len() > 160 || b.slots().len() > 160 {
        return Ok(None);
    }
    if !stand_in(keep, a.slots()) || !stand_in(keep, b.slots()) {
        return Ok(None);
    }
    let Ok(join) = join(alloc, a, b, keep) else {
        bail!("memory ran out");
    };
    Ok(Some(join))
}

/// The join of a line's layouts and slots.
fn joined_texts(alloc: Global, a: &Layout, b: &Layout, keep: &str) -> Result<Join> {
    let keep = slots_of(alloc, keep)?;
    let Some(join) = joined(alloc, a, b, keep.as_slice())? else {
        bail!("a slot to keep stands in one layout alone");
    };
    Ok(join)
}

fn layout(alloc: Global, text: &str) -> Result<String> {
    match Layout::new(slots_of(alloc, text)?) {
        Some(layout) => text_of(alloc, layout.slots()),
        None => Ok(String::from_str(alloc, "twice")?),
    }
}

fn join_of(alloc: Global, a: &str, b: &str, keep: &str) -> Result<String> {
    let a = layout_of(alloc, a)?;
    let b = layout_of(alloc, b)?;
    let join = joined_texts(alloc, &a, &b, keep)?;
    let target = text_of(alloc, join.target.slots())?;
    let left_of_a = left_of(alloc, a.slots(), join.then_moves.as_slice())?;
    let left_of_b = left_of(alloc, b.slots(), join.else_moves.as_slice())?;
    let then_text = text_of(alloc, left_of_a.as_slice())?;
    let else_text = text_of(alloc, left_of_b.as_slice())?;
    Ok(format!(in alloc; "{target} then {then_text} else {else_text}")?)
}

fn most(
    alloc: Global,
    then_most: usize,
    else_most: usize,
    a: &str,
    b: &str,
    keep: &str,
) -> Result<String> {
    let a = layout_of(alloc, a)?;
    let b = layout_of(alloc, b)?;
    let join = joined_texts(alloc, &a, &b, keep)?;
    let then_count = join.then_moves.len();
    let else_count = join.else_moves.len();
    if then_count <= then_most && else_count <= else_most {
        return Ok(String::from_str(alloc, "yes")?);
    }
    Ok(format!(in alloc; "{then_count} {else_count}")?)
}

fn number(text: &str) -> Result<usize> {
    let Ok(n) = text.parse::<usize>() else {
        bail!("{text} is no number");
    };
    Ok(n)
}

/// What a case gives.
fn answer(alloc: Global, case: &str) -> Result<String> {
    let mut words = case.split_whitespace();
    let call = words.next().unwrap_or("");
    let first = words.next().unwrap_or("-");
    let second = words.next().unwrap_or("-");
    let third = words.next().unwrap_or("-");
    match call {
        "layout" => layout(alloc, first),
        "join" => join_of(alloc, first, second, third),
        "most" => {
            let b = words.next().unwrap_or("-");
            let keep = words.next().unwrap_or("-");
            most(alloc, number(first)?, number(second)?, third, b, keep)
        }
        "every" => {
            let count = every(alloc, number(first)?)?;
            Ok(format!(in alloc; "{count} joins")?)
        }
        _ => bail!("there is no call {call}"),
    }
}

fn main(rt: HostRuntime) -> Result<()> {
    for line in rt.lines(rt.alloc()) {
        let line = line?;
        let case = line.as_str();
        if case.is_empty() || case.starts_with('#') {
            println!(rt; "{case}")?;
        } else {
            let answer = answer(rt.alloc(), case)?;
            println!(rt; "{case} = {answer}")?;
        }
    }
    Ok(())
}
