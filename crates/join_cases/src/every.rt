//! All small joins.

use crate::joined;
use crate::moves::{drop_only, left_of, weight_of};
use crate::slots::{has, text_of};
use anyhow::{Result, bail};
use branch_layout::{Join, Layout};
use cash_base::Slot;
use script_codec::Instr;
use std::alloc::Global;

/// Adds the layout of these numbers up to the first 0, unless one stands twice or stands after a 0.
fn add(layouts: &mut Vec<Layout>, alloc: Global, numbers: &[u16]) -> Result<()> {
    let mut slots = Vec::new(alloc);
    let mut ended = false;
    for n in numbers {
        if *n == 0 {
            ended = true;
        } else if ended {
            return Ok(());
        } else {
            slots.push(Slot(*n))?;
        }
    }
    if let Some(layout) = Layout::new(slots) {
        layouts.push(layout)?;
    }
    Ok(())
}

/// All layouts of at most 3 slots out of the names from 1 up to so many.
fn layouts(alloc: Global, names: u16) -> Result<Vec<Layout>> {
    let mut layouts = Vec::new(alloc);
    for first in 0..=names {
        for second in 0..=names {
            for third in 0..=names {
                add(&mut layouts, alloc, &[first, second, third])?;
            }
        }
    }
    Ok(layouts)
}

/// The slots of a layout that are kept, in its order.
fn kept(alloc: Global, layout: &[Slot], keep: &[Slot]) -> Result<Vec<Slot>> {
    let mut slots = Vec::new(alloc);
    for slot in layout {
        if has(keep, *slot) {
            slots.push(*slot)?;
        }
    }
    Ok(slots)
}

/// Whether the moves of an arm leave the target, and weigh at most 5 bytes and 2 opcodes for each slot of its layout.
fn is_arm(alloc: Global, layout: &[Slot], target: &[Slot], moves: &[Instr]) -> Result<bool> {
    let left = left_of(alloc, layout, moves)?;
    let (bytes, opcodes) = weight_of(moves);
    let slots = layout.len();
    Ok(
        left.as_slice() == target
            && bytes <= slots.wrapping_mul(5)
            && opcodes <= slots.wrapping_mul(2),
    )
}

/// Whether a join is right.
fn is_right(alloc: Global, a: &[Slot], b: &[Slot], keep: &[Slot], join: &Join) -> Result<bool> {
    let target = kept(alloc, a, keep)?;
    let same = kept(alloc, b, keep)?;
    let then_moves = join.then_moves.as_slice();
    let else_moves = join.else_moves.as_slice();
    if join.target.slots() != target.as_slice() {
        return Ok(false);
    }
    if !is_arm(alloc, a, target.as_slice(), then_moves)?
        || !is_arm(alloc, b, target.as_slice(), else_moves)?
    {
        return Ok(false);
    }
    if !drop_only(then_moves, a.len().wrapping_sub(target.len())) {
        return Ok(false);
    }
    Ok(
        same.as_slice() != target.as_slice()
            || drop_only(else_moves, b.len().wrapping_sub(target.len())),
    )
}

/// One where the join of these may be asked for and is right, and 0 where it may not be asked for.
fn tried(alloc: Global, a: &Layout, b: &Layout, keep: &Layout) -> Result<usize> {
    let Some(join) = joined(alloc, a, b, keep.slots())? else {
        return Ok(0);
    };
    if is_right(alloc, a.slots(), b.slots(), keep.slots(), &join)? {
        return Ok(1);
    }
    let first = text_of(alloc, a.slots())?;
    let second = text_of(alloc, b.slots())?;
    let kept = text_of(alloc, keep.slots())?;
    bail!("the join of {first} and {second} that keeps {kept} is wrong")
}

/// The number of joins of all pairs of layouts of at most 3 slots out of so many names, with each list of slots of both.
pub fn every(alloc: Global, names: usize) -> Result<usize> {
    let Ok(names) = u16::try_from(names) else {
        bail!("there are more names than slots");
    };
    let all = layouts(alloc, names)?;
    let mut count = 0usize;
    for a in &all {
        for b in &all {
            for keep in &all {
                count = count.wrapping_add(tried(alloc, a, b, keep)?);
            }
        }
    }
    Ok(count)
}
