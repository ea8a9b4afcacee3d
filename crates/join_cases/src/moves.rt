//! A run of moves by the table of the Bitcoin Cash specification: pushes, DROP and ROLL.

use anyhow::{Result, bail};
use cash_base::{Slot, read_number};
use script_codec::{Instr, Opcode};
use std::alloc::Global;

pub const DROP: Opcode = Opcode(0x75);

pub const ROLL: Opcode = Opcode(0x7a);

/// What stands below each layout; no slot has these names.
const REST: [i64; 3] = [100_000, 100_001, 100_002];

/// Takes a number, and moves the element so far below the top to the top.
fn roll(stack: &mut Vec<i64>) -> Result<()> {
    let Some(n) = stack.pop() else {
        bail!("ROLL finds no number");
    };
    let Ok(below) = usize::try_from(n) else {
        bail!("ROLL takes a negative number");
    };
    let height = stack.len();
    if below >= height {
        bail!("ROLL reaches below the stack");
    }
    let element = stack.remove(height - 1 - below);
    stack.push(element)?;
    Ok(())
}

/// Does a move, on a stack whose top is the last.
fn step(stack: &mut Vec<i64>, instr: &Instr) -> Result<()> {
    match instr {
        Instr::Push(e) => {
            let Some(n) = read_number(e.as_slice()) else {
                bail!("a push is no number");
            };
            stack.push(n)?;
        }
        Instr::Do(opcode) if opcode.0 == DROP.0 => {
            if stack.pop().is_none() {
                bail!("DROP finds no element");
            }
        }
        Instr::Do(opcode) if opcode.0 == ROLL.0 => roll(stack)?,
        Instr::Do(opcode) => bail!("opcode {} is no move", opcode.0),
    }
    Ok(())
}

/// The slots that moves leave of a layout, whose elements name their slots, above what stood below it.
pub fn left_of(alloc: Global, layout: &[Slot], moves: &[Instr]) -> Result<Vec<Slot>> {
    let mut stack = Vec::new(alloc);
    stack.extend_from_slice(&REST)?;
    for slot in layout.iter().rev() {
        stack.push(i64::from(slot.0))?;
    }
    for instr in moves {
        step(&mut stack, instr)?;
    }
    slots_above(alloc, stack.as_slice())
}

/// The slots of a stack above the rest, from the top.
fn slots_above(alloc: Global, stack: &[i64]) -> Result<Vec<Slot>> {
    let Some((rest, elements)) = stack.split_at_checked(REST.len()) else {
        bail!("the rest was taken");
    };
    if rest != REST.as_slice() {
        bail!("the rest was changed");
    }
    let mut slots = Vec::new(alloc);
    for element in elements.iter().rev() {
        let Ok(n) = u16::try_from(*element) else {
            bail!("an element of the rest stands above it");
        };
        slots.push(Slot(n))?;
    }
    Ok(slots)
}

/// What moves weigh: their bytes, and the opcodes among them that count.
pub fn weight_of(moves: &[Instr]) -> (usize, usize) {
    let mut bytes = 0usize;
    let mut opcodes = 0usize;
    for instr in moves {
        match instr {
            Instr::Push(e) => bytes = bytes.wrapping_add(push_size(e.as_slice())),
            Instr::Do(_) => {
                bytes = bytes.wrapping_add(1);
                opcodes = opcodes.wrapping_add(1);
            }
        }
    }
    (bytes, opcodes)
}

/// The bytes of the minimal push of a number of at most 75 bytes.
fn push_size(element: &[u8]) -> usize {
    match element {
        [] | [1..=16] | [0x81] => 1,
        _ => element.len().wrapping_add(1),
    }
}

/// Whether moves are, so many times, one DROP, or one push, ROLL and DROP, and nothing else.
pub fn drop_only(moves: &[Instr], count: usize) -> bool {
    let mut drops = 0usize;
    let mut pushed = false;
    let mut rolled = false;
    for instr in moves {
        match instr {
            Instr::Push(_) => {
                if pushed || rolled {
                    return false;
                }
                pushed = true;
            }
            Instr::Do(opcode) if opcode.0 == ROLL.0 => {
                if !pushed || rolled {
                    return false;
                }
                rolled = true;
            }
            Instr::Do(opcode) => {
                if opcode.0 != DROP.0 || pushed != rolled {
                    return false;
                }
                drops = drops.wrapping_add(1);
                pushed = false;
                rolled = false;
            }
        }
    }
    drops == count && !pushed
}
