//! The minimal spelling of instructions.

ghost use Rattle.std.specs.Prelude.{◌≡◌, ◌≤◌, ◌++◌, length, IsTrue, IfOk, OnOk};
ghost use Rattle.cash_base.specs.Push.{push_prefix};
ghost use Rattle.script_codec.specs.Spelling;
ghost use Rattle.script_codec.specs.Spelling.{are_instructions, minimal_push, spelling, spellings};

use crate::instr::Instr;
use cash_base::Memory;
use std::alloc::{AllocError, Global};

/// The bytes of some instructions, each in its minimal spelling. Each opcode is above 60 in hexadecimal, since the
/// bytes up to that push, but for 50, which is reserved. `Memory` comes where memory ran out.
///
/// Source: the Bitcoin Cash specification, on minimal pushes.
pub fn encode(alloc: Global, code: &[Instr]) -> Result<Vec<u8>, Memory>
    requires { IsTrue (are_instructions code.now) }
    ensures { IfOk result (λ bytes. bytes.items ≡ spellings code.now) }
{
    let mut bytes = Vec::new(alloc);
    for instr in code {
        spell(&mut bytes, instr)?;
    }
    Ok(bytes)
}

fn spell(bytes: &mut Vec<u8>, instr: &Instr) -> Result<(), AllocError>
    ensures { OnOk result (bytes.new.items ≡ bytes.old.items ++ spelling instr.now) }
{
    match instr {
        Instr::Push(e) => push(bytes, e.as_slice())?,
        Instr::Do(opcode) => bytes.push(opcode.0)?,
    }
    Ok(())
}

/// Adds the minimal push of an element.
fn push(bytes: &mut Vec<u8>, element: &[u8]) -> Result<(), AllocError>
    requires { length element.now ≤ 520 }
    ensures { OnOk result (bytes.new.items ≡ bytes.old.items ++ minimal_push element.now) }
{
    match own_opcode(element) {
        Some(opcode) => bytes.push(opcode)?,
        None => {
            push_length(bytes, element.len())?;
            bytes.extend_from_slice(element)?;
        }
    }
    Ok(())
}

/// The opcode of an element that has one of its own: the empty element, the elements 01 to 10 (hexadecimal), and 81. It takes
/// no memory.
///
/// Source: the Bitcoin Cash specification, on minimal pushes.
pub fn own_opcode(element: &[u8]) -> Option<u8>
    ensures { result ≡ Spelling.own_opcode element.now }
{
    match element {
        [] => Some(0),
        [byte @ 1..=16] => Some(0x50 + *byte),
        [0x81] => Some(0x4f),
        _ => None,
    }
}

/// Adds what stands before so many bytes.
fn push_length(bytes: &mut Vec<u8>, length: usize) -> Result<(), AllocError>
    requires { length ≤ 520 }
    ensures { OnOk result (bytes.new.items ≡ bytes.old.items ++ push_prefix length) }
{
    if length <= 75 {
        bytes.push(length as u8)?;
    } else if length <= 255 {
        bytes.extend_from_slice(&[0x4c, length as u8])?;
    } else {
        bytes.extend_from_slice(&[0x4d, (length % 256) as u8, (length / 256) as u8])?;
    }
    Ok(())
}
