//! The instructions that the bytes of a script spell.

ghost use Rattle.std.specs.Prelude.{◌≡◌, ◌≤◌, ◌<◌, ◌^◌, ◌+◌, length, slice_range};
ghost use Rattle.cash_base.specs.Push.{push_prefix};
ghost use Rattle.script_codec.specs.Reading;
ghost use Rattle.script_codec.specs.Reading.{first_byte, instruction};
ghost use Rattle.script_codec.specs.Spelling.{minimal_push};
ghost use Rattle.script_codec.specs.Places.{instruction_at, placed, ReadsAs, LiesIn, raw_in};

use crate::instr::{Instr, Opcode};
use crate::spelling::own_opcode;
use cash_base::element::copy_of;
use std::error::Error;
use std::fmt;

/// An instruction as it stands in a script: its opcode, and the places `from` up to but not including `to` of the bytes
/// of the script that it pushes.
///
/// `to` is always the place after the instruction. Where it pushes none of the script's bytes, as OP_0, OP_1NEGATE,
/// OP_1 to OP_16 and every opcode that is no push, `from` is that place too. The limits of its methods hold where it
/// is what `next_instr` answers for the script.
#[derive(Clone, Copy, Debug, PartialEq, Eq)]
pub struct RawInstr {
    pub opcode: u8,
    pub from: u32,
    pub to: u32,
}

/// A push whose length or bytes are cut off by the end of the script, with the place where the push begins.
#[derive(Clone, Copy, Debug, PartialEq, Eq)]
pub struct CodecFault {
    pub at: u32,
}

impl fmt::Display for CodecFault {
    fn fmt<W: fmt::Write>(&self, f: &mut fmt::Formatter<W>) -> fmt::Result {
        let at = self.at;
        write!(f, "the push at {at} is cut off")
    }
}

impl Error for CodecFault {}

/// The instruction at a place of a script, and the place after it.
///
/// It is `None` exactly at the end, and a fault exactly where a push's length or bytes are cut off. Every byte begins
/// an instruction: 00 to 4e push bytes of the script, after their length in little-endian from 4c on; 4f and 51 to 60
/// push an element of one byte; any other pushes nothing. Pushes of over 520 bytes, which no element holds, are read
/// like any other. It takes no memory.
///
/// Source: the Bitcoin Cash specification, on the bytes of scripts.
pub fn next_instr(script: &[u8], from: usize) -> Result<Option<(RawInstr, usize)>, CodecFault>
    requires within { from ≤ length script.now }
    requires size { length script.now < 2 ^ 31 }
    ensures value { result ≡ instruction_at script.now from }
    ensures reads { ReadsAs script.now from result }
    ensures inside { LiesIn script.now from result }
{
    first_instr(&script[from..], from)
}

/// The first instruction of the rest of a script that begins at a place.
fn first_instr(rest: &[u8], at: usize) -> Result<Option<(RawInstr, usize)>, CodecFault>
    requires { at + length rest.now < 2 ^ 31 }
    ensures { result ≡ placed at rest.now }
{
    let [opcode, after @ ..] = rest else {
        return Ok(None);
    };
    let length = length_size(*opcode);
    if length > after.len() {
        return Err(CodecFault { at: at as u32 });
    }
    let pushed = pushed_size(*opcode, after);
    if pushed > after.len() - length {
        return Err(CodecFault { at: at as u32 });
    }
    let from = at + 1 + length;
    let to = from + pushed;
    let instr = RawInstr {
        opcode: *opcode,
        from: from as u32,
        to: to as u32,
    };
    Ok(Some((instr, to)))
}

/// How many bytes of a length stand after an opcode.
fn length_size(opcode: u8) -> usize
    ensures value { result ≡ Reading.length_size opcode }
    ensures bound { result ≤ 4 }
{
    match opcode {
        0x4c => 1,
        0x4d => 2,
        0x4e => 4,
        _ => 0,
    }
}

/// How many bytes of the script an opcode in front of these bytes pushes.
fn pushed_size(opcode: u8, after: &[u8]) -> usize
    requires { Reading.length_size opcode ≤ length after.now }
    ensures { result ≡ Reading.pushed_size opcode after.now }
{
    match opcode {
        0..=0x4b => usize::from(opcode),
        0x4c..=0x4e => little_endian(&after[..length_size(opcode)]),
        _ => 0,
    }
}

/// A number of at most four bytes, the lowest first.
fn little_endian(bytes: &[u8]) -> usize
    requires { length bytes.now ≤ 4 }
    ensures value { result ≡ Reading.little_endian bytes.now }
    ensures bound { result < 256 ^ length bytes.now }
{
    match bytes {
        [] => 0,
        [lowest, rest @ ..] => usize::from(*lowest) + 256 * little_endian(rest),
    }
}

impl RawInstr {
    /// The bytes of its script that it pushes. It takes no memory.
    pub fn pushed<'a>(&self, script: &'a [u8]) -> &'a [u8]
        requires ordered { self.now.from ≤ self.now.to }
        requires inside { self.now.to ≤ length script.now }
        ensures { result.now ≡ slice_range script.now self.now.from self.now.to }
    {
        &script[self.from as usize..self.to as usize]
    }

    /// What it stands for: the push of an element, or an opcode. It pushes at most 520 bytes, since an element has no
    /// more. It takes no memory.
    pub fn meaning(&self, script: &[u8]) -> Instr
        requires ordered { self.now.from ≤ self.now.to }
        requires inside { self.now.to ≤ length script.now }
        requires fits { self.now.to ≤ self.now.from + 520 }
        ensures { result ≡ instruction (raw_in script.now self.now) }
    {
        match self.opcode {
            0..=0x4e => Instr::Push(copy_of(self.pushed(script))),
            0x4f => Instr::Push(copy_of(&[0x81])),
            0x51..=0x60 => Instr::Push(copy_of(&[self.opcode - 0x50])),
            _ => Instr::Do(Opcode(self.opcode)),
        }
    }

    /// Whether it is the minimal spelling of what it stands for; an opcode that is no push always is. It takes no
    /// memory.
    ///
    /// Source: the Bitcoin Cash specification, on minimal pushes.
    pub fn is_minimal(&self, script: &[u8]) -> bool
        requires ordered { self.now.from ≤ self.now.to }
        requires inside { self.now.to ≤ length script.now }
        ensures { result ≡ Reading.is_minimal (raw_in script.now self.now) }
    {
        match self.opcode {
            0..=0x4e => self.opcode == minimal_opcode(self.pushed(script)),
            _ => true,
        }
    }
}

/// The opcode of the minimal push of an element.
fn minimal_opcode(element: &[u8]) -> u8
    ensures { result ≡ first_byte (minimal_push element.now) }
{
    match own_opcode(element) {
        Some(opcode) => opcode,
        None => length_opcode(element.len()),
    }
}

/// The opcode of a push of so many bytes that has no other.
fn length_opcode(length: usize) -> u8
    ensures { result ≡ first_byte (push_prefix length) }
{
    if length <= 75 {
        length as u8
    } else if length <= 255 {
        0x4c
    } else {
        0x4d
    }
}
