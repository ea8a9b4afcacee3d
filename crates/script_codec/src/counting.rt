//! A count of a script's opcodes that is read off its bytes, whatever a run would execute.

ghost use Rattle.std.specs.Prelude.{◌≡◌, ◌≤◌, length};
ghost use Rattle.script_codec.specs.Reading;
ghost use Rattle.script_codec.specs.Reading.{reading, instruction};
ghost use Rattle.script_codec.specs.Places.{raw_in};
ghost use Rattle.script_codec.specs.Counting;
ghost use Rattle.script_codec.specs.Counting.{number_pushed, counted_in};

use crate::instr::Opcode;
use crate::reading::{RawInstr, next_instr};
use cash_base::read_number;

/// The most keys that CHECKMULTISIG takes.
const MOST_KEYS: i64 = 20;

/// The number of opcodes above 60 (hexadecimal) in a script of at most 10,000 bytes, up to its end or its first push that is
/// cut off, and for each CHECKMULTISIG and CHECKMULTISIGVERIFY directly after a minimal push of a number from 0 to 20 that
/// number.
///
/// It takes no memory. The count is this project's own; the limit of operations in a script of the Bitcoin Cash
/// specification adds keys only where such a check is executed, however their number came to the stack.
pub fn counted(script: &[u8]) -> u32
    requires { length script.now ≤ 10000 }
    ensures { result ≡ counted_in (reading script.now) }
{
    let mut count = 0;
    let mut keys = 0;
    let mut at = 0;
    'script: while let Ok(Some((instr, next))) = next_instr(script, at) {
        count += weight(instr.opcode);
        if takes_keys(instr.opcode) {
            count += keys;
        }
        keys = keys_pushed(script, &instr);
        at = next;
    }
    count
}

/// How much an opcode counts: 1 above 60 (hexadecimal), and else 0. It takes no memory.
pub fn weight(opcode: u8) -> u32
    ensures value { result ≡ Counting.weight opcode }
    ensures bound { result ≤ 1 }
{
    if opcode > 0x60 { 1 } else { 0 }
}

fn takes_keys(opcode: u8) -> bool
    ensures { result ≡ Counting.takes_keys opcode }
{
    matches!(
        Opcode(opcode),
        Opcode::CHECKMULTISIG | Opcode::CHECKMULTISIGVERIFY
    )
}

/// The number of keys that a minimal push pushes, and 0 where it is none.
fn keys_pushed(script: &[u8], instr: &RawInstr) -> u32
    requires ordered { instr.now.from ≤ instr.now.to }
    requires inside { instr.now.to ≤ length script.now }
    ensures value { result ≡ Counting.keys_pushed (raw_in script.now instr.now) }
    ensures bound { result ≤ 20 }
{
    if instr.is_minimal(script) {
        key_count(instr.number(script))
    } else {
        0
    }
}

fn key_count(number: Option<i64>) -> u32
    ensures value { result ≡ Counting.key_count number }
    ensures bound { result ≤ 20 }
{
    match number {
        Some(n @ 0..=MOST_KEYS) => n as u32,
        _ => 0,
    }
}

impl RawInstr {
    /// The number that it pushes.
    fn number(&self, script: &[u8]) -> Option<i64>
        requires ordered { self.now.from ≤ self.now.to }
        requires inside { self.now.to ≤ length script.now }
        ensures { result ≡ number_pushed (instruction (raw_in script.now self.now)) }
    {
        match self.opcode {
            0..=0x4e => read_number(self.pushed(script)),
            0x4f => Some(-1),
            0x51..=0x60 => Some(i64::from(self.opcode - 0x50)),
            _ => None,
        }
    }
}
