//! Code of a text.

ghost use Rattle.std.specs.Prelude.{◌≡◌, ◌⊎◌, ◌+◌, [], IfOk, IfErr};
ghost use Rattle.hex.specs.Hex.{decode_of};
ghost use Rattle.script_codec.specs.Reading.{instruction};
ghost use Rattle.asm_text.specs.declared.fault.AsmFault.TheVariants as faults;
ghost use Rattle.asm_text.specs.Assembly;
ghost use Rattle.asm_text.specs.Assembly.{assembly_code, word_instruction};

use crate::cutting::first_word;
use crate::fault::AsmFault;
use cash_base::MAX_ELEMENT_LEN;
use cash_base::element::copy_of;
use hex::FromHexError;
use script_codec::{Instr, RawInstr, opcode_named};
use std::alloc::Global;

/// The code of a text.
///
/// A text is words with spaces, tabs, carriage returns or line feeds between them, and maybe at its ends. `OP_0`, `OP_1NEGATE`
/// and `OP_1` to `OP_16` are the pushes of their elements, and `OP_` and another name is that opcode. An even number of
/// hexadecimal digits in either case is the push of those bytes. The first other word is the fault, with its number, counted
/// from 0: `UnknownWord` where it begins with `OP_`, so also for the opcodes 01 to 4e and 50 (hexadecimal), `TooLong` where it
/// has the digits of more than 520 bytes, and `BadHex` anywhere else. `Memory` comes where memory ran out, and may come for a
/// text of more than 4,294,967,294 words.
///
/// The names are those of the Bitcoin Cash specification, and the form is that of the artifacts of CashScript.
pub fn read_asm(alloc: Global, text: &str) -> Result<Vec<Instr>, AsmFault>
    ensures read { IfOk result (λ code. assembly_code text.now ≡ Ok code.items) }
    ensures refused { IfErr result (λ fault. (fault ≡ faults.Memory) ⊎ (assembly_code text.now ≡ Err fault)) }
{
    Ok(read_words(alloc, text.as_bytes())?)
}

#[tactic(auto, using(crate::proofs::Turn::after_nothing, crate::proofs::Turn::word_read, crate::proofs::Turn::word_refused, crate::proofs::Turn::all_read))]
fn read_words(alloc: Global, text: &[u8]) -> Result<Vec<Instr>, AsmFault>
    ensures read { IfOk result (λ code. assembly_code text.now ≡ Ok code.items) }
    ensures refused { IfErr result (λ fault. (fault ≡ faults.Memory) ⊎ (assembly_code text.now ≡ Err fault)) }
{
    let mut code = Vec::new(alloc);
    let mut number = 0;
    let mut rest = text;
    'words: while let Some(cut) = first_word(rest) {
        code.push(instruction_of(alloc, number, cut.word)?)?;
        number = number_after(number)?;
        rest = cut.rest;
    }
    Ok(code)
}

/// The number of the next word.
fn number_after(number: u32) -> Result<u32, AsmFault>
    ensures next { IfOk result (λ next. next ≡ number + 1) }
    ensures full { IfErr result (λ fault. fault ≡ faults.Memory) }
{
    match number.checked_add(1) {
        Some(next) => Ok(next),
        None => Err(AsmFault::Memory),
    }
}

/// The instruction of a word, which has this number.
fn instruction_of(alloc: Global, number: u32, word: &[u8]) -> Result<Instr, AsmFault>
    ensures read { IfOk result (λ instr. word_instruction number word.now ≡ Ok instr) }
    ensures refused { IfErr result (λ fault. (fault ≡ faults.Memory) ⊎ (word_instruction number word.now ≡ Err fault)) }
{
    match word.strip_prefix(b"OP_".as_slice()) {
        Some(name) => Ok(named(number, opcode_named(name))?),
        None => Ok(pushed(alloc, number, word)?),
    }
}

/// What an opcode that has a name stands for.
fn named(number: u32, opcode: Option<u8>) -> Result<Instr, AsmFault>
    ensures read { IfOk result (λ instr. Assembly.named number opcode ≡ Ok instr) }
    ensures refused { IfErr result (λ fault. Assembly.named number opcode ≡ Err fault) }
{
    match opcode {
        Some(opcode) => Ok(meaning_of(opcode)),
        None => Err(AsmFault::UnknownWord { word: number }),
    }
}

/// What an opcode that pushes no bytes of the script stands for.
fn meaning_of(opcode: u8) -> Instr
    ensures { result ≡ instruction (record { opcode = opcode; pushed = [] }) }
{
    let alone = RawInstr {
        opcode,
        from: 0,
        to: 0,
    };
    alone.meaning(&[])
}

/// The push of what hexadecimal digits spell.
fn pushed(alloc: Global, number: u32, digits: &[u8]) -> Result<Instr, AsmFault>
    ensures read { IfOk result (λ instr. Assembly.pushed number (decode_of digits.now) ≡ Ok instr) }
    ensures refused { IfErr result (λ fault. (fault ≡ faults.Memory)
        ⊎ (Assembly.pushed number (decode_of digits.now) ≡ Err fault)) }
{
    match hex::decode(alloc, digits) {
        Ok(bytes) if bytes.len() <= MAX_ELEMENT_LEN => Ok(Instr::Push(copy_of(bytes.as_slice()))),
        Ok(_) => Err(AsmFault::TooLong { word: number }),
        Err(FromHexError::OutOfMemory) => Err(AsmFault::Memory),
        Err(_) => Err(AsmFault::BadHex { word: number }),
    }
}
