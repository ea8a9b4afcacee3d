//! Code as text.

ghost use Rattle.std.specs.Prelude.{◌≡◌, ◌++◌, ◌∷◌, IsTrue, IfOk, OnOk, string_bytes};
ghost use Rattle.script_codec.specs.Spelling;
ghost use Rattle.script_codec.specs.Names.{name_of, are_named};
ghost use Rattle.asm_text.specs.Assembly.{assembly_text, further_words, word_of, opcode_word, push_word};

use cash_base::Memory;
use script_codec::{Instr, opcode_name, own_opcode};
use std::alloc::{AllocError, Global};

/// The text of some code: a word for each instruction, and one blank between two words.
///
/// The word is `OP_` and the name for an opcode, and for the push of an element that has an opcode of its own (`OP_0`,
/// `OP_1NEGATE`, `OP_1` to `OP_16`); any other push is the bytes of its element in lower-case hexadecimal. Each opcode is above
/// 60 (hexadecimal) and has a name. `Memory` comes where memory ran out.
///
/// The names are those of the Bitcoin Cash specification, and the form is that of the artifacts of CashScript.
pub fn asm_text(alloc: Global, code: &[Instr]) -> Result<String, Memory>
    requires { IsTrue (are_named code.now) }
    ensures { IfOk result (λ text. string_bytes text ≡ assembly_text code.now) }
{
    let mut text = String::new(alloc);
    let [first, others @ ..] = code else {
        return Ok(text);
    };
    push_instr(alloc, &mut text, first)?;
    push_others(alloc, &mut text, others)?;
    Ok(text)
}

/// Adds the words of some instructions, each after a blank.
fn push_others(alloc: Global, text: &mut String, others: &[Instr]) -> Result<(), AllocError>
    ensures { OnOk result (string_bytes text.new ≡ string_bytes text.old ++ further_words others.now) }
{
    for instr in others {
        push_next(alloc, text, instr)?;
    }
    Ok(())
}

/// Adds a blank and the word of an instruction.
fn push_next(alloc: Global, text: &mut String, instr: &Instr) -> Result<(), AllocError>
    ensures { OnOk result (string_bytes text.new ≡ string_bytes text.old ++ 0x20 ∷ word_of instr.now) }
{
    text.push_str(" ")?;
    push_instr(alloc, text, instr)?;
    Ok(())
}

/// Adds the word of an instruction.
fn push_instr(alloc: Global, text: &mut String, instr: &Instr) -> Result<(), AllocError>
    ensures { OnOk result (string_bytes text.new ≡ string_bytes text.old ++ word_of instr.now) }
{
    match instr {
        Instr::Push(e) => push_element(alloc, text, e.as_slice())?,
        Instr::Do(opcode) => push_opcode(text, opcode.0)?,
    }
    Ok(())
}

/// Adds the word of a push.
fn push_element(alloc: Global, text: &mut String, element: &[u8]) -> Result<(), AllocError>
    ensures { OnOk result (string_bytes text.new
        ≡ string_bytes text.old ++ push_word (Spelling.own_opcode element.now) element.now) }
{
    match own_opcode(element) {
        Some(opcode) => push_opcode(text, opcode)?,
        None => text.push_str(hex::encode(alloc, element)?.as_str())?,
    }
    Ok(())
}

/// Adds the word of an opcode.
fn push_opcode(text: &mut String, opcode: u8) -> Result<(), AllocError>
    ensures { OnOk result (string_bytes text.new ≡ string_bytes text.old ++ opcode_word (name_of opcode)) }
{
    let Some(name) = opcode_name(opcode) else {
        return Ok(());
    };
    text.push_str("OP_")?;
    text.push_str(name)?;
    Ok(())
}
