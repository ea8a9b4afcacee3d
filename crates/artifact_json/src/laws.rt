//! Reading undoes writing, and what the types of a program's parts say of it.

ghost use Rattle.std.specs.Prelude.{◌≡◌, List, Ok, IsTrue, IfSome};
ghost use Rattle.std.specs.List.{AllByRecursion};
ghost use Rattle.cash_base.specs.Number.{IsBytes};
ghost use Rattle.script_codec.specs.declared.instr.Instr.{Instr};
ghost use Rattle.script_codec.specs.Spelling.{are_instructions};
ghost use Rattle.asm_text.specs.Assembly.{PushesElement};
ghost use Rattle.artifact_json.specs.Artifact.{AbiParam, AbiCall, Artifact, is_spelled, IsStorable};
ghost use Rattle.artifact_json.specs.Reading.{artifact_reading};
ghost use Rattle.artifact_json.specs.Text.{IsSmallRow, HasTypes, artifact_text};

use crate::program::Program;
use script_codec::Instr;
use span_map::SpanRow;

/// The text of a program that can be stored reads as the program.
pub fn text_is_read_back()
    ensures { (program : Artifact) → HasTypes program → IsStorable program
        → artifact_reading (artifact_text program) ≡ Ok program }
{}

/// Code whose opcodes have names can be encoded.
pub fn spelled_code_is_encoded()
    ensures { (code : List Instr) (ctor : List AbiParam) (abi : List AbiCall) → IsTrue (is_spelled code ctor abi)
        → IsTrue (are_instructions code) }
{}

/// Each push of a program pushes an element, and its places have 32 bits.
pub fn parts_have_types(program: &Program)
    ensures pushes { AllByRecursion PushesElement program.now.code }
    ensures places { IfSome program.now.spans (AllByRecursion IsSmallRow) }
{
    each_pushes_an_element(program.code.as_slice());
    if let Some(rows) = &program.spans {
        places_are_small(rows.as_slice());
    }
}

fn each_pushes_an_element(code: &[Instr])
    ensures { AllByRecursion PushesElement code.now }
{
    for instr in code {
        pushes_an_element(instr);
    }
}

fn pushes_an_element(instr: &Instr)
    ensures { PushesElement instr.now }
{
    if let Instr::Push(element) = instr {
        are_bytes(element.as_slice());
    }
}

fn are_bytes(bytes: &[u8])
    ensures { IsBytes bytes.now }
{}

fn places_are_small(rows: &[SpanRow])
    ensures { AllByRecursion IsSmallRow rows.now }
{
    for row in rows {
        place_is_small(*row);
    }
}

fn place_is_small(row: SpanRow)
    ensures { IsSmallRow row }
{}
