//! Reading undoes writing.

ghost use Rattle.std.specs.Prelude.{◌≡◌, IsTrue, List};
ghost use Rattle.std.specs.List.{AllByRecursion};
ghost use Rattle.script_codec.specs.declared.instr.Instr.{Instr};
ghost use Rattle.script_codec.specs.Names.{are_named};
ghost use Rattle.asm_text.specs.Assembly.{assembly_text, assembly_code, PushesElement};

/// Reading the text of code gives the same code, where each opcode is above 60 (hexadecimal) and has a name, whatever elements
/// are pushed.
pub fn text_is_read_back()
    ensures { (code : List Instr) → IsTrue (are_named code) → AllByRecursion PushesElement code
        → assembly_code (assembly_text code) ≡ Ok code }
{}
