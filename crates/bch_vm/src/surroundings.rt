//! What an instruction may ask.

ghost use Rattle.std.specs.Prelude.{◌≡◌};
ghost use Rattle.bch_vm.specs.Setting.{active_in};

use std::marker::Model;
use tx_context::{Context, Verdicts};

/// What an instruction of a script may ask beyond both stacks: the transaction, the verdicts on signatures, the script's bytes,
/// the place in them after the instruction, and how many more opcodes may be counted.
#[derive(Drop)]
pub struct Surroundings<'a> {
    pub context: &'a Context,
    pub verdicts: &'a Verdicts,
    pub script: &'a [u8],
    pub next: usize,
    pub left: u32,
}

impl<'a> Model for Surroundings<'a> {
    ghost use Rattle.bch_vm.specs.Setting.{Surrounded, surrounded};

    ghost Value = { Surrounded };

    ghost view = { λ s. surrounded s.context.now s.verdicts.now s.script.now s.next s.left };
}

/// The active bytecode of a script: all of it, or what stands after the separator, if that was executed.
pub fn active(script: &[u8], separator: usize) -> &[u8]
    ensures { result.now ≡ active_in script.now script.now separator }
{
    if separator == 0 {
        return script;
    }
    if separator >= script.len() {
        return &[];
    }
    &script[separator..]
}
