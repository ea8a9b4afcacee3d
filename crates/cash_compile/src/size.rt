//! Code within the limits of a script.

ghost use Rattle.std.specs.Prelude.{◌≡◌, ◌≢◌, ◌≤◌, IfOk, IfErr, IsTrue};
ghost use Rattle.script_codec.specs.Spelling.{are_instructions};
ghost use Rattle.cash_compile.specs.declared.refusal.Refusal.TheVariants.{Memory};
ghost use Rattle.cash_compile.specs.Compile.{code_size, code_count, most_bytes, most_opcodes};
ghost use Rattle.cash_compile.specs.Code.{IsOver};

use crate::refusal::Refusal;
use script_codec::{Instr, counted, encode};
use std::alloc::Global;

/// The most bytes of a redeem script.
const MAX_CODE_LEN: usize = 520;

/// The most opcodes that a script may count.
const MAX_OPCODES: u32 = 201;

/// Code that is within both limits, as it is; or why it isn't.
pub(crate) fn within_limits(alloc: Global, code: Vec<Instr>) -> Result<Vec<Instr>, Refusal>
    requires { IsTrue (are_instructions code.items) }
    ensures kept { IfOk result (λ kept. kept.items ≡ code.items) }
    ensures short { IfOk result (λ kept. code_size code.items ≤ most_bytes) }
    ensures few { IfOk result (λ kept. code_count code.items ≤ most_opcodes) }
    ensures over { IfErr result (λ refusal. refusal ≢ Memory → IsOver code.items refusal) }
{
    let script = encode(alloc, code.as_slice())?;
    if script.len() > MAX_CODE_LEN {
        return Err(Refusal::CodeTooLong {
            bytes: script.len(),
            code,
        });
    }
    let count = counted(script.as_slice());
    if count > MAX_OPCODES {
        return Err(Refusal::TooManyOps { count, code });
    }
    Ok(code)
}
