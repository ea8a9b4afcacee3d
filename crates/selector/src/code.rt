//! Code that is put together.

ghost use Rattle.std.specs.Prelude.{◌≡◌, IfOk};
ghost use Rattle.selector.specs.Pieces.{mark_behind};

use cash_base::Memory;
use cash_base::element::copy_of;
use script_codec::{Instr, Mark, Spanned};

/// An equal instruction.
fn copied(instr: &Instr) -> Instr
    ensures { result ≡ instr.now }
{
    match instr {
        Instr::Push(e) => Instr::Push(copy_of(e.as_slice())),
        Instr::Do(opcode) => Instr::Do(*opcode),
    }
}

/// An equal row.
pub(crate) fn copied_row(row: &Spanned) -> Spanned
    ensures { result ≡ row.now }
{
    Spanned {
        instr: copied(&row.instr),
        doing: row.doing,
        checking: row.checking,
    }
}

/// A mark of code in front of which so many instructions stand; `Memory` where its number has no room in 32 bits.
pub(crate) fn copied_mark(mark: &Mark, before: usize) -> Result<Mark, Memory>
    ensures { IfOk result (λ moved. moved ≡ mark_behind before mark.now) }
{
    let Ok(before) = u32::try_from(before) else {
        return Err(Memory);
    };
    let Some(at) = before.checked_add(mark.at) else {
        return Err(Memory);
    };
    Ok(Mark {
        at,
        height: mark.height,
        statement: mark.statement,
    })
}
