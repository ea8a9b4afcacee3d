//! Rows of one operation that are known in advance.

ghost use Rattle.std.specs.Prelude.{◌≡◌, ◌≤◌, ◌+◌, ◌++◌, ◌∷◌, [], length, drop, None, pos, IsTrue, OnOk};
ghost use Rattle.cash_base.specs.Number.{minimal_bytes};
ghost use Rattle.script_codec.specs.declared.instr.Instr.{Instr};
ghost use Rattle.stack_emitter.specs.Places.{spot};
ghost use Rattle.stack_emitter.specs.Codes.{bytes_of, ops_of};
ghost use Rattle.stack_emitter.specs.Correct.{Adds};
ghost use Rattle.stack_pieces.specs.Pieces.{piece_instr, rows_of_pieces, chunk_deed};

use cash_base::{Span, write_number};
use script_codec::{Instr, Opcode};
use stack_emitter::emit::Emitter;
use std::alloc::AllocError;

/// An opcode, or the push of a number.
#[derive(Clone, Copy, Debug, PartialEq, Eq)]
pub enum Piece {
    Code(u8),
    Number(u16),
}

/// Puts what a script has so far, and a chunk, in place of both: the script with the chunk's push.
///
/// `2DUP CAT DROP` fails where both are too long for one element. Then the push's first bytes are made of the chunk's length n: the
/// number 0, 76 or 77 (n up to 75, up to 255, and above), as the product of whether n is over 75 and of 76 and whether n is over
/// 255; and of n in two bytes one or both.
const CHUNK: [Piece; 25] = [
    Piece::Code(0x6e),
    Piece::Code(0x7e),
    Piece::Code(0x75),
    Piece::Code(0x82),
    Piece::Code(0x76),
    Piece::Number(75),
    Piece::Code(0xa0),
    Piece::Code(0x78),
    Piece::Number(255),
    Piece::Code(0xa0),
    Piece::Code(0x7d),
    Piece::Number(76),
    Piece::Code(0x93),
    Piece::Code(0x95),
    Piece::Code(0x7b),
    Piece::Number(2),
    Piece::Code(0x80),
    Piece::Code(0x7b),
    Piece::Code(0x8b),
    Piece::Code(0x7f),
    Piece::Code(0x75),
    Piece::Code(0x7e),
    Piece::Code(0x7c),
    Piece::Code(0x7e),
    Piece::Code(0x7e),
];

fn instr_of(piece: Piece) -> Instr
    ensures { result ≡ piece_instr piece }
{
    match piece {
        Piece::Code(opcode) => Instr::Do(Opcode(opcode)),
        Piece::Number(number) => Instr::Push(write_number(i64::from(number))),
    }
}

/// Rows of one operation.
fn put_pieces(
    emitter: &mut Emitter,
    pieces: &[Piece],
    doing: Span,
    checking: Span,
) -> Result<(), AllocError>
    ensures code { OnOk result
        (emitter.new.code.items ≡ emitter.old.code.items ++ rows_of_pieces doing checking pieces.now) }
    ensures place { OnOk result (emitter.new.place ≡ emitter.old.place) }
{
    for piece in pieces {
        emitter.put(instr_of(*piece), doing, checking)?;
    }
    Ok(())
}

/// Takes what a script of data has so far and a chunk, and puts the script with the chunk's push: 29 bytes, 21 opcodes.
pub fn chunk(emitter: &mut Emitter, doing: Span, checking: Span) -> Result<(), AllocError>
    requires { 2 ≤ length emitter.old.place.operands }
    ensures adds { OnOk result (Adds doing checking emitter.old emitter.new (chunk_deed doing)) }
    ensures place { OnOk result
        (emitter.new.place ≡ spot (None ∷ drop 2 emitter.old.place.operands) emitter.old.place.slots) }
    ensures bytes { OnOk result (bytes_of emitter.new.code.items ≡ bytes_of emitter.old.code.items + 29) }
    ensures ops { OnOk result (ops_of emitter.new.code.items ≡ ops_of emitter.old.code.items + 21) }
{
    put_pieces(emitter, &CHUNK, doing, checking)?;
    emitter.place.take(2);
    emitter.place.put(None)?;
    Ok(())
}
