//! What an opcode may ask.

use std::marker::Model;
use tx_context::{Context, Verdicts};

/// What an opcode may ask beyond its operands: the transaction, the verdicts on signatures, the active bytecode, and how many
/// more opcodes may be counted.
#[derive(Drop)]
pub struct Asks<'a> {
    /// The transaction.
    pub context: &'a Context,
    /// The verdicts on signatures.
    pub verdicts: &'a Verdicts,
    /// The active bytecode.
    pub active: &'a [u8],
    /// How many more opcodes may be counted.
    pub left: u32,
}

impl<'a> Model for Asks<'a> {
    ghost use Rattle.opcode_table.specs.Asking.{Asked};

    ghost Value = { Asked };

    ghost view = { λ asks. record {
      context = asks.context.now;
      verdicts = asks.verdicts.now;
      active = asks.active.now;
      left = asks.left;
    } };
}
