//! What a run can ask about.

use std::marker::Model;
use tx_context::{Context, Verdicts};

/// What a run of a contract can ask about: the transaction, the verdicts on signatures, and the redeem script, which is the
/// active bytecode.
#[derive(Drop)]
pub struct World<'a> {
    pub ctx: &'a Context,
    pub verdicts: &'a Verdicts,
    pub redeem: &'a [u8],
}

impl<'a> Model for World<'a> {
    ghost use Rattle.tx_context.specs.World.{World as Asked};

    ghost Value = { Asked };

    ghost view = { λ w. record { context = w.ctx.now; verdicts = w.verdicts.now; redeem = w.redeem.now } };
}
