//! What is built of a spend.

use cash_base::Element;
use std::marker::Model;

/// The redeem script of a spend and its unlocking script. Its locking script is that of the redeem script.
#[derive(Drop)]
pub struct Scripts {
    pub redeem: Vec<u8>,
    pub unlocking: Vec<u8>,
}

impl Model for Scripts {
    ghost use Rattle.unlocker.specs.Spends.{Built};

    ghost Value = { Built };

    ghost view = { λ s. record { redeem = s.redeem.items; unlocking = s.unlocking.items } };
}

/// A call of a function, by its index from 0: the elements of the constructor's parameters and of the function's, and the scripts
/// of the spend.
#[derive(Drop)]
pub struct Call {
    pub ctor: Vec<Element>,
    pub chosen: usize,
    pub args: Vec<Element>,
    pub scripts: Scripts,
}
