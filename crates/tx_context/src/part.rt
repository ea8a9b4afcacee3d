//! Inputs and outputs, in a frame and in a context.

ghost use Rattle.std.specs.Prelude.{◌≡◌};
ghost use Rattle.tx_context.specs.Given.{given_bytes};
ghost use Rattle.tx_context.specs.Transaction;

use std::marker::Model;

/// A locking bytecode in a frame. It may be that of the spend, which is known only when the contract is.
#[derive(Debug, Drop)]
pub enum Bytecode {
    /// These bytes.
    Given(Vec<u8>),
    /// The locking bytecode of the spend.
    Own,
}

/// An input of a frame, with the output that it spends.
///
/// Contracts see it as a record of numbers and lists of bytes, its locking bytecode as an optional one.
#[derive(Debug, Drop)]
pub struct Input {
    /// The hash of the transaction whose output is spent, in the order of the transaction's bytes.
    pub hash: [u8; 32],
    /// The index of that output in its transaction.
    pub index: u32,
    /// The sequence number.
    pub sequence: u32,
    /// The satoshis of the spent output.
    pub value: u64,
    /// The locking bytecode of the spent output.
    pub locking: Bytecode,
    /// The unlocking bytecode.
    pub unlocking: Vec<u8>,
}

impl Model for Input {
    ghost use Rattle.std.specs.Prelude.{IsTrue};
    ghost use Rattle.tx_context.specs.Transaction.{InputParts, Locking, input_parts};
    ghost use Rattle.tx_context.specs.Limits.{is_numbered};
    ghost use Rattle.tx_context.specs.Given.{given_bytes};

    ghost Value = { InputParts Locking };

    ghost view = { λ i.
        input_parts i.hash i.index i.sequence i.value (given_bytes i.locking) i.unlocking.items };

    ghost invariant = { λ i. IsTrue (is_numbered
        (input_parts i.hash i.index i.sequence i.value (given_bytes i.locking) i.unlocking.items)) };
}

/// An ordinary input: it spends the first output of a transaction whose hash is all zeros, and its sequence number is 0. The
/// value is in satoshis. It takes no memory.
pub fn plain_input(value: u64, locking: Bytecode, unlocking: Vec<u8>) -> Input
    ensures { result ≡ Transaction.plain_input value (given_bytes locking) unlocking.items }
{
    Input {
        hash: [0; 32],
        index: 0,
        sequence: 0,
        value,
        locking,
        unlocking,
    }
}

/// An output of a frame.
#[derive(Debug, Drop)]
pub struct Output {
    /// The satoshis.
    pub value: u64,
    /// The locking bytecode.
    pub locking: Bytecode,
}

impl Model for Output {
    ghost use Rattle.tx_context.specs.Transaction.{OutputParts, Locking};
    ghost use Rattle.tx_context.specs.Given.{given_bytes};

    ghost Value = { OutputParts Locking };

    ghost view = { λ o. record { value = o.value; locking = given_bytes o.locking } };
}

/// An input of a context, with the output that it spends. Its locking bytecode is known.
#[derive(Debug, Drop)]
pub struct ContextInput {
    /// The hash of the transaction whose output is spent, in the order of the transaction's bytes.
    pub hash: [u8; 32],
    /// The index of that output in its transaction.
    pub index: u32,
    /// The sequence number.
    pub sequence: u32,
    /// The satoshis of the spent output.
    pub value: u64,
    /// The locking bytecode of the spent output.
    pub locking: Vec<u8>,
    /// The unlocking bytecode.
    pub unlocking: Vec<u8>,
}

impl Model for ContextInput {
    ghost use Rattle.std.specs.Prelude.{List, ℕ};
    ghost use Rattle.tx_context.specs.Transaction.{InputParts, input_parts};

    ghost Value = { InputParts (List ℕ) };

    ghost view = { λ i.
        input_parts i.hash i.index i.sequence i.value i.locking.items i.unlocking.items };
}

/// An output of a context. Its locking bytecode is known.
#[derive(Debug, Drop)]
pub struct ContextOutput {
    /// The satoshis.
    pub value: u64,
    /// The locking bytecode.
    pub locking: Vec<u8>,
}

impl Model for ContextOutput {
    ghost use Rattle.std.specs.Prelude.{List, ℕ};
    ghost use Rattle.tx_context.specs.Transaction.{OutputParts};

    ghost Value = { OutputParts (List ℕ) };

    ghost view = { λ o. record { value = o.value; locking = o.locking.items } };
}
