//! What a script and a contract's source can ask of the transaction that is spent.

/// What is asked of the whole transaction, or of the input that is spent.
///
/// Source: CHIP-2021-02, native introspection, for all of them.
#[derive(Clone, Copy, Debug, PartialEq, Eq)]
pub enum Look0 {
    /// The transaction's version.
    Version,
    /// The transaction's lock time.
    Locktime,
    /// The number of inputs.
    InputCount,
    /// The number of outputs.
    OutputCount,
    /// The index of the input that is spent.
    ActiveIndex,
    /// The bytecode that is run, from after the latest code separator.
    ActiveBytecode,
}

/// What is asked of the input, or the output, at an index.
///
/// Source: CHIP-2021-02, native introspection, for all of them.
#[derive(Clone, Copy, Debug, PartialEq, Eq)]
pub enum LookAt {
    /// The satoshis of the output that the input spends.
    UtxoValue,
    /// The locking bytecode of the output that the input spends.
    UtxoBytecode,
    /// The hash of the transaction whose output the input spends, in the order of the transaction's bytes.
    OutpointHash,
    /// The index of that output in its transaction.
    OutpointIndex,
    /// The unlocking bytecode of the input.
    InputBytecode,
    /// The sequence number of the input.
    InputSequence,
    /// The satoshis of the output.
    OutputValue,
    /// The locking bytecode of the output.
    OutputBytecode,
}
