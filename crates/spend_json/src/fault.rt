//! Why a spend file can't be read.

ghost use Rattle.std.specs.Prelude.{◌≡◌};
ghost use Rattle.spend_json.specs.declared.fault.SpendFault.TheVariants as faults;

use cash_base::Memory;
use std::alloc::{AllocError, AllocFailed};
use std::fmt;
use tx_context::{FrameFault, TableFault};

/// A field of a spend file, in the order in which fields are read. Each is printed by its name in the file.
#[derive(Clone, Copy, Debug, PartialEq, Eq)]
pub enum SpendField {
    /// `constructor`, the values of the constructor's parameters.
    Constructor,
    /// `function`, the name of the function that is called.
    Function,
    /// `arguments`, the values of its parameters.
    Arguments,
    /// `pushes`, elements that are pushed in place of a call.
    Pushes,
    /// `transaction`, the transaction that spends.
    Transaction,
    /// `version` of the transaction.
    Version,
    /// `locktime` of the transaction.
    Locktime,
    /// `inputs` of the transaction.
    Inputs,
    /// `outputs` of the transaction.
    Outputs,
    /// `activeInputIndex` of the transaction: which input is the spent one, from 0.
    ActiveInputIndex,
    /// `outpointTransactionHash` of an input.
    OutpointTransactionHash,
    /// `outpointIndex` of an input.
    OutpointIndex,
    /// `sequenceNumber` of an input.
    SequenceNumber,
    /// `value` of an input or an output, in satoshis.
    Value,
    /// `lockingBytecode` of an input or an output.
    LockingBytecode,
    /// `unlockingBytecode` of an input.
    UnlockingBytecode,
    /// `verdicts`, what the checks of signatures answer.
    Verdicts,
    /// `kind` of a verdict.
    Kind,
    /// `signature` of a verdict.
    Signature,
    /// `key` of a verdict.
    Key,
    /// `message` of a verdict.
    Message,
    /// `answer` of a verdict.
    Answer,
}

impl SpendField {
    ghost use Rattle.spend_json.specs.Fields.{key};

    /// Its name in the file. It takes no memory.
    pub fn key(self) -> &'static str
        ensures { result.now ≡ key self }
    {
        match self {
            SpendField::Constructor => "constructor",
            SpendField::Function => "function",
            SpendField::Arguments => "arguments",
            SpendField::Pushes => "pushes",
            SpendField::Transaction => "transaction",
            SpendField::Version => "version",
            SpendField::Locktime => "locktime",
            SpendField::Inputs => "inputs",
            SpendField::Outputs => "outputs",
            SpendField::ActiveInputIndex => "activeInputIndex",
            SpendField::OutpointTransactionHash => "outpointTransactionHash",
            SpendField::OutpointIndex => "outpointIndex",
            SpendField::SequenceNumber => "sequenceNumber",
            SpendField::Value => "value",
            SpendField::LockingBytecode => "lockingBytecode",
            SpendField::UnlockingBytecode => "unlockingBytecode",
            SpendField::Verdicts => "verdicts",
            SpendField::Kind => "kind",
            SpendField::Signature => "signature",
            SpendField::Key => "key",
            SpendField::Message => "message",
            SpendField::Answer => "answer",
        }
    }
}

impl fmt::Display for SpendField {
    fn fmt<W: fmt::Write>(&self, f: &mut fmt::Formatter<W>) -> fmt::Result {
        f.write_str(self.key())
    }
}

/// What is wrong with a spend file: the first fault, in the order of the fields, and in one field in the order in which the
/// faults stand here.
#[derive(Clone, Copy, Debug, PartialEq, Eq)]
pub enum SpendFault {
    /// The bytes are no JSON object.
    NotJson,
    /// A field that is needed isn't there.
    Missing {
        /// The field.
        field: SpendField,
    },
    /// A field is of another kind than it has to be, or a part of it that is no field of its own. So is `pushes` beside
    /// `function` or `arguments`.
    WrongKind {
        /// The innermost field that holds the offending part.
        field: SpendField,
    },
    /// A list has more items than are allowed: 16 values, or 1,000 pushes.
    TooMany {
        /// The list.
        field: SpendField,
    },
    /// A text is no hexadecimal.
    BadHex {
        /// The innermost field that holds the text.
        field: SpendField,
    },
    /// A whole number is outside its type, an element has over 520 bytes, or a hash hasn't 32.
    Range {
        /// The innermost field that holds the number or the bytes.
        field: SpendField,
    },
    /// The transaction isn't within the limits of frames.
    Frame(FrameFault),
    /// The verdicts are no table. Want of memory is never in here.
    Table(TableFault),
    /// Memory ran out. It is the only answer that no contract ties to the file.
    Memory,
}

impl From<Memory> for SpendFault {
    ghost from_gives = { λ _ fault. fault ≡ faults.Memory };

    fn from(_e: Memory) -> SpendFault {
        SpendFault::Memory
    }
}

impl From<AllocError> for SpendFault {
    ghost from_gives = { λ _ fault. fault ≡ faults.Memory };

    fn from(_e: AllocError) -> SpendFault {
        SpendFault::Memory
    }
}

impl<T: Drop> From<AllocFailed<T>> for SpendFault {
    ghost from_gives = { λ _ fault. fault ≡ faults.Memory };

    fn from(_e: AllocFailed<T>) -> SpendFault {
        SpendFault::Memory
    }
}
