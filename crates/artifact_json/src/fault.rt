//! Why an artifact can't be read.

ghost use Rattle.std.specs.Prelude.{◌≡◌};
ghost use Rattle.artifact_json.specs.declared.fault.ArtifactFault.TheVariants as faults;

use cash_base::Memory;
use std::alloc::{AllocError, AllocFailed};
use std::fmt;

/// A field of an artifact. Each is printed by its name in the file.
#[derive(Clone, Copy, Debug, PartialEq, Eq)]
pub enum Field {
    /// `contractName`, the contract's name.
    ContractName,
    /// `constructorInputs`, the parameters of the constructor.
    ConstructorInputs,
    /// `abi`, the functions.
    Abi,
    /// `name` of a parameter, of a function or of the compiler.
    Name,
    /// `inputs` of a function, its parameters.
    Inputs,
    /// `type` of a parameter.
    TypeName,
    /// `bytecode`, the code as assembly text.
    Bytecode,
    /// `source`, the text that was compiled.
    Source,
    /// `compiler`, by what the contract was compiled.
    Compiler,
    /// `version` of the compiler.
    Version,
    /// `updatedAt`, when the contract was compiled.
    UpdatedAt,
    /// `spans`, the places of each instruction in the source.
    Spans,
}

impl Field {
    ghost use Rattle.artifact_json.specs.Fields.{key};

    /// Its name in the file. It takes no memory.
    pub fn key(self) -> &'static str
        ensures { result.now ≡ key self }
    {
        match self {
            Field::ContractName => "contractName",
            Field::ConstructorInputs => "constructorInputs",
            Field::Abi => "abi",
            Field::Name => "name",
            Field::Inputs => "inputs",
            Field::TypeName => "type",
            Field::Bytecode => "bytecode",
            Field::Source => "source",
            Field::Compiler => "compiler",
            Field::Version => "version",
            Field::UpdatedAt => "updatedAt",
            Field::Spans => "spans",
        }
    }
}

impl fmt::Display for Field {
    fn fmt<W: fmt::Write>(&self, f: &mut fmt::Formatter<W>) -> fmt::Result {
        f.write_str(self.key())
    }
}

/// What is wrong with an artifact: the first fault, in the order of the fields, and in one field in the order in which the
/// faults stand here. A number that has more than 32 bits is told as 4,294,967,295.
#[derive(Clone, Copy, Debug, PartialEq, Eq)]
pub enum ArtifactFault {
    /// The bytes are no JSON object.
    NotJson,
    /// A field isn't there.
    Missing {
        /// The field.
        field: Field,
    },
    /// A field, or a part of it that is no field of its own, is of another kind than it has to be. So is an `abi` without a
    /// function, a type that has no such name, and a span that ends before it begins or behind the source.
    WrongKind {
        /// The innermost field that holds the offending part.
        field: Field,
    },
    /// A list has more items than are allowed: 16 parameters, or 64 functions.
    TooMany {
        /// The list.
        field: Field,
    },
    /// The code has a word that stands for no instruction.
    BadAsm {
        /// The number of the first one, counted from 0.
        word: u32,
    },
    /// The code has more than 520 bytes.
    TooLong {
        /// How many it has.
        bytes: u32,
    },
    /// There are other than as many rows of spans as instructions.
    SpanCount {
        /// How many rows there are.
        rows: u32,
        /// How many instructions there are.
        opcodes: u32,
    },
    /// Memory ran out. It is the only answer that no contract ties to the file.
    Memory,
}

impl From<Memory> for ArtifactFault {
    ghost from_gives = { λ _ fault. fault ≡ faults.Memory };

    fn from(_e: Memory) -> ArtifactFault {
        ArtifactFault::Memory
    }
}

impl From<AllocError> for ArtifactFault {
    ghost from_gives = { λ _ fault. fault ≡ faults.Memory };

    fn from(_e: AllocError) -> ArtifactFault {
        ArtifactFault::Memory
    }
}

impl<T: Drop> From<AllocFailed<T>> for ArtifactFault {
    ghost from_gives = { λ _ fault. fault ≡ faults.Memory };

    fn from(_e: AllocFailed<T>) -> ArtifactFault {
        ArtifactFault::Memory
    }
}
