//! The lines that tell what is wrong with an artifact, a spend file, or the values in one.

ghost use Rattle.std.specs.Prelude.{◌≡◌, ◌≢◌, [], IfOk};
ghost use Rattle.std.specs.Fmt.{decimal};
ghost use Rattle.spend_command.specs.FaultLines;
ghost use Rattle.spend_command.specs.FaultLines.{artifact_line, file_line, build_line, line, line_with, numbers_line};

use artifact_json::ArtifactFault;
use cash_base::Memory;
use spend_json::SpendFault;
use std::alloc::{AllocError, Global};
use tx_context::{FrameFault, TableFault};
use unlocker::BuildFault;

/// The line that tells what is wrong with an artifact: `input`, the fault's name, and its field, or its numbers in order.
/// `Memory` comes where memory ran out, and for the fault that says so.
pub fn artifact_text(alloc: Global, fault: ArtifactFault) -> Result<Vec<u8>, Memory>
    ensures line { IfOk result (λ text. text.items ≡ artifact_line fault) }
    ensures some { IfOk result (λ text. text.items ≢ []) }
{
    let text = match fault {
        ArtifactFault::NotJson => named(alloc, "NotJson")?,
        ArtifactFault::Missing { field } => with_word(alloc, "Missing", field.key())?,
        ArtifactFault::WrongKind { field } => with_word(alloc, "WrongKind", field.key())?,
        ArtifactFault::TooMany { field } => with_word(alloc, "TooMany", field.key())?,
        ArtifactFault::BadAsm { word } => with_number(alloc, "BadAsm", word)?,
        ArtifactFault::TooLong { bytes } => with_number(alloc, "TooLong", bytes)?,
        ArtifactFault::SpanCount { rows, opcodes } => {
            with_numbers(alloc, "SpanCount", rows, opcodes)?
        }
        ArtifactFault::Memory => return Err(Memory),
    };
    Ok(text)
}

/// The line that tells what is wrong with a spend file: `input`, the name of the innermost fault, and its field, or its number.
/// `Memory` comes where memory ran out, and for the faults that say so.
pub fn file_text(alloc: Global, fault: SpendFault) -> Result<Vec<u8>, Memory>
    ensures line { IfOk result (λ text. text.items ≡ file_line fault) }
    ensures some { IfOk result (λ text. text.items ≢ []) }
{
    let text = match fault {
        SpendFault::NotJson => named(alloc, "NotJson")?,
        SpendFault::Missing { field } => with_word(alloc, "Missing", field.key())?,
        SpendFault::WrongKind { field } => with_word(alloc, "WrongKind", field.key())?,
        SpendFault::TooMany { field } => with_word(alloc, "TooMany", field.key())?,
        SpendFault::BadHex { field } => with_word(alloc, "BadHex", field.key())?,
        SpendFault::Range { field } => with_word(alloc, "Range", field.key())?,
        SpendFault::Frame(fault) => frame_text(alloc, fault)?,
        SpendFault::Table(fault) => table_text(alloc, fault)?,
        SpendFault::Memory => return Err(Memory),
    };
    Ok(text)
}

fn frame_text(alloc: Global, fault: FrameFault) -> Result<Vec<u8>, AllocError>
    ensures line { IfOk result (λ text. text.items ≡ FaultLines.frame_line fault) }
    ensures some { IfOk result (λ text. text.items ≢ []) }
{
    let text = match fault {
        FrameFault::Version => named(alloc, "Version")?,
        FrameFault::NoInput => named(alloc, "NoInput")?,
        FrameFault::TooMany { count } => with_number(alloc, "TooMany", count)?,
        FrameFault::Value { index } => with_number(alloc, "Value", index)?,
        FrameFault::BytecodeLength { index } => with_number(alloc, "BytecodeLength", index)?,
        FrameFault::ActiveRange => named(alloc, "ActiveRange")?,
    };
    Ok(text)
}

fn table_text(alloc: Global, fault: TableFault) -> Result<Vec<u8>, Memory>
    ensures line { IfOk result (λ text. text.items ≡ FaultLines.table_line fault) }
    ensures some { IfOk result (λ text. text.items ≢ []) }
{
    let text = match fault {
        TableFault::TooMany { rows } => with_number(alloc, "TooMany", rows)?,
        TableFault::MessageGiven { row } => with_number(alloc, "MessageGiven", row)?,
        TableFault::EmptySignatureGood { row } => with_number(alloc, "EmptySignatureGood", row)?,
        TableFault::Repeated { row } => with_number(alloc, "Repeated", row)?,
        TableFault::Memory => return Err(Memory),
    };
    Ok(text)
}

/// The line that tells why no scripts are built: `input`, the fault's name, and its numbers in order. `Memory` comes where memory
/// ran out, and for the fault that says so.
pub fn build_text(alloc: Global, fault: BuildFault) -> Result<Vec<u8>, Memory>
    ensures line { IfOk result (λ text. text.items ≡ build_line fault) }
    ensures some { IfOk result (λ text. text.items ≢ []) }
{
    let text = match fault {
        BuildFault::WrongCount { wanted, found } => {
            with_numbers(alloc, "WrongCount", wanted, found)?
        }
        BuildFault::NoSuchFunction => named(alloc, "NoSuchFunction")?,
        BuildFault::WrongValue => named(alloc, "WrongValue")?,
        BuildFault::WrongLength { wanted, found } => {
            with_numbers(alloc, "WrongLength", wanted, found)?
        }
        BuildFault::IntRange => named(alloc, "IntRange")?,
        BuildFault::TooLong { bytes } => with_number(alloc, "TooLong", bytes)?,
        BuildFault::RedeemTooLong { bytes } => with_number(alloc, "RedeemTooLong", bytes)?,
        BuildFault::UnlockTooLong { bytes } => with_number(alloc, "UnlockTooLong", bytes)?,
        BuildFault::PushesGiven => named(alloc, "PushesGiven")?,
        BuildFault::Memory => return Err(Memory),
    };
    Ok(text)
}

/// The line of a fault that says no more than its name.
fn named(alloc: Global, name: &str) -> Result<Vec<u8>, AllocError>
    ensures line { IfOk result (λ text. text.items ≡ line name.now) }
    ensures some { IfOk result (λ text. text.items ≢ []) }
{
    Ok(format!(in alloc; "input {name}\n")?.into_bytes())
}

/// ... and a word.
fn with_word(alloc: Global, name: &str, word: &str) -> Result<Vec<u8>, AllocError>
    ensures line { IfOk result (λ text. text.items ≡ line_with name.now word.now) }
    ensures some { IfOk result (λ text. text.items ≢ []) }
{
    Ok(format!(in alloc; "input {name} {word}\n")?.into_bytes())
}

/// ... and a number.
fn with_number(alloc: Global, name: &str, n: u32) -> Result<Vec<u8>, AllocError>
    ensures line { IfOk result (λ text. text.items ≡ line_with name.now (decimal n)) }
    ensures some { IfOk result (λ text. text.items ≢ []) }
{
    Ok(format!(in alloc; "input {name} {n}\n")?.into_bytes())
}

/// ... and two numbers.
fn with_numbers(alloc: Global, name: &str, m: u32, n: u32) -> Result<Vec<u8>, AllocError>
    ensures line { IfOk result (λ text. text.items ≡ numbers_line name.now m n) }
    ensures some { IfOk result (λ text. text.items ≢ []) }
{
    Ok(format!(in alloc; "input {name} {m} {n}\n")?.into_bytes())
}
