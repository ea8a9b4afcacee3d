//! What is told of a spend, or of why none is made.

ghost use Rattle.std.specs.Prelude.{◌≡◌, ◌≤◌, ◌++◌, IfOk, OnOk, codes, length};
ghost use Rattle.std.specs.Fmt.{decimal};
ghost use Rattle.spend_debug.specs.Telling;
ghost use Rattle.spend_debug.specs.Telling.{report_lines, script_line, script_lines, verdict_line, where_told, input_line};

use crate::spend_lines::LineFault;
use bch_vm::{MachineOutcome, Which};
use cash_base::{Cause, MachineCause, Memory, Span};
use span_map::line_col_of;
use std::alloc::{AllocError, Global};
use std::marker::Model;
use unlocker::BuildFault;

/// A spend: its three scripts, how the machine ends, and where in the source it fails, if that is known.
#[derive(Drop)]
pub struct Report {
    pub redeem: Vec<u8>,
    pub unlocking: Vec<u8>,
    pub locking: [u8; 23],
    pub outcome: MachineOutcome,
    pub place: Option<Span>,
}

impl Model for Report {
    ghost use Rattle.spend_debug.specs.Telling.{Told};

    ghost Value = { Told };

    ghost view = { λ r. record {
      redeem = r.redeem.items;
      unlocking = r.unlocking.items;
      locking = r.locking;
      outcome = r.outcome;
      place = r.place;
    } };
}

/// Why no spend is made of what is handed in.
#[derive(Clone, Copy, Debug, PartialEq, Eq)]
pub enum InputStop {
    /// A line of arguments is neither `-` nor an even, positive number of hexadecimal digits, or no line feed ends it.
    BadHex,
    /// A line has the digits of more than 520 bytes.
    Range,
    /// There are more than 16 lines.
    TooMany,
    /// There are other than as many elements as parameters.
    WrongCount {
        /// How many parameters there are.
        wanted: u32,
        /// How many elements are given.
        found: u32,
    },
    /// The contract has no such function.
    NoSuchFunction,
    /// A value is none of its parameter's type.
    WrongValue,
    /// A `bytesN` has other than N bytes.
    WrongLength {
        /// How many are wanted.
        wanted: u32,
        /// How many are given.
        found: u32,
    },
    /// A number is too small for an int.
    IntRange,
    /// A value has more than 520 bytes.
    TooLong {
        /// How many it has.
        bytes: u32,
    },
    /// The redeem script has more than 520 bytes.
    RedeemTooLong {
        /// How many it has.
        bytes: u32,
    },
    /// The unlocking script has more than 10,000 bytes.
    UnlockTooLong {
        /// How many it has.
        bytes: u32,
    },
    /// There are pushes where a call is wanted.
    PushesGiven,
}

/// What is told of a fault of a file of arguments, or `None` where memory ran out.
pub fn line_stop(fault: LineFault) -> Option<InputStop>
    ensures { result ≡ Telling.line_stop fault }
{
    match fault {
        LineFault::BadHex => Some(InputStop::BadHex),
        LineFault::Range => Some(InputStop::Range),
        LineFault::TooMany => Some(InputStop::TooMany),
        LineFault::Memory => None,
    }
}

/// What is told where scripts aren't built, or `None` where memory ran out.
pub fn build_stop(fault: BuildFault) -> Option<InputStop>
    ensures { result ≡ Telling.build_stop fault }
{
    match fault {
        BuildFault::WrongCount { wanted, found } => Some(InputStop::WrongCount { wanted, found }),
        BuildFault::NoSuchFunction => Some(InputStop::NoSuchFunction),
        BuildFault::WrongValue => Some(InputStop::WrongValue),
        BuildFault::WrongLength { wanted, found } => Some(InputStop::WrongLength { wanted, found }),
        BuildFault::IntRange => Some(InputStop::IntRange),
        BuildFault::TooLong { bytes } => Some(InputStop::TooLong { bytes }),
        BuildFault::RedeemTooLong { bytes } => Some(InputStop::RedeemTooLong { bytes }),
        BuildFault::UnlockTooLong { bytes } => Some(InputStop::UnlockTooLong { bytes }),
        BuildFault::PushesGiven => Some(InputStop::PushesGiven),
        BuildFault::Memory => None,
    }
}

/// The text of a report on a spend of this source's contract.
///
/// It has the lines `redeem HEX`, `unlocking HEX` and `locking HEX`, and then `accepted`, or `refused WHERE CAUSE opcode
/// N`. WHERE is LINE:COL of the first byte of the place where there is one, both from 1, and otherwise the script. CAUSE
/// is the cause's name, and `CheckFailed` for a false element at the end of a script that has a place. N is the index of
/// the instruction in its script. Each line ends with a line feed. `Memory` comes where memory ran out.
pub fn report_text(alloc: Global, source: &[u8], report: &Report) -> Result<Vec<u8>, Memory>
    requires { length source.now ≤ 2147483647 }
    ensures { IfOk result (λ text. text.items ≡ report_lines source.now report.now) }
{
    let place = told_place(source, report.place);
    let mut text = Vec::new(alloc);
    add_scripts(
        alloc,
        &mut text,
        report.redeem.as_slice(),
        report.unlocking.as_slice(),
        &report.locking,
    )?;
    add_verdict(alloc, &mut text, report.outcome, place)?;
    Ok(text)
}

/// The line and the column at which a place in a source is told, both from 1: those of its first byte. It takes no memory.
pub fn told_place(source: &[u8], place: Option<Span>) -> Option<(u32, u32)>
    requires { length source.now ≤ 2147483647 }
    ensures { result ≡ Telling.told_place source.now place }
{
    let span = place?;
    Some(line_col_of(source, span.from))
}

/// The line that tells why no spend is made: `input`, the fault's name, and `arguments` or the numbers. `Memory` comes where
/// memory ran out.
pub fn input_text(alloc: Global, stop: InputStop) -> Result<Vec<u8>, Memory>
    ensures { IfOk result (λ text. text.items ≡ input_line stop) }
{
    let mut text = Vec::new(alloc);
    match stop {
        InputStop::BadHex => text.extend_from_slice(b"input BadHex arguments\n")?,
        InputStop::Range => text.extend_from_slice(b"input Range arguments\n")?,
        InputStop::TooMany => text.extend_from_slice(b"input TooMany arguments\n")?,
        InputStop::NoSuchFunction => text.extend_from_slice(b"input NoSuchFunction\n")?,
        InputStop::WrongValue => text.extend_from_slice(b"input WrongValue\n")?,
        InputStop::IntRange => text.extend_from_slice(b"input IntRange\n")?,
        InputStop::PushesGiven => text.extend_from_slice(b"input PushesGiven\n")?,
        InputStop::TooLong { bytes } => add_one(alloc, &mut text, "input TooLong ", bytes)?,
        InputStop::RedeemTooLong { bytes } => {
            add_one(alloc, &mut text, "input RedeemTooLong ", bytes)?
        }
        InputStop::UnlockTooLong { bytes } => {
            add_one(alloc, &mut text, "input UnlockTooLong ", bytes)?
        }
        InputStop::WrongCount { wanted, found } => {
            add_two(alloc, &mut text, "input WrongCount ", wanted, found)?
        }
        InputStop::WrongLength { wanted, found } => {
            add_two(alloc, &mut text, "input WrongLength ", wanted, found)?
        }
    }
    Ok(text)
}

/// Adds a line that ends with a number.
fn add_one(alloc: Global, text: &mut Vec<u8>, front: &str, n: u32) -> Result<(), AllocError>
    ensures { OnOk result (text.new.items ≡ text.old.items ++ front.now ++ decimal n ++ codes "\n") }
{
    text.extend_from_slice(front.as_bytes())?;
    add_number(alloc, text, n)?;
    text.extend_from_slice(b"\n")?;
    Ok(())
}

/// Adds a line that ends with two numbers.
fn add_two(alloc: Global, text: &mut Vec<u8>, front: &str, m: u32, n: u32) -> Result<(), AllocError>
    ensures { OnOk result (text.new.items ≡ text.old.items ++ front.now ++ decimal m ++ codes " " ++ decimal n ++ codes "\n") }
{
    text.extend_from_slice(front.as_bytes())?;
    add_number(alloc, text, m)?;
    add_one(alloc, text, " ", n)?;
    Ok(())
}

/// Adds the lines `redeem HEX`, `unlocking HEX` and `locking HEX` of three scripts. The only error is want of memory.
pub fn add_scripts(
    alloc: Global,
    text: &mut Vec<u8>,
    redeem: &[u8],
    unlocking: &[u8],
    locking: &[u8],
) -> Result<(), AllocError>
    ensures { OnOk result (text.new.items ≡ text.old.items ++ script_lines redeem.now unlocking.now locking.now) }
{
    add_script(alloc, text, "redeem", redeem)?;
    add_script(alloc, text, "unlocking", unlocking)?;
    add_script(alloc, text, "locking", locking)?;
    Ok(())
}

/// Adds the line of a script.
fn add_script(
    alloc: Global,
    text: &mut Vec<u8>,
    name: &str,
    script: &[u8],
) -> Result<(), AllocError>
    ensures { OnOk result (text.new.items ≡ text.old.items ++ script_line name.now script.now) }
{
    text.extend_from_slice(name.as_bytes())?;
    text.extend_from_slice(b" ")?;
    text.extend_from_slice(hex::encode(alloc, script)?.as_bytes())?;
    text.extend_from_slice(b"\n")?;
    Ok(())
}

/// Adds the line of the verdict, with LINE:COL where there is a place. The only error is want of memory.
pub fn add_verdict(
    alloc: Global,
    text: &mut Vec<u8>,
    outcome: MachineOutcome,
    place: Option<(u32, u32)>,
) -> Result<(), AllocError>
    ensures { OnOk result (text.new.items ≡ text.old.items ++ verdict_line outcome place) }
{
    match outcome {
        MachineOutcome::Accepted => text.extend_from_slice(b"accepted\n")?,
        MachineOutcome::Refused { script, at, cause } => {
            text.extend_from_slice(b"refused ")?;
            add_where(alloc, text, script, place)?;
            text.extend_from_slice(b" ")?;
            text.extend_from_slice(told_name(cause, place).as_bytes())?;
            text.extend_from_slice(b" opcode ")?;
            add_number(alloc, text, at)?;
            text.extend_from_slice(b"\n")?;
        }
    }
    Ok(())
}

/// Adds where a spend fails.
fn add_where(
    alloc: Global,
    text: &mut Vec<u8>,
    script: Which,
    place: Option<(u32, u32)>,
) -> Result<(), AllocError>
    ensures { OnOk result (text.new.items ≡ text.old.items ++ where_told script place) }
{
    match place {
        None => text.extend_from_slice(script_name(script).as_bytes())?,
        Some((line, column)) => {
            add_number(alloc, text, line)?;
            text.extend_from_slice(b":")?;
            add_number(alloc, text, column)?;
        }
    }
    Ok(())
}

/// Adds a number in decimal digits.
fn add_number(alloc: Global, text: &mut Vec<u8>, n: u32) -> Result<(), AllocError>
    ensures { OnOk result (text.new.items ≡ text.old.items ++ decimal n) }
{
    text.extend_from_slice(format!(in alloc; "{n}")?.as_bytes())?;
    Ok(())
}

/// The name that is told of a cause.
fn told_name(cause: MachineCause, place: Option<(u32, u32)>) -> &'static str
    ensures { result.now ≡ Telling.told_name cause place }
{
    match place {
        Some(_) => placed_name(cause),
        None => machine_name(cause),
    }
}

/// The name that is told of a cause at a place in the source.
fn placed_name(cause: MachineCause) -> &'static str
    ensures { result.now ≡ Telling.placed_name cause }
{
    match cause {
        MachineCause::EndFalse => cause_name(Cause::CheckFailed),
        _ => machine_name(cause),
    }
}

/// The name of a script, as it is told. It takes no memory.
pub fn script_name(script: Which) -> &'static str
    ensures { result.now ≡ Telling.script_name script }
{
    match script {
        Which::Unlocking => "unlocking",
        Which::Locking => "locking",
        Which::Redeem => "redeem",
    }
}

/// The name of a cause that a run of the source has too. It takes no memory.
pub fn cause_name(cause: Cause) -> &'static str
    ensures { result.now ≡ Telling.cause_name cause }
{
    match cause {
        Cause::CheckFailed => "CheckFailed",
        Cause::NotANumber => "NotANumber",
        Cause::NumberRange => "NumberRange",
        Cause::DivideByZero => "DivideByZero",
        Cause::SplitRange => "SplitRange",
        Cause::PadSize => "PadSize",
        Cause::Oversize => "Oversize",
        Cause::LengthDiffers => "LengthDiffers",
        Cause::IndexRange => "IndexRange",
        Cause::NullFail => "NullFail",
        Cause::Malformed => "Malformed",
        Cause::LockTime => "LockTime",
        Cause::Age => "Age",
    }
}

/// The name of a cause of the machine's.
fn machine_name(cause: MachineCause) -> &'static str
    ensures { result.now ≡ Telling.machine_name cause }
{
    match cause {
        MachineCause::Shared(cause) => cause_name(cause),
        MachineCause::Underflow => "Underflow",
        MachineCause::BadOpcode => "BadOpcode",
        MachineCause::Disabled => "Disabled",
        MachineCause::Unbalanced => "Unbalanced",
        MachineCause::NotClean => "NotClean",
        MachineCause::NotPushOnly => "NotPushOnly",
        MachineCause::HashDiffers => "HashDiffers",
        MachineCause::OpLimit => "OpLimit",
        MachineCause::StackLimit => "StackLimit",
        MachineCause::ScriptSize => "ScriptSize",
        MachineCause::PushSize => "PushSize",
        MachineCause::NotMinimal => "NotMinimal",
        MachineCause::KeyCount => "KeyCount",
        MachineCause::CheckBits => "CheckBits",
        MachineCause::Returned => "Returned",
        MachineCause::AltEmpty => "AltEmpty",
        MachineCause::EndFalse => "EndFalse",
        MachineCause::EndEmpty => "EndEmpty",
        MachineCause::Truncated => "Truncated",
    }
}
