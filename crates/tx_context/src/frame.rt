//! Frames: a transaction in which the locking bytecode of the spend is left open.

ghost use Rattle.std.specs.Prelude.{◌≡◌, ◌≤◌, ◌<◌, ◌+◌, ◌^◌, length, map, option_to_list, OnOk, IfOk, IfErr, IfSome, IfNone, IsTrue, vec_len};
ghost use Rattle.std.specs.List.{position_from, list_any, list_all};
ghost use Rattle.tx_context.specs.Bytes.{are_bytes};
ghost use Rattle.tx_context.specs.Transaction.{transaction};
ghost use Rattle.tx_context.specs.Limits.{IsFrame, checked_frame, count_check, value_check, bytecode_check, bytecodes_of, is_great_value, is_long, is_typed_input, is_typed_output};
ghost use Rattle.tx_context.specs.Given.{given_bytes};

use crate::laws::are_below_256;
use crate::part::{Bytecode, Input, Output};
use std::marker::Model;
use thiserror::Error;

/// The greatest version of a frame, 2^31 - 1.
pub const GREATEST_VERSION: u32 = 2_147_483_647;

/// A frame has at most so many inputs.
pub const MOST_INPUTS: usize = 1000;

/// A frame has at most so many outputs.
pub const MOST_OUTPUTS: usize = 1000;

/// The greatest value of an input or an output, in satoshis, 2^63 - 1.
pub const GREATEST_VALUE: u64 = 9_223_372_036_854_775_807;

/// A bytecode of a frame, and so each script of a spend, has at most so many bytes.
pub const LONGEST_BYTECODE: usize = 20_000;

/// Why parts make no frame. An index counts the inputs and then the outputs, from 0.
#[derive(Clone, Copy, Debug, PartialEq, Eq, Error)]
pub enum FrameFault {
    /// The version is above 2,147,483,647.
    #[error("the version is above 2147483647")]
    Version,
    /// There is no input.
    #[error("there is no input")]
    NoInput,
    /// There are so many inputs, above 1,000; or no more inputs than that, and so many outputs.
    #[error("there are {count} inputs or outputs, and at most 1000 of each are allowed")]
    TooMany {
        /// How many there are.
        count: u32,
    },
    /// A value is above 9,223,372,036,854,775,807 satoshis.
    #[error("the value at {index} is above 9223372036854775807")]
    Value {
        /// The first such input or output.
        index: u32,
    },
    /// A bytecode has more than 20,000 bytes.
    #[error("a bytecode at {index} has more than 20000 bytes")]
    BytecodeLength {
        /// The first input or output with such a bytecode.
        index: u32,
    },
    /// The index of the active input isn't below the number of inputs.
    #[error("the index of the active input is not below the number of inputs")]
    ActiveRange,
}

/// A transaction in which the locking bytecode of the spend is left open, within this project's limits.
///
/// Its version is at most 2,147,483,647; it has 1 to 1,000 inputs, of which one is the active one that is spent, and up
/// to 1,000 outputs; values are at most 9,223,372,036,854,775,807, and bytecodes have at most 20,000 bytes.
#[derive(Debug, Drop)]
pub struct Frame {
    version: u32,
    locktime: u32,
    inputs: Vec<Input>,
    outputs: Vec<Output>,
    active: u32,
}

impl Model for Frame {
    ghost use Rattle.tx_context.specs.Transaction.{Transaction, Locking, transaction};
    ghost use Rattle.tx_context.specs.Limits.{IsFrame};

    ghost Value = { Transaction Locking };

    ghost view = { λ f. transaction f.version f.locktime f.inputs.items f.outputs.items f.active };

    ghost invariant = { λ f. IsFrame (transaction f.version f.locktime f.inputs.items f.outputs.items f.active) };
}

impl Frame {
    /// The frame of these parts, or their first fault in the order in which the faults are listed. A fault drops the
    /// parts. It takes no memory.
    pub fn new(
        version: u32,
        locktime: u32,
        inputs: Vec<Input>,
        outputs: Vec<Output>,
        active: u32,
    ) -> Result<Frame, FrameFault>
        requires inputs_count { vec_len inputs < 2 ^ 32 }
        requires outputs_count { vec_len outputs < 2 ^ 32 }
        ensures ok { IfOk result (λ frame.
            checked_frame (transaction version locktime inputs.items outputs.items active) ≡ Ok frame) }
        ensures fault { IfErr result (λ fault.
            checked_frame (transaction version locktime inputs.items outputs.items active) ≡ Err fault) }
    {
        check_counts(version, &inputs, &outputs)?;
        check_values(&inputs, &outputs)?;
        check_bytecodes(&inputs, &outputs)?;
        if active as usize >= inputs.len() {
            return Err(FrameFault::ActiveRange);
        }
        Ok(Frame {
            version,
            locktime,
            inputs,
            outputs,
            active,
        })
    }

    /// The version.
    pub fn version(&self) -> u32
        ensures value { result ≡ self.now.version }
        ensures frame { IsFrame self.now }
    {
        self.version
    }

    /// The lock time.
    pub fn locktime(&self) -> u32
        ensures value { result ≡ self.now.locktime }
        ensures frame { IsFrame self.now }
    {
        self.locktime
    }

    /// The inputs.
    pub fn inputs(&self) -> &[Input]
        ensures value { result.now ≡ self.now.inputs }
        ensures frame { IsFrame self.now }
    {
        self.inputs.as_slice()
    }

    /// The outputs.
    pub fn outputs(&self) -> &[Output]
        ensures value { result.now ≡ self.now.outputs }
        ensures frame { IsFrame self.now }
    {
        self.outputs.as_slice()
    }

    /// The index of the active input, which is below the number of inputs.
    #[tactic(auto, using(crate::proofs::Amounts::active_in_frame))]
    pub fn active(&self) -> u32
        ensures value { result ≡ self.now.active }
        ensures within { result < length self.now.inputs }
        ensures frame { IsFrame self.now }
    {
        self.active
    }
}

// The tests of the version and of the numbers of inputs and outputs.
fn check_counts(version: u32, inputs: &[Input], outputs: &[Output]) -> Result<(), FrameFault>
    requires inputs_count { length inputs.now < 2 ^ 32 }
    requires outputs_count { length outputs.now < 2 ^ 32 }
    ensures check { result ≡ count_check version inputs.now outputs.now }
    ensures inputs { OnOk result (length inputs.now ≤ MOST_INPUTS) }
    ensures outputs { OnOk result (length outputs.now ≤ MOST_OUTPUTS) }
{
    if version > GREATEST_VERSION {
        return Err(FrameFault::Version);
    }
    if inputs.is_empty() {
        return Err(FrameFault::NoInput);
    }
    if inputs.len() > MOST_INPUTS {
        return Err(FrameFault::TooMany {
            count: inputs.len() as u32,
        });
    }
    if outputs.len() > MOST_OUTPUTS {
        return Err(FrameFault::TooMany {
            count: outputs.len() as u32,
        });
    }
    Ok(())
}

// The test of each value.
#[tactic(auto, using(crate::proofs::Places::place_ahead, crate::proofs::Places::place_after))]
fn check_values(inputs: &[Input], outputs: &[Output]) -> Result<(), FrameFault>
    requires inputs_count { length inputs.now ≤ MOST_INPUTS }
    requires outputs_count { length outputs.now ≤ MOST_OUTPUTS }
    ensures { result ≡ value_check inputs.now outputs.now }
{
    if let Some(i) = great_input(inputs) {
        return Err(FrameFault::Value { index: i as u32 });
    }
    if let Some(i) = great_output(outputs, inputs.len()) {
        return Err(FrameFault::Value { index: i as u32 });
    }
    Ok(())
}

// The first input whose value is too great.
fn great_input(inputs: &[Input]) -> Option<usize>
    ensures place { result ≡ position_from is_great_value 0 (map (λ i. i.value) inputs.now) }
    ensures within { IfSome result (λ i. i < length inputs.now) }
{
    for (i, input) in inputs.iter().enumerate() {
        if input.value > GREATEST_VALUE {
            return Some(i);
        }
    }
    None
}

// The first output whose value is too great, counted after so many inputs.
fn great_output(outputs: &[Output], inputs: usize) -> Option<usize>
    requires { inputs + length outputs.now ≤ MOST_INPUTS + MOST_OUTPUTS }
    ensures place { result ≡ position_from is_great_value inputs (map (λ o. o.value) outputs.now) }
    ensures within { IfSome result (λ i. i < inputs + length outputs.now) }
{
    for (i, output) in outputs.iter().enumerate() {
        if output.value > GREATEST_VALUE {
            return Some(inputs + i);
        }
    }
    None
}

// The test of each bytecode.
#[tactic(auto, using(crate::proofs::Places::place_ahead, crate::proofs::Places::place_after))]
fn check_bytecodes(inputs: &[Input], outputs: &[Output]) -> Result<(), FrameFault>
    requires inputs_count { length inputs.now ≤ MOST_INPUTS }
    requires outputs_count { length outputs.now ≤ MOST_OUTPUTS }
    ensures check { result ≡ bytecode_check option_to_list inputs.now outputs.now }
    ensures typed_inputs { OnOk result (IsTrue (list_all (is_typed_input option_to_list) inputs.now)) }
    ensures typed_outputs { OnOk result (IsTrue (list_all (is_typed_output option_to_list) outputs.now)) }
{
    if let Some(i) = long_input(inputs) {
        return Err(FrameFault::BytecodeLength { index: i as u32 });
    }
    if let Some(i) = long_output(outputs, inputs.len()) {
        return Err(FrameFault::BytecodeLength { index: i as u32 });
    }
    Ok(())
}

// The first input with a bytecode that is too long.
fn long_input(inputs: &[Input]) -> Option<usize>
    ensures place { result ≡ position_from (list_any is_long) 0 (map (bytecodes_of option_to_list) inputs.now) }
    ensures within { IfSome result (λ i. i < length inputs.now) }
    ensures typed { IfNone result (IsTrue (list_all (is_typed_input option_to_list) inputs.now)) }
{
    for (place, input) in inputs.iter().enumerate() {
        if has_long_bytecode(input) {
            return Some(place);
        }
    }
    None
}

// Whether one of its bytecodes is too long.
fn has_long_bytecode(input: &Input) -> bool
    ensures value { result ≡ list_any is_long (bytecodes_of option_to_list input.now) }
    ensures typed { IsTrue (is_typed_input option_to_list input.now) }
{
    // laws
    are_below_256(&input.hash);
    are_below_256(&input.unlocking);

    is_long_locking(&input.locking) || input.unlocking.len() > LONGEST_BYTECODE
}

// The first output with a bytecode that is too long, counted after so many inputs.
fn long_output(outputs: &[Output], inputs: usize) -> Option<usize>
    requires { inputs + length outputs.now ≤ MOST_INPUTS + MOST_OUTPUTS }
    ensures place { result ≡
        position_from (list_any is_long) inputs (map (λ o. option_to_list o.locking) outputs.now) }
    ensures within { IfSome result (λ i. i < inputs + length outputs.now) }
    ensures typed { IfNone result (IsTrue (list_all (is_typed_output option_to_list) outputs.now)) }
{
    for (place, output) in outputs.iter().enumerate() {
        if is_long_locking(&output.locking) {
            return Some(inputs + place);
        }
    }
    None
}

// Whether the bytes are given and too many.
fn is_long_locking(locking: &Bytecode) -> bool
    ensures value { result ≡ list_any is_long (option_to_list (given_bytes locking.now)) }
    ensures typed { IsTrue (list_all are_bytes (option_to_list (given_bytes locking.now))) }
{
    match locking {
        Bytecode::Given(bytes) => {
            // a law
            are_below_256(bytes);
            bytes.len() > LONGEST_BYTECODE
        }
        Bytecode::Own => false,
    }
}
