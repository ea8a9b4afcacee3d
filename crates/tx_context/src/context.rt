//! Contexts: a transaction with every bytecode, in which one input is spent.

ghost use Rattle.std.specs.Prelude.{◌≡◌, ◌≤◌, ◌<◌, Bool, length, map, slice_get, IfOk, Some, unwrap_or, if◌then◌else◌};
ghost use Rattle.std.specs.List.{enumerate_from};
ghost use Rattle.tx_context.specs.Transaction.{transaction};
ghost use Rattle.tx_context.specs.Limits.{IsContext, IsFrame};
ghost use Rattle.tx_context.specs.Given.{given_bytes};
ghost use Rattle.tx_context.specs.World.{filled_context, filled_input, filled_inputs, filled_output};

use crate::frame::{Frame, LONGEST_BYTECODE};
use crate::laws::are_below_256;
use crate::part::{Bytecode, ContextInput, ContextOutput, Input, Output};
use cash_base::Memory;
use std::alloc::Global;
use std::marker::Model;

/// A frame in which no locking bytecode is left open: what a spend can be asked about.
#[derive(Debug, Drop)]
pub struct Context {
    version: u32,
    locktime: u32,
    inputs: Vec<ContextInput>,
    outputs: Vec<ContextOutput>,
    active: u32,
}

impl Model for Context {
    ghost use Rattle.std.specs.Prelude.{List, ℕ};
    ghost use Rattle.tx_context.specs.Transaction.{Transaction, transaction};
    ghost use Rattle.tx_context.specs.Limits.{IsContext};

    ghost Value = { Transaction (List ℕ) };

    ghost view = { λ x. transaction x.version x.locktime x.inputs.items x.outputs.items x.active };

    ghost invariant = { λ x.
        IsContext (transaction x.version x.locktime x.inputs.items x.outputs.items x.active) };
}

impl Context {
    /// The version.
    pub fn version(&self) -> u32
        ensures value { result ≡ self.now.version }
        ensures context { IsContext self.now }
    {
        self.version
    }

    /// The lock time.
    pub fn locktime(&self) -> u32
        ensures value { result ≡ self.now.locktime }
        ensures context { IsContext self.now }
    {
        self.locktime
    }

    /// The inputs.
    pub fn inputs(&self) -> &[ContextInput]
        ensures value { result.now ≡ self.now.inputs }
        ensures context { IsContext self.now }
    {
        self.inputs.as_slice()
    }

    /// The outputs.
    pub fn outputs(&self) -> &[ContextOutput]
        ensures value { result.now ≡ self.now.outputs }
        ensures context { IsContext self.now }
    {
        self.outputs.as_slice()
    }

    /// The index of the active input, which is below the number of inputs.
    #[tactic(auto, using(crate::proofs::Amounts::active_in_context))]
    pub fn active(&self) -> u32
        ensures value { result ≡ self.now.active }
        ensures within { result < length self.now.inputs }
        ensures context { IsContext self.now }
    {
        self.active
    }

    /// The input that is spent, whose bytecodes have at most 20,000 bytes each.
    #[tactic(auto, using(crate::proofs::Amounts::short_locking, crate::proofs::Amounts::short_unlocking))]
    pub fn spent_input(&self) -> &ContextInput
        ensures value { slice_get self.now.inputs self.now.active ≡ Some result.now }
        ensures locking { length result.now.locking ≤ LONGEST_BYTECODE }
        ensures unlocking { length result.now.unlocking ≤ LONGEST_BYTECODE }
    {
        &self.inputs()[self.active() as usize]
    }
}

/// The context of a frame whose active input is spent by these two scripts, each of at most 20,000 bytes. `Memory` comes where
/// memory ran out.
///
/// Every locking bytecode that the frame leaves open is `locking`. The active input has the bytecodes `locking` and
/// `unlocking`, whatever the frame says of them. All else is as in the frame.
#[tactic(auto, using(crate::proofs::Filling::context_of_frame))]
pub fn fill(
    alloc: Global,
    frame: &Frame,
    locking: &[u8],
    unlocking: &[u8],
) -> Result<Context, Memory>
    requires locking_length { length locking.now ≤ LONGEST_BYTECODE }
    requires unlocking_length { length unlocking.now ≤ LONGEST_BYTECODE }
    ensures { IfOk result (λ context. context ≡ filled_context frame.now locking.now unlocking.now) }
{
    // laws
    are_below_256(locking);
    are_below_256(unlocking);

    let inputs = fill_inputs(alloc, frame.inputs(), frame.active(), locking, unlocking)?;
    let outputs = fill_outputs(alloc, frame.outputs(), locking)?;
    Ok(Context {
        version: frame.version(),
        locktime: frame.locktime(),
        inputs,
        outputs,
        active: frame.active(),
    })
}

// The inputs of the context.
fn fill_inputs(
    alloc: Global,
    inputs: &[Input],
    active: u32,
    locking: &[u8],
    unlocking: &[u8],
) -> Result<Vec<ContextInput>, Memory>
    ensures { IfOk result (λ filled.
        filled.items ≡ filled_inputs active locking.now unlocking.now (enumerate_from 0 inputs.now)) }
{
    let mut filled = Vec::new(alloc);
    for (place, input) in inputs.iter().enumerate() {
        let input = fill_input(alloc, place == active as usize, input, locking, unlocking)?;
        filled.push(input)?;
    }
    Ok(filled)
}

// An input of the context.
fn fill_input(
    alloc: Global,
    is_active: bool,
    input: &Input,
    locking: &[u8],
    unlocking: &[u8],
) -> Result<ContextInput, Memory>
    ensures { IfOk result (λ filled. filled ≡ filled_input is_active locking.now unlocking.now input.now) }
{
    let locking = locking_of(is_active, input, locking);
    let unlocking = unlocking_of(is_active, input, unlocking);
    Ok(ContextInput {
        hash: input.hash,
        index: input.index,
        sequence: input.sequence,
        value: input.value,
        locking: Vec::from_slice(alloc, locking)?,
        unlocking: Vec::from_slice(alloc, unlocking)?,
    })
}

// The locking bytecode of an input: the one of the spend where it is active.
fn locking_of<'a>(is_active: bool, input: &'a Input, own: &'a [u8]) -> &'a [u8]
    ensures { result.now ≡ (if is_active then own.now else unwrap_or input.now.locking own.now) }
{
    if is_active {
        own
    } else {
        given_or(&input.locking, own)
    }
}

// The unlocking bytecode of an input: the one of the spend where it is active.
fn unlocking_of<'a>(is_active: bool, input: &'a Input, own: &'a [u8]) -> &'a [u8]
    ensures { result.now ≡ (if is_active then own.now else input.now.unlocking) }
{
    if is_active {
        own
    } else {
        input.unlocking.as_slice()
    }
}

// The bytes, where they are given, or else those of the spend.
fn given_or<'a>(locking: &'a Bytecode, own: &'a [u8]) -> &'a [u8]
    ensures { result.now ≡ unwrap_or (given_bytes locking.now) own.now }
{
    match locking {
        Bytecode::Given(bytes) => bytes.as_slice(),
        Bytecode::Own => own,
    }
}

// The outputs of the context.
fn fill_outputs(
    alloc: Global,
    outputs: &[Output],
    locking: &[u8],
) -> Result<Vec<ContextOutput>, Memory>
    ensures { IfOk result (λ filled. filled.items ≡ map (filled_output locking.now) outputs.now) }
{
    let mut filled = Vec::new(alloc);
    for output in outputs {
        let output = fill_output(alloc, output, locking)?;
        filled.push(output)?;
    }
    Ok(filled)
}

// An output of the context.
fn fill_output(alloc: Global, output: &Output, locking: &[u8]) -> Result<ContextOutput, Memory>
    ensures { IfOk result (λ filled. filled ≡ filled_output locking.now output.now) }
{
    let locking = given_or(&output.locking, locking);
    Ok(ContextOutput {
        value: output.value,
        locking: Vec::from_slice(alloc, locking)?,
    })
}
