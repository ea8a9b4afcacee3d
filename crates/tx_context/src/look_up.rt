//! What a spend can be asked about its transaction, and its two locks in time.

ghost use Rattle.std.specs.Prelude.{◌≡◌, ◌^◌, ◌<◌, false, Ok, Err, IfOk, IfErr};
ghost use Rattle.tx_context.specs.Limits.{is_great_value};
ghost use Rattle.tx_context.specs.Lookup.{number_bytes, sized, context_value, item_at, value_at, indexed_value, active_sequence, is_no_lock, differs_in_kind, is_time_missed, time_outcome, has_bit, is_age_missed, age_outcome};

use crate::context::Context;
use crate::part::{ContextInput, ContextOutput};
use cash_base::element::copy_of;
use cash_base::{Cause, Element, Look0, LookAt, MAX_ELEMENT_LEN, operand, write_number};

const LONGEST_LOCK: usize = 5;

// Lock times from here on are times, and others are heights.
const FIRST_TIME: u64 = 500_000_000;

// The sequence number of an input that takes no part in locks.
const FINAL_SEQUENCE: u32 = 0xffff_ffff;

// Where this bit is set, an age doesn't count.
const OFF_BIT: u32 = 31;

// Where this bit is set, an age is a time, and otherwise a number of blocks.
const TIME_BIT: u32 = 22;

// An age is the number of the low 16 bits.
const AGE_LIMIT: u64 = 1 << 16;

/// What is asked of the whole transaction, where `active` is the active bytecode.
///
/// `Oversize` comes exactly where the active bytecode is asked for and has more than 520 bytes. It takes no memory.
/// Source: CHIP-2021-02, native introspection.
#[tactic(auto, using(crate::proofs::Amounts::few_inputs, crate::proofs::Amounts::few_outputs))]
pub fn look0(ctx: &Context, what: Look0, active: &[u8]) -> Result<Element, Cause>
    ensures value { IfOk result (λ e. context_value ctx.now what active.now ≡ Ok e.items) }
    ensures cause { IfErr result (λ cause. context_value ctx.now what active.now ≡ Err cause) }
{
    match what {
        Look0::Version => Ok(number_element(u64::from(ctx.version()))),
        Look0::Locktime => Ok(number_element(u64::from(ctx.locktime()))),
        Look0::InputCount => Ok(number_element(ctx.inputs().len() as u64)),
        Look0::OutputCount => Ok(number_element(ctx.outputs().len() as u64)),
        Look0::ActiveIndex => Ok(number_element(u64::from(ctx.active()))),
        Look0::ActiveBytecode => {
            let element = sized_element(active)?;
            Ok(element)
        }
    }
}

/// What is asked of the input or the output at an index, which is an element of the stack.
///
/// `NotANumber` comes exactly where the index is no number, then `IndexRange` exactly where it is negative or not below
/// the number of inputs or outputs, and then `Oversize` exactly where a bytecode has more than 520 bytes. The outpoint
/// hash has the order of the transaction's bytes. It takes no memory. Source: CHIP-2021-02, native introspection.
pub fn look_at(ctx: &Context, what: LookAt, index: &[u8]) -> Result<Element, Cause>
    ensures value { IfOk result (λ e. indexed_value ctx.now what index.now ≡ Ok e.items) }
    ensures cause { IfErr result (λ cause. indexed_value ctx.now what index.now ≡ Err cause) }
{
    let n = operand(index)?;
    let element = element_at(ctx, what, n)?;
    Ok(element)
}

// What is asked of the input or the output at a number.
fn element_at(ctx: &Context, what: LookAt, n: i64) -> Result<Element, Cause>
    ensures value { IfOk result (λ e. value_at ctx.now what n ≡ Ok e.items) }
    ensures cause { IfErr result (λ cause. value_at ctx.now what n ≡ Err cause) }
{
    match what {
        LookAt::UtxoValue => {
            let input = input_at(ctx, n)?;
            Ok(amount_element(input.value))
        }
        LookAt::UtxoBytecode => {
            let input = input_at(ctx, n)?;
            let element = sized_element(&input.locking)?;
            Ok(element)
        }
        LookAt::OutpointHash => {
            let input = input_at(ctx, n)?;
            Ok(copy_of(&input.hash))
        }
        LookAt::OutpointIndex => {
            let input = input_at(ctx, n)?;
            Ok(number_element(u64::from(input.index)))
        }
        LookAt::InputBytecode => {
            let input = input_at(ctx, n)?;
            let element = sized_element(&input.unlocking)?;
            Ok(element)
        }
        LookAt::InputSequence => {
            let input = input_at(ctx, n)?;
            Ok(number_element(u64::from(input.sequence)))
        }
        LookAt::OutputValue => {
            let output = output_at(ctx, n)?;
            Ok(amount_element(output.value))
        }
        LookAt::OutputBytecode => {
            let output = output_at(ctx, n)?;
            let element = sized_element(&output.locking)?;
            Ok(element)
        }
    }
}

fn number_element(n: u64) -> Element
    requires { n < 2 ^ 63 }
    ensures { result.items ≡ number_bytes n }
{
    write_number(n as i64)
}

fn amount_element(amount: u64) -> Element
    requires { is_great_value amount ≡ false }
    ensures { result.items ≡ number_bytes amount }
{
    number_element(amount)
}

fn sized_element(bytes: &[u8]) -> Result<Element, Cause>
    ensures value { IfOk result (λ e. sized bytes.now ≡ Ok e.items) }
    ensures cause { IfErr result (λ cause. sized bytes.now ≡ Err cause) }
{
    if bytes.len() > MAX_ELEMENT_LEN {
        return Err(Cause::Oversize);
    }
    Ok(copy_of(bytes))
}

#[tactic(auto, using(crate::proofs::Amounts::input_amount))]
fn input_at(ctx: &Context, n: i64) -> Result<&ContextInput, Cause>
    ensures value { IfOk result (λ i. item_at n ctx.now.inputs ≡ Ok i.now) }
    ensures cause { IfErr result (λ cause. item_at n ctx.now.inputs ≡ Err cause) }
    ensures amount { IfOk result (λ i. is_great_value i.now.value ≡ false) }
{
    let input = item(ctx.inputs(), n)?;
    Ok(input)
}

#[tactic(auto, using(crate::proofs::Amounts::output_amount))]
fn output_at(ctx: &Context, n: i64) -> Result<&ContextOutput, Cause>
    ensures value { IfOk result (λ o. item_at n ctx.now.outputs ≡ Ok o.now) }
    ensures cause { IfErr result (λ cause. item_at n ctx.now.outputs ≡ Err cause) }
    ensures amount { IfOk result (λ o. is_great_value o.now.value ≡ false) }
{
    let output = item(ctx.outputs(), n)?;
    Ok(output)
}

// The item at a number that is an index.
fn item<T>(items: &[T], n: i64) -> Result<&T, Cause>
    ensures value { IfOk result (λ x. item_at n items.now ≡ Ok x.now) }
    ensures cause { IfErr result (λ cause. item_at n items.now ≡ Err cause) }
{
    if n < 0 {
        return Err(Cause::IndexRange);
    }
    match items.get(n as usize) {
        Some(item) => Ok(item),
        None => Err(Cause::IndexRange),
    }
}

/// Whether the transaction's lock time is at least the number of an element.
///
/// `NotANumber` comes exactly where the element is no number. `LockTime` comes exactly where the number has more than 5
/// bytes, is negative, lies on the other side of 500,000,000 than the lock time, is greater than it, or the active
/// input's sequence number is 4,294,967,295. It takes no memory.
/// Source: BIP-65 and the Bitcoin Cash specification, OP_CHECKLOCKTIMEVERIFY.
pub fn time_met(ctx: &Context, e: &[u8]) -> Result<(), Cause>
    ensures { result ≡ time_outcome ctx.now e.now }
{
    let n = operand(e)?;
    if is_no_lock_number(e, n) || is_before(ctx, n.unsigned_abs()) {
        return Err(Cause::LockTime);
    }
    Ok(())
}

// Whether it has more than five bytes, or is negative.
fn is_no_lock_number(e: &[u8], n: i64) -> bool
    ensures { result ≡ is_no_lock e.now n }
{
    e.len() > LONGEST_LOCK || n < 0
}

// Whether the wanted lock time is of the other kind than the transaction's, or later, or the transaction's doesn't count.
fn is_before(ctx: &Context, n: u64) -> bool
    ensures { result ≡ is_time_missed ctx.now n }
{
    let locktime = u64::from(ctx.locktime());
    is_of_other_kind(n, locktime) || locktime < n || sequence(ctx) == FINAL_SEQUENCE
}

// Whether one is a height and the other a time.
fn is_of_other_kind(a: u64, b: u64) -> bool
    ensures { result ≡ differs_in_kind a b }
{
    if a < FIRST_TIME {
        b >= FIRST_TIME
    } else {
        b < FIRST_TIME
    }
}

// The sequence number of the active input.
fn sequence(ctx: &Context) -> u32
    ensures { result ≡ active_sequence ctx.now }
{
    match ctx.inputs().get(ctx.active() as usize) {
        Some(input) => input.sequence,
        None => 0,
    }
}

/// Whether the output that is spent is as old as the number of an element says.
///
/// `NotANumber` comes exactly where the element is no number, and `Age` where it has more than 5 bytes or is negative.
/// Where bit 31 of the number is set, nothing is asked. Otherwise `Age` comes exactly where the version is below 2, bit
/// 31 of the active input's sequence number is set, bit 22 differs in both, or the low 16 bits of the sequence number
/// are less than those of the number. It takes no memory.
/// Source: BIP-112, BIP-68 and the Bitcoin Cash specification, OP_CHECKSEQUENCEVERIFY.
pub fn age_met(ctx: &Context, e: &[u8]) -> Result<(), Cause>
    ensures { result ≡ age_outcome ctx.now e.now }
{
    let n = operand(e)?;
    if is_no_lock_number(e, n) {
        return Err(Cause::Age);
    }
    let n = n.unsigned_abs();
    if !is_set(OFF_BIT, n) && is_too_young(ctx, n) {
        return Err(Cause::Age);
    }
    Ok(())
}

// Whether the bit of this number is set.
fn is_set(bit: u32, n: u64) -> bool
    requires { bit < 64 }
    ensures { result ≡ has_bit bit n }
{
    (n >> bit) % 2 == 1
}

// Whether the age isn't reached, or doesn't count.
fn is_too_young(ctx: &Context, n: u64) -> bool
    ensures { result ≡ is_age_missed ctx.now n }
{
    let sequence = u64::from(sequence(ctx));
    ctx.version() < 2
        || is_set(OFF_BIT, sequence)
        || is_set(TIME_BIT, n) != is_set(TIME_BIT, sequence)
        || sequence % AGE_LIMIT < n % AGE_LIMIT
}
