//! The operands of a check of several signatures, read where they lie.

ghost use Rattle.std.specs.Prelude.{◌≡◌, ◌+◌, ◌≤◌, ◌<◌, List, ℕ, length, map, reverse, take, IfOk, IfErr, Ok, Err, ◌∷◌};
ghost use Rattle.opcode_table.specs.Stack.{taken};
ghost use Rattle.opcode_table.specs.Turned.{turned};
ghost use Rattle.opcode_table.specs.Deeds.{number_within, number_taken, keys_taken, sigs_taken, empty_taken, checked_many};
ghost use Rattle.opcode_table.specs.Deeds;
ghost use Rattle.cash_base.specs.Operand.{truth_bytes};

use crate::asks::Asks;
use cash_base::{Cause, Element, MachineCause, read_number};
use tx_context::check_many;

/// The most keys of a check.
const MOST_KEYS: usize = 20;

/// So many elements on top, and before them those below.
pub fn split_top(stack: &[Element], count: usize) -> Result<(&[Element], &[Element]), MachineCause>
    ensures ok { IfOk result (λ parts. taken count (turned stack.now) ≡ Ok (turned parts.1.now, turned parts.0.now)) }
    ensures err { IfErr result (λ cause. taken count (turned stack.now) ≡ Err cause) }
    ensures count { IfOk result (λ parts. length parts.1.now ≡ count) }
    ensures below { IfOk result (λ parts. parts.0.now ≡ take (length parts.0.now) stack.now) }
    ensures all { IfOk result (λ parts. length parts.0.now + count ≡ length stack.now) }
{
    if count > stack.len() {
        return Err(MachineCause::Underflow);
    }
    Ok(stack.split_at(stack.len() - count))
}

/// That a number is one from 0 to so many.
fn number_within(most: usize, n: i64) -> Result<usize, MachineCause>
    ensures ok { IfOk result (λ number. Deeds.number_within most n ≡ Ok number) }
    ensures err { IfErr result (λ cause. Deeds.number_within most n ≡ Err cause) }
    ensures bound { IfOk result (λ number. number ≤ most) }
{
    if n < 0 {
        return Err(MachineCause::KeyCount);
    }
    let number = n as usize;
    if number > most {
        return Err(MachineCause::KeyCount);
    }
    Ok(number)
}

/// The number on top, from 0 to so many, and before it the elements below.
fn number_on(stack: &[Element], most: usize) -> Result<(&[Element], usize), MachineCause>
    ensures ok { IfOk result (λ parts. number_taken most (turned stack.now) ≡ Ok (parts.1, turned parts.0.now)) }
    ensures err { IfErr result (λ cause. number_taken most (turned stack.now) ≡ Err cause) }
    ensures bound { IfOk result (λ parts. parts.1 ≤ most) }
    ensures below { IfOk result (λ parts. parts.0.now ≡ take (length parts.0.now) stack.now) }
    ensures lower { IfOk result (λ parts. length parts.0.now ≤ length stack.now) }
{
    let Some((top, below)) = stack.split_last() else {
        return Err(MachineCause::Underflow);
    };
    match read_number(top.as_slice()) {
        Some(n) => {
            let number = number_within(most, n)?;
            Ok((below, number))
        }
        None => Err(MachineCause::Shared(Cause::NotANumber)),
    }
}

/// The number of keys, or 0 where there is none from 0 to 20 on top.
pub fn keys_on(stack: &[Element]) -> u32
    ensures value { result ≡ Deeds.keys_on (turned stack.now) }
    ensures bound { result ≤ 20 }
{
    match number_on(stack, MOST_KEYS) {
        Ok((_, number)) => number as u32,
        Err(_) => 0,
    }
}

/// The keys on top, and before them the elements below. So many may be counted.
fn split_keys(stack: &[Element], left: u32) -> Result<(&[Element], &[Element]), MachineCause>
    ensures ok { IfOk result (λ parts. keys_taken left (turned stack.now) ≡ Ok (turned parts.1.now, turned parts.0.now)) }
    ensures err { IfErr result (λ cause. keys_taken left (turned stack.now) ≡ Err cause) }
    ensures bound { IfOk result (λ parts. length parts.1.now ≤ 20) }
    ensures below { IfOk result (λ parts. parts.0.now ≡ take (length parts.0.now) stack.now) }
    ensures lower { IfOk result (λ parts. length parts.0.now ≤ length stack.now) }
{
    let (below, number) = number_on(stack, MOST_KEYS)?;
    if number as u32 > left {
        return Err(MachineCause::OpLimit);
    }
    let (rest, keys) = split_top(below, number)?;
    Ok((rest, keys))
}

/// The elements below an empty one.
fn below_empty(stack: &[Element]) -> Result<&[Element], MachineCause>
    ensures ok { IfOk result (λ rest. empty_taken (turned stack.now) ≡ Ok (turned rest.now)) }
    ensures err { IfErr result (λ cause. empty_taken (turned stack.now) ≡ Err cause) }
    ensures below { IfOk result (λ rest. rest.now ≡ take (length rest.now) stack.now) }
    ensures lower { IfOk result (λ rest. length rest.now ≤ length stack.now) }
{
    let Some((dummy, rest)) = stack.split_last() else {
        return Err(MachineCause::Underflow);
    };
    if dummy.is_empty() {
        Ok(rest)
    } else {
        Err(MachineCause::CheckBits)
    }
}

/// The signatures on top, at most so many, and before them the elements below.
fn split_sigs(stack: &[Element], most: usize) -> Result<(&[Element], &[Element]), MachineCause>
    ensures ok { IfOk result (λ parts. sigs_taken most (turned stack.now) ≡ Ok (turned parts.1.now, turned parts.0.now)) }
    ensures err { IfErr result (λ cause. sigs_taken most (turned stack.now) ≡ Err cause) }
    ensures bound { IfOk result (λ parts. length parts.1.now ≤ most) }
    ensures below { IfOk result (λ parts. parts.0.now ≡ take (length parts.0.now) stack.now) }
    ensures lower { IfOk result (λ parts. length parts.0.now ≤ length stack.now) }
{
    let (below, number) = number_on(stack, most)?;
    let (rest, sigs) = split_top(below, number)?;
    let rest = below_empty(rest)?;
    Ok((rest, sigs))
}

/// Whether the check of several signatures on top is met, and how many elements lie below its operands.
pub fn judge(stack: &[Element], asks: &Asks<'_>) -> Result<(bool, usize), MachineCause>
    ensures ok { IfOk result (λ parts. checked_many asks.now (turned stack.now)
        ≡ Ok (truth_bytes parts.0 ∷ turned (take parts.1 stack.now))) }
    ensures err { IfErr result (λ cause. checked_many asks.now (turned stack.now) ≡ Err cause) }
    ensures lower { IfOk result (λ parts. parts.1 < length stack.now) }
{
    let (rest, keys) = split_keys(stack, asks.left)?;
    let (rest, sigs) = split_sigs(rest, keys.len())?;
    match check_many(asks.verdicts, sigs, keys) {
        Ok(is_met) => Ok((is_met, rest.len())),
        Err(cause) => Err(MachineCause::Shared(cause)),
    }
}
