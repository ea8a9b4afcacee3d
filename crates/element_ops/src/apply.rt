//! Applying an operation: one clause a call, that the answer is that of the table.

ghost use Rattle.std.specs.Prelude.{◌≡◌, ◌≤◌, length, Ok, Err, IfOk, IfErr};
ghost use Rattle.element_ops.specs.Operation.{result1, result2, result3};

use crate::bytes::{Bits, backwards, bytewise, join, pad, shorten};
use crate::hashes::{hash160, hash256, ripemd160_element, sha1_element, sha256_element};
use crate::numbers::{on_number, on_numbers, on_three};
use crate::op::{Op1, Op2, Op3};
use crate::operand::truth_element;
use cash_base::{Cause, Element, operand, write_number};

/// Applies an operation to an element of at most 520 bytes.
///
/// The answer is what the operation's row of `table1` gives: an element or a cause. It takes no memory.
pub fn apply1(op: Op1, a: &[u8]) -> Result<Element, Cause>
    requires { length a.now ≤ 520 }
    ensures value { IfOk result (λ e. result1 op a.now ≡ Ok e.items) }
    ensures cause { IfErr result (λ cause. result1 op a.now ≡ Err cause) }
{
    match op {
        Op1::Size => Ok(write_number(a.len() as i64)),
        Op1::Reverse => Ok(backwards(a)),
        Op1::ToNumber => shorten(a),
        Op1::Ripemd160 => Ok(ripemd160_element(a)),
        Op1::Sha1 => Ok(sha1_element(a)),
        Op1::Sha256 => Ok(sha256_element(a)),
        Op1::Hash160 => Ok(hash160(a)),
        Op1::Hash256 => Ok(hash256(a)),
        _ => on_number(op, operand(a)?),
    }
}

/// Applies an operation to two elements of at most 520 bytes, of which the first lies deeper.
///
/// The answer is what the operation's row of `table2` gives: an element or a cause. It takes no memory.
pub fn apply2(op: Op2, a: &[u8], b: &[u8]) -> Result<Element, Cause>
    requires first { length a.now ≤ 520 }
    requires second { length b.now ≤ 520 }
    ensures value { IfOk result (λ e. result2 op a.now b.now ≡ Ok e.items) }
    ensures cause { IfErr result (λ cause. result2 op a.now b.now ≡ Err cause) }
{
    match op {
        Op2::Equal => Ok(truth_element(a == b)),
        Op2::And => bytewise(Bits::And, a, b),
        Op2::Or => bytewise(Bits::Or, a, b),
        Op2::Xor => bytewise(Bits::Xor, a, b),
        Op2::Cat => join(a, b),
        Op2::Pad => pad(a, b),
        _ => on_numbers(op, operand(a)?, operand(b)?),
    }
}

/// Applies an operation to three elements of at most 520 bytes, of which the first lies deepest.
///
/// The answer is what the operation's row of `table3` gives: an element or a cause. It takes no memory.
pub fn apply3(op: Op3, a: &[u8], b: &[u8], c: &[u8]) -> Result<Element, Cause>
    requires first { length a.now ≤ 520 }
    requires second { length b.now ≤ 520 }
    requires third { length c.now ≤ 520 }
    ensures value { IfOk result (λ e. result3 op a.now b.now c.now ≡ Ok e.items) }
    ensures cause { IfErr result (λ cause. result3 op a.now b.now c.now ≡ Err cause) }
{
    let x = operand(a)?;
    let y = operand(b)?;
    let z = operand(c)?;
    Ok(truth_element(on_three(op, x, y, z)))
}
