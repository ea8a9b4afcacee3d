//! Operations that read an element as bytes.

ghost use Rattle.std.specs.Prelude.{◌≡◌, ◌≤◌, ◌<◌, length, reverse, Ok, Err, IfOk, IfErr};
ghost use Rattle.element_ops.specs.Operation;
ghost use Rattle.element_ops.specs.Operation.{joined, shortened, split_parts, cut};
ghost use Rattle.element_ops.specs.Reads.{bit_of, padded_to};

use crate::width::{of_width, shortest};
use cash_base::element::copy_of;
use cash_base::{Cause, Element, MAX_ELEMENT_LEN, operand};

/// An operation on the bits of two bytes.
#[derive(Clone, Copy)]
pub enum Bits {
    And,
    Or,
    Xor,
}

fn combined(bits: Bits, x: u8, y: u8) -> u8
    ensures { result ≡ bit_of bits x y }
{
    match bits {
        Bits::And => x & y,
        Bits::Or => x | y,
        Bits::Xor => x ^ y,
    }
}

/// Both byte by byte, or `LengthDiffers`.
pub fn bytewise(bits: Bits, a: &[u8], b: &[u8]) -> Result<Element, Cause>
    requires { length a.now ≤ 520 }
    ensures value { IfOk result (λ e. Operation.bytewise (bit_of bits) a.now b.now ≡ Ok e.items) }
    ensures cause { IfErr result (λ cause. Operation.bytewise (bit_of bits) a.now b.now ≡ Err cause) }
{
    if a.len() != b.len() {
        return Err(Cause::LengthDiffers);
    }
    Ok(pairs(bits, a, b))
}

#[tactic(auto, using(crate::proofs::Pairs::pairwise_more, crate::proofs::Pairs::pairwise_ended))]
fn pairs(bits: Bits, a: &[u8], b: &[u8]) -> Element
    requires short { length a.now ≤ 520 }
    requires alike { length a.now ≡ length b.now }
    ensures { result.items ≡ Operation.pairwise (bit_of bits) a.now b.now }
{
    let mut element = Element::new();
    for (i, x) in a.iter().enumerate() {
        element.push(combined(bits, *x, b[i]));
    }
    element
}

/// The bytes of both in order, or `Oversize`.
pub fn join(a: &[u8], b: &[u8]) -> Result<Element, Cause>
    requires first { length a.now ≤ 520 }
    requires second { length b.now ≤ 520 }
    ensures value { IfOk result (λ e. joined a.now b.now ≡ Ok e.items) }
    ensures cause { IfErr result (λ cause. joined a.now b.now ≡ Err cause) }
{
    if a.len() + b.len() > MAX_ELEMENT_LEN {
        return Err(Cause::Oversize);
    }
    let mut element = copy_of(a);
    let _ = element.try_extend_from_slice(b);
    Ok(element)
}

/// The bytes, the last first.
pub fn backwards(a: &[u8]) -> Element
    requires { length a.now ≤ 520 }
    ensures { result.items ≡ reverse a.now }
{
    let mut element = copy_of(a);
    element.reverse();
    element
}

/// The shortest form, where it is a number's, or `NumberRange`.
pub fn shorten(a: &[u8]) -> Result<Element, Cause>
    requires { length a.now ≤ 520 }
    ensures value { IfOk result (λ e. shortened a.now ≡ Ok e.items) }
    ensures cause { IfErr result (λ cause. shortened a.now ≡ Err cause) }
{
    let least = shortest(a);
    if least.len() > 8 {
        return Err(Cause::NumberRange);
    }
    Ok(least)
}

/// The form of so many bytes as the second operand says, or `PadSize`.
pub fn pad(a: &[u8], b: &[u8]) -> Result<Element, Cause>
    requires { length a.now ≤ 520 }
    ensures value { IfOk result (λ e. padded_to a.now b.now ≡ Ok e.items) }
    ensures cause { IfErr result (λ cause. padded_to a.now b.now ≡ Err cause) }
{
    let n = operand(b)?;
    pad_to(a, n)
}

fn pad_to(a: &[u8], n: i64) -> Result<Element, Cause>
    requires { length a.now ≤ 520 }
    ensures value { IfOk result (λ e. Operation.padded a.now n ≡ Ok e.items) }
    ensures cause { IfErr result (λ cause. Operation.padded a.now n ≡ Err cause) }
{
    if n < 0 || n > 520 {
        return Err(Cause::PadSize);
    }
    let width = n as usize;
    if shortest(a).len() > width {
        return Err(Cause::PadSize);
    }
    Ok(of_width(a, width))
}

/// The first n bytes and the rest, where n is the number of the second operand. `NotANumber` comes where it is none, and then
/// `SplitRange` where n is negative or above the length. It takes no memory.
pub fn split(a: &[u8], n: &[u8]) -> Result<(Element, Element), Cause>
    requires { length a.now ≤ 520 }
    ensures value { IfOk result (λ p. split_parts a.now n.now ≡ Ok (p.0.items, p.1.items)) }
    ensures cause { IfErr result (λ cause. split_parts a.now n.now ≡ Err cause) }
{
    let n = operand(n)?;
    cut_at(a, n)
}

fn cut_at(a: &[u8], n: i64) -> Result<(Element, Element), Cause>
    requires { length a.now ≤ 520 }
    ensures value { IfOk result (λ p. cut a.now n ≡ Ok (p.0.items, p.1.items)) }
    ensures cause { IfErr result (λ cause. cut a.now n ≡ Err cause) }
{
    if n < 0 || n as usize > a.len() {
        return Err(Cause::SplitRange);
    }
    let (front, back) = a.split_at(n as usize);
    Ok((copy_of(front), copy_of(back)))
}
