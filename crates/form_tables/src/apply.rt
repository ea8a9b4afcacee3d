//! What forms give, on elements. None of it takes memory.

ghost use Rattle.std.specs.Prelude.{◌≡◌, ◌≤◌, length, IfOk, IfErr, Ok, Err};
ghost use Rattle.cash_base.specs.Operand.{truth_bytes};
ghost use Rattle.cash_base.specs.Push.{push_prefix};
ghost use Rattle.element_ops.specs.Operation.{result2};
ghost use Rattle.element_ops.specs.declared.op.Op2.TheVariants.{Cat};
ghost use Rattle.form_tables.specs.Forms as table;

use crate::forms::BinaryForm;
use cash_base::element::copy_of;
use cash_base::{Cause, Element, MAX_ELEMENT_LEN, write_number};
use element_ops::{Op1, Op2, apply1, apply2};
use type_tables::CastEffect;

/// The element of an operator with two sides, or the cause that it fails for.
pub fn apply_binary(form: BinaryForm, a: &[u8], b: &[u8]) -> Result<Element, Cause>
    requires first { length a.now ≤ 520 }
    requires second { length b.now ≤ 520 }
    ensures value { IfOk result (λ e. table.binary_result form a.now b.now ≡ Ok e.items) }
    ensures cause { IfErr result (λ cause. table.binary_result form a.now b.now ≡ Err cause) }
{
    match form {
        BinaryForm::Is(op) => apply2(op, a, b),
        BinaryForm::IsNot(op) => {
            let element = apply2(op, a, b)?;
            let truth = apply1(Op1::Not, element.as_slice())?;
            Ok(truth)
        }
    }
}

/// The element of a cast without a size, or the cause that it fails for: `CheckFailed` where there is no such cast.
pub fn apply_cast(effect: Option<CastEffect>, a: &[u8]) -> Result<Element, Cause>
    requires { length a.now ≤ 520 }
    ensures value { IfOk result (λ e. table.cast_result effect a.now ≡ Ok e.items) }
    ensures cause { IfErr result (λ cause. table.cast_result effect a.now ≡ Err cause) }
{
    match effect {
        Some(CastEffect::Keep) => Ok(copy_of(a)),
        Some(CastEffect::NonZero) => apply1(Op1::NonZero, a),
        Some(CastEffect::Pad(n)) => {
            let size = write_number(i64::from(n));
            apply2(Op2::Pad, a, size.as_slice())
        }
        Some(CastEffect::ToNumber) => apply1(Op1::ToNumber, a),
        Some(CastEffect::PadToSize) | None => Err(Cause::CheckFailed),
    }
}

/// The element of a check's verdict.
pub fn verdict_element(verdict: Result<bool, Cause>) -> Result<Element, Cause>
    ensures value { IfOk result (λ e. table.verdict_result verdict ≡ Ok e.items) }
    ensures cause { IfErr result (λ cause. table.verdict_result verdict ≡ Err cause) }
{
    let truth = verdict?;
    Ok(truth_element(truth))
}

/// 01 for true, and the empty element for false.
pub fn truth_element(truth: bool) -> Element
    ensures { truth_bytes truth ≡ result.items }
{
    if truth {
        return copy_of(&[1]);
    }
    Element::new()
}

/// How a chunk of so many bytes is pushed: the bytes in front of it. Source: the Bitcoin Cash specification, the pushing
/// opcodes.
fn chunk_prefix(len: usize) -> Element
    requires { len ≤ 520 }
    ensures { result.items ≡ push_prefix len }
{
    if len <= 75 {
        return copy_of(&[len as u8]);
    }
    if len <= 255 {
        return copy_of(&[0x4c, len as u8]);
    }
    copy_of(&[0x4d, (len % 256) as u8, (len / 256) as u8])
}

/// A script of data with one chunk more: `Oversize` exactly where it has more than 520 bytes.
pub fn append_chunk(so_far: &[u8], chunk: &[u8]) -> Result<Element, Cause>
    requires script { length so_far.now ≤ 520 }
    requires chunk { length chunk.now ≤ 520 }
    ensures value { IfOk result (λ e. result2 Cat so_far.now (table.pushed_chunk chunk.now) ≡ Ok e.items) }
    ensures cause { IfErr result (λ cause. result2 Cat so_far.now (table.pushed_chunk chunk.now) ≡ Err cause) }
{
    let prefix = chunk_prefix(chunk.len());
    if so_far.len() + (prefix.len() + chunk.len()) > MAX_ELEMENT_LEN {
        return Err(Cause::Oversize);
    }
    let mut script = copy_of(so_far);
    let _ = script.try_extend_from_slice(prefix.as_slice());
    let _ = script.try_extend_from_slice(chunk);
    Ok(script)
}
