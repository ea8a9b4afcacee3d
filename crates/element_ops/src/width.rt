//! Elements as whole numbers of any width: their shortest form, and that of so many bytes.

ghost use Rattle.std.specs.Prelude.{◌≡◌, ◌≤◌, length};
ghost use Rattle.element_ops.specs.Width;
ghost use Rattle.element_ops.specs.Width.{without_sign, trimmed};

use cash_base::Element;
use cash_base::element::copy_of;
use cash_base::number::{has_sign, with_sign};

/// The shortest element with the same sign and magnitude as at most 520 bytes have, and the empty one where the magnitude is
/// zero.
///
/// Source: the Bitcoin Cash specification, OP_BIN2NUM. It takes no memory.
pub fn shortest(e: &[u8]) -> Element
    requires { length e.now ≤ 520 }
    ensures value { result.items ≡ Width.shortest e.now }
    ensures shorter { length result.items ≤ length e.now }
{
    let digits = unsigned_copy(e);
    with_sign(copy_of(significant(digits.as_slice())), has_sign(e))
}

/// The element of this width, in bytes, with the same sign and magnitude; a magnitude of zero has no sign. The width is at most
/// 520, and no less than the bytes of the shortest such element.
///
/// Source: the Bitcoin Cash specification, OP_NUM2BIN. It takes no memory.
pub fn of_width(e: &[u8], width: usize) -> Element
    requires small { length e.now ≤ 520 }
    requires wide { length (Width.shortest e.now) ≤ width }
    requires within { width ≤ 520 }
    ensures { result.items ≡ Width.of_width width e.now }
{
    let shortest = shortest(e);
    let negative = has_sign(shortest.as_slice());
    let mut digits = unsigned_copy(shortest.as_slice());
    pad(&mut digits, width);
    with_sign(digits, negative)
}

/// The bytes without the highest bit of the last.
#[tactic(auto, using(crate::proofs::Widths::without_sign_of))]
fn unsigned_copy(e: &[u8]) -> Element
    requires { length e.now ≤ 520 }
    ensures { result.items ≡ without_sign e.now }
{
    let mut copy = copy_of(e);
    if let Some(last) = copy.pop() {
        copy.push(last % 128);
    }
    copy
}

/// The digits without the zeros at the end.
#[tactic(auto, using(crate::proofs::Widths::trimmed_zero, crate::proofs::Widths::trimmed_kept))]
fn significant(digits: &[u8]) -> &[u8]
    ensures value { result.now ≡ trimmed digits.now }
    ensures shorter { length result.now ≤ length digits.now }
{
    let mut rest = digits;
    'rest: while let Some((last, front)) = rest.split_last() {
        if *last != 0 {
            return rest;
        }
        rest = front;
    }
    rest
}

/// Adds zeros at the end up to a width.
fn pad(digits: &mut Element, width: usize)
    requires wide { length digits.old.items ≤ width }
    requires within { width ≤ 520 }
    ensures { digits.new.items ≡ Width.padded width digits.old.items }
{
    for _ in digits.len()..width {
        digits.push(0);
    }
}
