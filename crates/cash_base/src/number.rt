//! Script numbers and truth values.

ghost use Rattle.std.specs.Prelude.{◌≡◌, ◌<◌, ◌≤◌, ◌*◌, ◌^◌, ◌<ℤ◌, negsuc, length, ℕ, ℤ, List, Some, unsigned_abs, if◌then◌else◌};
ghost use Rattle.arrayvec.specs.ArrayVec.{array_vec_len};
ghost use Rattle.cash_base.specs.Element.{IsElement};
ghost use Rattle.cash_base.specs.Number;
ghost use Rattle.cash_base.specs.Operand.{operand_number};
ghost use Rattle.cash_base.specs.Number.{number_of, minimal_bytes, truth_of, with_sign, IsBytes};

use crate::element::Element;
use crate::fault::Cause;

/// A number has at most so many bytes.
const PLACES: usize = 8;

/// The number of a minimal element of at most 8 bytes, and `None` for any other element.
///
/// A script number is little-endian with a sign bit in the highest bit of its last byte; zero is the empty element.
/// Source: the Bitcoin Cash specification, with the bigger script integers of May 2022. It takes no memory.
pub fn read_number(e: &[u8]) -> Option<i64>
    ensures { result ≡ number_of e.now }
{
    if e.len() > PLACES || !is_minimal(e) {
        return None;
    }
    let n = magnitude(e) as i64;
    Some(if has_sign(e) { -n } else { n })
}

/// The number of an operand, or `NotANumber`. It takes no memory.
pub fn operand(e: &[u8]) -> Result<i64, Cause>
    ensures { result ≡ operand_number e.now }
{
    read_number(e).ok_or(Cause::NotANumber)
}

/// Whether it is the shortest element of its number.
#[tactic(auto, using(crate::proofs::Reading::minimal_last))]
fn is_minimal(e: &[u8]) -> bool
    ensures { result ≡ Number.is_minimal e.now }
{
    match e {
        [] => true,
        [last] => *last % 128 != 0,
        [.., before, last] => *last % 128 != 0 || *before >= 128,
    }
}

/// The number without its sign.
#[tactic(auto, using(crate::proofs::Reading::magnitude_first, crate::proofs::Reading::magnitude_one))]
fn magnitude(e: &[u8]) -> u64
    requires { length e.now ≤ 8 }
    ensures value { result ≡ Number.magnitude e.now }
    ensures bound { 2 * result < 256 ^ length e.now }
{
    match e {
        [] => 0,
        [last] => u64::from(*last % 128),
        [lowest, rest @ ..] => u64::from(*lowest) + 256 * magnitude(rest),
    }
}

/// Whether an element has a sign, which is the highest bit of its last byte. It takes no memory.
#[tactic(auto, using(crate::proofs::Reading::sign_last))]
pub fn has_sign(e: &[u8]) -> bool
    ensures { result ≡ Number.has_sign e.now }
{
    match e {
        [] => false,
        [.., last] => *last >= 128,
    }
}

/// The one minimal element of a number above -(2^63). It takes no memory.
#[tactic(auto, using(crate::proofs::Widths::with_sign_longer))]
pub fn write_number(n: i64) -> Element
    requires { negsuc 9223372036854775807 <ℤ n }
    ensures { result.items ≡ minimal_bytes n }
{
    with_sign(digits(n.unsigned_abs()), n < 0)
}

/// The digits to the base 256, the lowest first and the highest not zero.
fn digits(n: u64) -> Element
    ensures value { result.items ≡ Number.digits 8 n }
    ensures short { array_vec_len result ≤ 8 }
{
    let mut digits = Element::new();
    let mut left = n;
    for _ in 0..PLACES {
        if left == 0 {
            break;
        }
        digits.push((left % 256) as u8);
        left /= 256;
    }
    digits
}

/// The highest bit of a byte, where there is a sign.
fn sign_bit(negative: bool) -> u8
    ensures { result ≡ (if negative then 128 else 0) }
{
    if negative { 128 } else { 0 }
}

/// The element of these digits, the lowest first, with a sign: in the highest bit of the last byte, or in a byte of its own
/// where that bit is taken. No digits have no sign. With its sign it has at most 520 bytes. It takes no memory.
#[tactic(auto, using(crate::proofs::Writing::sign_in_top, crate::proofs::Writing::sign_after_top, crate::proofs::Widths::room_after))]
pub fn with_sign(mut digits: Element, negative: bool) -> Element
    requires { length (with_sign negative digits.items) ≤ 520 }
    ensures { result.items ≡ with_sign negative digits.items }
{
    let sign = sign_bit(negative);
    let Some(top) = digits.pop() else {
        return digits;
    };
    let has_room = top < 128;
    if has_room {
        digits.push(top + sign);
    } else {
        digits.push(top);
        digits.push(sign);
    }
    digits
}

/// Whether an element is true: it isn't where all bytes are 00, or all but the last are 00 and the last is 80.
///
/// Source: the Bitcoin Cash specification, on stack elements as truth values. It takes no memory.
#[tactic(auto, using(crate::proofs::Reading::truth_passes, crate::proofs::Reading::truth_found))]
pub fn truth(e: &[u8]) -> bool
    ensures { result ≡ truth_of e.now }
{
    for (i, b) in e.iter().enumerate() {
        if *b != 0 {
            return i + 1 < e.len() || *b != 128;
        }
    }
    false
}

/// The number of the minimal bytes of `n` is `n`, for each `n` above -(2^63) and below 2^63.
pub fn number_of_written()
    ensures { (n : ℤ) → unsigned_abs n < 2 ^ 63 → number_of (minimal_bytes n) ≡ Some n }
{}

/// The minimal bytes of the number of `e` are `e`; the number is above -(2^63) and below 2^63.
pub fn written_of_number()
    ensures { (e : List ℕ) (n : ℤ) → IsBytes e → number_of e ≡ Some n
        → (minimal_bytes n ≡ e) × (unsigned_abs n < 2 ^ 63) }
{}

/// The minimal bytes of any number are an element.
pub fn written_is_element()
    ensures { (n : ℤ) → IsElement (minimal_bytes n) }
{}
