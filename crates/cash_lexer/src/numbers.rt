//! Numbers, hexadecimal digits and versions.

ghost use Rattle.std.specs.Prelude.{◌≡◌, ◌^◌, ◌≤◌, ◌<◌, length, IfSome};
ghost use Rattle.std.specs.List.{prefix_len};
ghost use Rattle.std.specs.Char.{is_ascii_hexdigit};
ghost use Rattle.cash_lexer.specs.Numbers.{digits_len, hex_len, hex, dotted_len, last_len, version_len, version, narrow, decimal, exponent_len, number_value, number_piece, number};

use crate::piece::{Flaw, Piece};
use cash_tree::TokenKind;

/// How many digits a text begins with.
fn digits_len(text: &[u8]) -> usize
    ensures value { result ≡ digits_len text.now }
    ensures within { result ≤ length text.now }
{
    text.iter().take_while(|byte| byte.is_ascii_digit()).count()
}

/// How many hexadecimal digits a text begins with.
fn hex_digits_len(text: &[u8]) -> usize
    ensures value { result ≡ prefix_len is_ascii_hexdigit text.now }
    ensures within { result ≤ length text.now }
{
    text.iter()
        .take_while(|byte| byte.is_ascii_hexdigit())
        .count()
}

/// `0x` and hexadecimal digits, of which there is an even number.
#[tactic(auto, unfolding(crate::specs::Numbers::hex))]
pub fn hex(text: &[u8]) -> Option<Piece>
    ensures { result ≡ hex text.now }
{
    if !text.starts_with(b"0x") && !text.starts_with(b"0X") {
        return None;
    }
    let len = 2 + hex_digits_len(&text[2..]);
    if len % 2 == 0 {
        Some(Piece::Known(TokenKind::Hex, len))
    } else {
        Some(Piece::Flawed(Flaw::OddHex, len))
    }
}

/// How many bytes digits and a dot after them take.
fn dotted_len(text: &[u8]) -> Option<usize>
    ensures value { result ≡ dotted_len text.now }
    ensures within { IfSome result (λ n. n ≤ length text.now) }
{
    let len = digits_len(text);
    if len > 0 && text[len..].starts_with(b".") {
        Some(len + 1)
    } else {
        None
    }
}

/// How many digits a text begins with, if there are some.
fn last_len(text: &[u8]) -> Option<usize>
    ensures value { result ≡ last_len text.now }
    ensures within { IfSome result (λ n. n ≤ length text.now) }
{
    match digits_len(text) {
        0 => None,
        len => Some(len),
    }
}

/// How many bytes a version takes.
fn version_len(text: &[u8]) -> Option<usize>
    ensures { result ≡ version_len text.now }
{
    let first = dotted_len(text)?;
    let rest = &text[first..];
    let second = dotted_len(rest)?;
    let third = last_len(&rest[second..])?;
    Some(first + second + third)
}

/// Three times digits, with dots between.
#[tactic(auto, unfolding(crate::specs::Numbers::version))]
pub fn version(text: &[u8]) -> Option<Piece>
    ensures { result ≡ version text.now }
{
    let len = version_len(text)?;
    Some(Piece::Known(TokenKind::Version, len))
}

/// The number that decimal digits spell, if it has at most 128 bits.
#[tactic(auto, using(crate::proofs::Values::too_wide, crate::proofs::Values::whole_value))]
fn decimal(digits: &[u8]) -> Option<u128>
    ensures { result ≡ narrow (decimal digits.now) }
{
    let mut value: u128 = 0;
    for digit in digits {
        value = value
            .checked_mul(10)?
            .checked_add(u128::from(digit.saturating_sub(b'0')))?;
    }
    Some(value)
}

/// How many bytes `e` or `E` and the digits after it take, or 0.
fn exponent_len(text: &[u8]) -> usize
    ensures value { result ≡ exponent_len text.now }
    ensures within { result ≤ length text.now }
{
    if !text.starts_with(b"e") && !text.starts_with(b"E") {
        return 0;
    }
    match digits_len(&text[1..]) {
        0 => 0,
        len => 1 + len,
    }
}

/// The number of these digits times ten to the power of those, if it has at most 128 bits.
///
/// No power above 10^38 is computed.
#[tactic(auto, using(crate::proofs::Values::zero_value, crate::proofs::Values::power_value, crate::proofs::Values::power_fits, crate::proofs::Values::wide_digits, crate::proofs::Values::wide_power, crate::proofs::Values::wider_power))]
fn number_value(digits: &[u8], exponent: &[u8]) -> Option<u128>
    ensures { result ≡ narrow (number_value digits.now exponent.now) }
{
    let value = decimal(digits)?;
    if value == 0 {
        return Some(0);
    }
    match decimal(exponent) {
        Some(exponent) if exponent <= 38 => value.checked_mul(10u128.pow(exponent as u32)),
        _ => None,
    }
}

/// Digits, and maybe a power of ten after `e` or `E`.
#[tactic(auto, unfolding(crate::specs::Numbers::number))]
pub fn number(text: &[u8]) -> Option<Piece>
    ensures { result ≡ number text.now }
{
    let (digits, after) = text.split_at(digits_len(text));
    if digits.is_empty() {
        return None;
    }
    let power = exponent_len(after);
    let exponent = &after[..power];
    let exponent = if power == 0 { exponent } else { &exponent[1..] };
    let len = digits.len() + power;
    match number_value(digits, exponent) {
        Some(value) => Some(Piece::Known(TokenKind::Number(value), len)),
        None => Some(Piece::Flawed(Flaw::NumberTooWide, len)),
    }
}
