//! Dates.

ghost use Rattle.std.specs.Prelude.{◌≡◌, ℕ, ◌+◌, ◌≤◌, ◌<◌, length, SomeIff, pos};
ghost use Rattle.std.specs.Bool.{OnTrue};
ghost use Rattle.std.specs.List.{list_all, zip};
ghost use Rattle.jiff_core.specs.Date.{IsYmd};
ghost use Rattle.jiff_core.specs.Time.{IsHms};
ghost use Rattle.cash_lexer.specs.Dates.{shape, fits, has_shape, seconds, moment, two_digits, date_value, is_quote, has_date_string, date_after, date};

use crate::piece::{Flaw, Piece};
use cash_tree::TokenKind;
use jiff::civil::DateTime;

/// The shape of a date in its string: 0 stands for any digit.
const SHAPE: &[u8] = b"0000-00-00T00:00:00";

fn fits(sign: u8, byte: u8) -> bool
    ensures { result ≡ fits sign byte }
{
    if sign == b'0' {
        byte.is_ascii_digit()
    } else {
        byte == sign
    }
}

/// Whether each byte fits the sign at its place.
fn fit_all(signs: &[u8], text: &[u8]) -> bool
    ensures { result ≡ list_all (λ (x : ℕ × ℕ). fits x.0 x.1) (zip signs.now text.now) }
{
    signs
        .iter()
        .zip(text)
        .all(|(sign, byte)| fits(*sign, *byte))
}

/// Whether a text has the shape of a date.
#[tactic(auto, unfolding(crate::specs::Dates::has_shape))]
fn has_shape(text: &[u8]) -> bool
    ensures value { result ≡ has_shape text.now }
    ensures long { OnTrue result (length text.now ≡ 19) }
{
    text.len() == 19 && fit_all(SHAPE, text)
}

/// The number of the two digits at a place.
fn two_digits(text: &[u8], at: usize) -> u32
    requires { at + 1 < length text.now }
    ensures { result ≡ two_digits text.now at }
{
    let tens = u32::from(text[at].saturating_sub(b'0'));
    let ones = u32::from(text[at + 1].saturating_sub(b'0'));
    10 * tens + ones
}

/// The number as `jiff` takes it, if it isn't above 127.
fn small(number: u32) -> Option<i8>
    ensures { SomeIff result (number < 128) (pos number) }
{
    i8::try_from(number).ok()
}

/// The year as `jiff` takes it, if it isn't above 32,767.
fn small_year(number: u32) -> Option<i16>
    ensures { SomeIff result (number < 32768) (pos number) }
{
    i16::try_from(number).ok()
}

/// The seconds since 1970-01-01T00:00:00.
#[tactic(auto, using(crate::proofs::Moments::seconds_are))]
fn seconds_of(moment: DateTime) -> i64
    ensures { (year month day hour minute second : ℕ) → IsYmd (pos year) (pos month) (pos day) moment.date
        → IsHms (pos hour) (pos minute) (pos second) (pos 0) moment.time → result ≡ seconds year month day hour minute second }
{
    let epoch = jiff::civil::date(1970, 1, 1).at(0, 0, 0, 0);
    moment.duration_since(epoch).as_secs()
}

/// The seconds since 1970-01-01T00:00:00 in UTC, if the Gregorian calendar has the day and a clock the time.
#[tactic(auto, using(crate::proofs::Moments::no_year, crate::proofs::Moments::no_month, crate::proofs::Moments::no_day, crate::proofs::Moments::no_hour, crate::proofs::Moments::no_minute, crate::proofs::Moments::no_second))]
fn moment(year: u32, month: u32, day: u32, hour: u32, minute: u32, second: u32) -> Option<i64>
    ensures { result ≡ moment year month day hour minute second }
{
    let year = small_year(year)?;
    let month = small(month)?;
    let day = small(day)?;
    let hour = small(hour)?;
    let minute = small(minute)?;
    let second = small(second)?;
    match DateTime::new(year, month, day, hour, minute, second, 0) {
        Ok(moment) => Some(seconds_of(moment)),
        Err(_) => None,
    }
}

/// The seconds since 1970 of a date of the shape.
#[tactic(auto, unfolding(crate::specs::Dates::date_value))]
fn date_value(text: &[u8]) -> Option<i64>
    ensures { result ≡ date_value text.now }
{
    if !has_shape(text) {
        return None;
    }
    moment(
        100 * two_digits(text, 0) + two_digits(text, 2),
        two_digits(text, 5),
        two_digits(text, 8),
        two_digits(text, 11),
        two_digits(text, 14),
        two_digits(text, 17),
    )
}

/// Whether a byte is `"` or `'`.
pub fn is_quote(byte: u8) -> bool
    ensures { result ≡ is_quote byte }
{
    byte == b'"' || byte == b'\''
}

/// Whether a text begins with a string of 19 signs and `)`.
#[tactic(auto, unfolding(crate::specs::Dates::has_date_string))]
fn has_date_string(text: &[u8]) -> bool
    ensures value { result ≡ has_date_string text.now }
    ensures long { OnTrue result (22 ≤ length text.now) }
{
    text.len() >= 22 && is_quote(text[0]) && text[20] == text[0] && text[21] == b')'
}

/// The seconds since 1970 of the date in the string after `date(`.
#[tactic(auto, unfolding(crate::specs::Dates::date_after))]
fn date_after(text: &[u8]) -> Option<i64>
    ensures { result ≡ date_after text.now }
{
    if has_date_string(text) {
        date_value(&text[1..20])
    } else {
        None
    }
}

/// `date(`, a date in a string, and `)`.
#[tactic(auto, unfolding(crate::specs::Dates::date))]
pub fn date(text: &[u8]) -> Option<Piece>
    ensures { result ≡ date text.now }
{
    if !text.starts_with(b"date(") {
        return None;
    }
    match date_after(&text[5..]) {
        Some(seconds) => Some(Piece::Known(TokenKind::Date(seconds), 27)),
        None => Some(Piece::Flawed(Flaw::BadDate, 5)),
    }
}
