//! A file of arguments, a line each.

ghost use Rattle.std.specs.Prelude.{◌≡◌, ◌<◌, ◌≤◌, ◌+◌, ◌⊎◌, ◌==◌, true, ℕ, [], ◌∷◌, List, length, take, drop, map, codes, nat_lt, IfOk, IfErr, IfSome, MatchOption};
ghost use Rattle.std.specs.List.{AllByRecursion, position_from};
ghost use Rattle.std.specs.Str.{bytes_eq};
ghost use Rattle.cash_base.specs.Element.{IsElement};
ghost use Rattle.spend_debug.specs.declared.spend_lines.LineFault.TheVariants as faults;
ghost use Rattle.spend_debug.specs.SpendLines.{lines, line_element, elements_of, spend_elements, after};

use cash_base::element::copy_of;
use cash_base::{Element, MAX_ELEMENT_LEN};
use hex::FromHexError;
use std::alloc::{AllocError, AllocFailed, Global};
use thiserror::Error;

/// The most lines of a file.
const MOST_LINES: u32 = 16;

/// Why a file has no arguments.
#[derive(Clone, Copy, Debug, PartialEq, Eq, Error)]
pub enum LineFault {
    /// A line is neither `-` nor an even, positive number of hexadecimal digits, or has no line feed at its end.
    #[error("a line is neither `-` nor hexadecimal digits in pairs, or no line feed ends it")]
    BadHex,
    /// A line has the digits of more than 520 bytes.
    #[error("a line has the digits of more than 520 bytes")]
    Range,
    /// There are more than 16 lines.
    #[error("there are more than 16 lines")]
    TooMany,
    /// Memory ran out.
    #[error("out of memory")]
    Memory,
}

impl From<AllocError> for LineFault {
    ghost from_gives = { λ _ fault. fault ≡ faults.Memory };

    fn from(_e: AllocError) -> LineFault {
        LineFault::Memory
    }
}

impl<T: Drop> From<AllocFailed<T>> for LineFault {
    ghost from_gives = { λ _ fault. fault ≡ faults.Memory };

    fn from(_e: AllocFailed<T>) -> LineFault {
        LineFault::Memory
    }
}

/// The first line of a file, whether a line feed ends it, and what stands after.
#[derive(Drop)]
struct FirstLine<'a> {
    text: &'a [u8],
    ended: bool,
    rest: &'a [u8],
}

/// The arguments that a file has, a line each, in their order.
///
/// A line is `-` for the empty element, or an even, positive number of hexadecimal digits in either case, and a line
/// feed ends it. `TooMany` comes exactly where there are more than 16 lines, bytes after the last line feed counting as
/// one. Else the first line that is refused tells the fault: `BadHex` where it is neither, or has no line feed, and
/// `Range` where its digits spell more than 520 bytes. Memory may be wanting at any time.
#[tactic(auto, using(crate::proofs::Cuts::after_nothing))]
pub fn read(alloc: Global, bytes: &[u8]) -> Result<Vec<Element>, LineFault>
    ensures read { IfOk result (λ elements. spend_elements bytes.now ≡ Ok (map (λ e. e.items) elements.items)) }
    ensures refused { IfErr result (λ fault. (fault ≡ faults.Memory) ⊎ (spend_elements bytes.now ≡ Err fault)) }
{
    if has_more_lines(bytes, MOST_LINES) {
        return Err(LineFault::TooMany);
    }
    Ok(read_lines(alloc, bytes, MOST_LINES, Vec::new(alloc))?)
}

/// What a file is read as are elements, each of at most 520 bytes, and at most 16 of them.
pub fn read_elements_are_few()
    ensures { (bytes : List ℕ) (elements : List (List ℕ)) → spend_elements bytes ≡ Ok elements
        → AllByRecursion IsElement elements × (length elements ≤ 16) }
{}

/// Whether there are more than so many lines.
fn has_more_lines(bytes: &[u8], most: u32) -> bool
    ensures { result ≡ nat_lt most (length (lines bytes.now)) }
{
    match first_line(bytes) {
        None => false,
        Some(line) => most == 0 || has_more_lines(line.rest, most - 1),
    }
}

/// The elements of some lines, at most so many, after those that are given.
#[tactic(auto, using(crate::proofs::Cuts::line_read, crate::proofs::Cuts::line_refused, crate::proofs::Cuts::later_refused))]
fn read_lines(
    alloc: Global,
    bytes: &[u8],
    most: u32,
    mut elements: Vec<Element>,
) -> Result<Vec<Element>, LineFault>
    requires { length (lines bytes.now) ≤ most }
    ensures read { IfOk result (λ all. after (map (λ e. e.items) elements.items) (elements_of (lines bytes.now))
        ≡ Ok (map (λ e. e.items) all.items)) }
    ensures refused { IfErr result (λ fault. (fault ≡ faults.Memory) ⊎ (elements_of (lines bytes.now) ≡ Err fault)) }
{
    let Some(line) = first_line(bytes) else {
        return Ok(elements);
    };
    elements.push(element_of(alloc, line.text, line.ended)?)?;
    Ok(read_lines(alloc, line.rest, most - 1, elements)?)
}

/// The first line, or `None` where there are no bytes.
#[tactic(auto, using(crate::proofs::Cuts::first_open))]
fn first_line(bytes: &[u8]) -> Option<FirstLine<'_>>
    ensures { MatchOption result (lines bytes.now ≡ []) (λ line.
        lines bytes.now ≡ record { text = line.text.now; ended = line.ended } ∷ lines line.rest.now) }
{
    if let Some(at) = line_end(bytes) {
        let (text, _) = bytes.split_at(at);
        let (_, rest) = bytes.split_at(at + 1);
        return Some(FirstLine {
            text,
            ended: true,
            rest,
        });
    }
    if bytes.is_empty() {
        return None;
    }
    Some(FirstLine {
        text: bytes,
        ended: false,
        rest: &[],
    })
}

/// Where the first line ends, which is at the first line feed.
fn line_end(bytes: &[u8]) -> Option<usize>
    ensures value { result ≡ position_from (λ byte. byte == 0x0a) 0 bytes.now }
    ensures within { IfSome result (λ at. at < length bytes.now) }
    ensures ended { IfSome result (λ at. lines bytes.now
        ≡ record { text = take at bytes.now; ended = true } ∷ lines (drop (at + 1) bytes.now)) }
{
    line_feed(bytes)
}

/// The place of the first line feed.
fn line_feed(bytes: &[u8]) -> Option<usize>
    ensures { result ≡ position_from (λ byte. byte == 0x0a) 0 bytes.now }
{
    bytes.iter().position(|byte| *byte == b'\n')
}

/// The element of a line.
fn element_of(alloc: Global, text: &[u8], ended: bool) -> Result<Element, LineFault>
    ensures read { IfOk result (λ element. line_element (record { text = text.now; ended = ended }) ≡ Ok element.items) }
    ensures refused { IfErr result (λ fault. (fault ≡ faults.Memory)
        ⊎ (line_element (record { text = text.now; ended = ended }) ≡ Err fault)) }
{
    if !ended {
        return Err(LineFault::BadHex);
    }
    if is_dash(text) {
        return Ok(Element::new());
    }
    if text.is_empty() {
        return Err(LineFault::BadHex);
    }
    match hex::decode(alloc, text) {
        Ok(bytes) if bytes.len() <= MAX_ELEMENT_LEN => Ok(copy_of(bytes.as_slice())),
        Ok(_) => Err(LineFault::Range),
        Err(FromHexError::OutOfMemory) => Err(LineFault::Memory),
        Err(_) => Err(LineFault::BadHex),
    }
}

fn is_dash(text: &[u8]) -> bool
    ensures { result ≡ bytes_eq text.now (codes "-") }
{
    matches!(text, [b'-'])
}
