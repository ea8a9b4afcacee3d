//! The text of a contract.

ghost use Rattle.std.specs.Prelude.{◌≡◌, ◌++◌, IfOk, OnOk, codes};
ghost use Rattle.std.specs.Fmt.{decimal};
ghost use Rattle.generated_spends.specs.Generated as texts;

use crate::draws::{Draws, draw};
use std::alloc::{AllocError, Global};

/// Adds a number in decimal digits.
pub(crate) fn add_number(alloc: Global, text: &mut Vec<u8>, n: u64) -> Result<(), AllocError>
    ensures { OnOk result (text.new.items ≡ text.old.items ++ decimal n) }
{
    text.extend_from_slice(format!(in alloc; "{n}")?.as_bytes())?;
    Ok(())
}

/// Adds a number between two texts.
fn add_between(
    alloc: Global,
    text: &mut Vec<u8>,
    front: &str,
    number: u64,
    back: &str,
) -> Result<(), AllocError>
    ensures { OnOk result (text.new.items ≡ text.old.items ++ (front.now ++ (decimal number ++ back.now))) }
{
    text.extend_from_slice(front.as_bytes())?;
    add_number(alloc, text, number)?;
    text.extend_from_slice(back.as_bytes())?;
    Ok(())
}

/// Adds a statement with a number.
#[tactic(auto, using(crate::proofs::Steps::choice_is, crate::proofs::Steps::check_is), unfolding(crate::specs::Generated::numbered))]
fn add_numbered(
    alloc: Global,
    text: &mut Vec<u8>,
    choice: u64,
    number: u64,
) -> Result<(), AllocError>
    ensures { OnOk result (text.new.items ≡ text.old.items ++ texts.numbered choice number) }
{
    if choice == 2 {
        add_between(alloc, text, "r = r * ", number, "; ")?;
        return Ok(());
    }
    if choice == 3 {
        add_between(
            alloc,
            text,
            "if (b < c) { r = r + ",
            number,
            "; } else { r = r - ",
        )?;
        add_between(alloc, text, "", number, "; } ")?;
        return Ok(());
    }
    add_between(alloc, text, "require(r != ", number, "); ")?;
    Ok(())
}

/// A statement without one.
#[tactic(auto, unfolding(crate::specs::Generated::unnumbered))]
fn unnumbered(choice: u64) -> &'static str
    ensures { result.now ≡ texts.unnumbered choice }
{
    match choice {
        0 => "r = r + b; ",
        1 => "r = r - c; ",
        5 => "r = r / c; ",
        _ => "r = r % b; ",
    }
}

/// Adds a statement that is drawn.
#[tactic(auto, unfolding(crate::specs::Generated::piece))]
fn add_piece(alloc: Global, text: &mut Vec<u8>, draws: &mut Draws) -> Result<(), AllocError>
    ensures text { OnOk result (text.new.items ≡ text.old.items ++ (texts.piece draws.old.state).value) }
    ensures state { OnOk result (draws.new.state ≡ (texts.piece draws.old.state).state) }
{
    let choice = draw(draws, 7);
    if choice > 1 && choice < 5 {
        let number = draw(draws, 10);
        add_numbered(alloc, text, choice, number)?;
        return Ok(());
    }
    text.extend_from_slice(unnumbered(choice).as_bytes())?;
    Ok(())
}

/// Adds so many.
#[tactic(auto, unfolding(crate::specs::Generated::pieces))]
fn add_pieces(
    alloc: Global,
    text: &mut Vec<u8>,
    draws: &mut Draws,
    count: u32,
) -> Result<(), AllocError>
    ensures text { OnOk result (text.new.items ≡ text.old.items ++ (texts.pieces count draws.old.state).value) }
    ensures state { OnOk result (draws.new.state ≡ (texts.pieces count draws.old.state).state) }
{
    if count == 0 {
        return Ok(());
    }
    add_piece(alloc, text, draws)?;
    add_pieces(alloc, text, draws, count - 1)?;
    Ok(())
}

/// How each contract begins.
#[tactic(auto, unfolding(crate::specs::Generated::head))]
fn add_head(text: &mut Vec<u8>) -> Result<(), AllocError>
    ensures { OnOk result (text.new.items ≡ text.old.items ++ texts.head) }
{
    text.extend_from_slice(b"contract W(int a) { function f(int b, int c) { int r = a; ")?;
    Ok(())
}

/// Adds the last check, and how each contract ends.
#[tactic(auto, unfolding(crate::specs::Generated::last_check))]
fn add_last_check(alloc: Global, text: &mut Vec<u8>, number: u64) -> Result<(), AllocError>
    ensures { OnOk result (text.new.items ≡ text.old.items ++ texts.last_check number) }
{
    add_between(alloc, text, "require(r < ", number, "); } }")?;
    Ok(())
}

/// The text of a contract that is drawn.
pub(crate) fn contract_text(alloc: Global, draws: &mut Draws) -> Result<Vec<u8>, AllocError>
    ensures text { IfOk result (λ text. text.items ≡ (texts.contract_text draws.old.state).value) }
    ensures state { IfOk result (λ text. draws.new.state ≡ (texts.contract_text draws.old.state).state) }
{
    let mut text = Vec::new(alloc);
    add_head(&mut text)?;
    add_pieces(alloc, &mut text, draws, 6)?;
    let last = draw(draws, 100);
    add_last_check(alloc, &mut text, last)?;
    Ok(text)
}
