//! A contract with its spend files.

ghost use Rattle.std.specs.Prelude.{◌≡◌, ◌++◌, IfOk, OnOk, codes, map};
ghost use Rattle.generated_spends.specs.Generated as texts;

use crate::draws::{Draws, draw, draws_of};
use crate::texts::{add_number, contract_text};
use cash_base::Memory;
use std::alloc::{AllocError, Global};
use std::marker::Model;

/// The text of a contract, and its spend files.
#[derive(Drop)]
pub struct Generated {
    pub source: Vec<u8>,
    pub spends: Vec<Vec<u8>>,
}

impl Model for Generated {
    ghost use Rattle.std.specs.Prelude.{map};
    ghost use Rattle.generated_spends.specs.Generated.{Generated};

    ghost Value = { Generated };

    ghost view = { λ g. record { source = g.source.items; spends = map (λ text. text.items) g.spends.items } };
}

/// How many spend files a contract has.
const SPENDS: u32 = 50;

/// Adds a number from -10 to 10, which is drawn as one from 0 to 20.
#[tactic(auto, unfolding(crate::specs::Generated::signed))]
fn add_signed(alloc: Global, text: &mut Vec<u8>, drawn: u64) -> Result<(), AllocError>
    ensures { OnOk result (text.new.items ≡ text.old.items ++ texts.signed drawn) }
{
    if drawn < 10 {
        text.extend_from_slice(b"-")?;
        add_number(alloc, text, 10 - drawn)?;
        return Ok(());
    }
    add_number(alloc, text, drawn - 10)?;
    Ok(())
}

/// A spend file that is drawn.
#[tactic(auto, unfolding(crate::specs::Generated::spend))]
fn spend_text(alloc: Global, draws: &mut Draws) -> Result<Vec<u8>, AllocError>
    ensures text { IfOk result (λ text. text.items ≡ (texts.spend draws.old.state).value) }
    ensures state { IfOk result (λ text. draws.new.state ≡ (texts.spend draws.old.state).state) }
{
    let a = draw(draws, 21);
    let b = draw(draws, 21);
    let c = draw(draws, 21);
    let mut text = Vec::new(alloc);
    text.extend_from_slice(b"{\"constructor\":[")?;
    add_signed(alloc, &mut text, a)?;
    text.extend_from_slice(b"],\"arguments\":[")?;
    add_signed(alloc, &mut text, b)?;
    text.extend_from_slice(b",")?;
    add_signed(alloc, &mut text, c)?;
    text.extend_from_slice(b"]}")?;
    Ok(text)
}

/// Adds so many spend files that are drawn.
#[tactic(auto, unfolding(crate::specs::Generated::spends))]
fn add_spends(
    alloc: Global,
    spends: &mut Vec<Vec<u8>>,
    draws: &mut Draws,
    count: u32,
) -> Result<(), AllocError>
    ensures { OnOk result (map (λ text. text.items) spends.new.items ≡ map (λ text. text.items) spends.old.items ++ texts.spends count draws.old.state) }
{
    if count == 0 {
        return Ok(());
    }
    let text = spend_text(alloc, draws)?;
    spends.push(text)?;
    add_spends(alloc, spends, draws, count - 1)?;
    Ok(())
}

/// Contract `number` of the workload, from 0, with its fifty spend files. The only error is want of memory.
pub fn generated_contract(alloc: Global, number: u32) -> Result<Generated, Memory>
    ensures { IfOk result (λ generated. generated ≡ texts.generated number) }
{
    let mut draws = draws_of(number);
    let source = contract_text(alloc, &mut draws)?;
    let mut spends = Vec::new(alloc);
    add_spends(alloc, &mut spends, &mut draws, SPENDS)?;
    Ok(Generated { source, spends })
}
