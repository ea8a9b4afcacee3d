//! What slot code does, instruction by instruction.

use crate::board::{Board, Stop, at, failed};
use cash_base::element::copy_of;
use cash_base::{Cause, Element, Slot, Span, truth};
use element_ops::{Op1, Op2, Op3, apply1, apply2, apply3, split};
use form_tables::{append_chunk, verdict_element};
use slot_code::{SlotInstr, SlotKind};
use source_meaning::World;
use std::alloc::Global;
use tx_context::{Kind, age_met, check_many, check_one, look_at, look0, time_met};

/// Runs instructions, one after the other.
#[cycle(run)]
pub fn run(
    instrs: &[SlotInstr],
    alloc: Global,
    world: &World<'_>,
    board: &mut Board,
) -> Result<(), Stop> {
    for instr in instrs {
        step(instr, alloc, world, board)?;
    }
    Ok(())
}

#[cycle(run)]
fn step(
    instr: &SlotInstr,
    alloc: Global,
    world: &World<'_>,
    board: &mut Board,
) -> Result<(), Stop> {
    if let SlotKind::If { yes, no } = &instr.kind {
        let test = board.pop(instr.doing)?;
        if truth(test.as_slice()) {
            return run(yes.as_slice(), alloc, world, board);
        }
        return run(no.as_slice(), alloc, world, board);
    }
    simple(instr, alloc, world, board)
}

/// An instruction without blocks.
fn simple(
    instr: &SlotInstr,
    alloc: Global,
    world: &World<'_>,
    board: &mut Board,
) -> Result<(), Stop> {
    let doing = instr.doing;
    match &instr.kind {
        SlotKind::Lit(element) => board.push(copy_of(element.as_slice())),
        SlotKind::Get(slot) => get(*slot, board),
        SlotKind::Do1(op) => one(*op, doing, board),
        SlotKind::Do2(op) => two(*op, doing, board),
        SlotKind::Do3(op) => three(*op, doing, board),
        SlotKind::Split => parts(doing, board),
        SlotKind::Keep(right) => keep(*right, doing, board),
        SlotKind::Look0(what) => {
            let element = at(doing, look0(world.ctx, *what, world.redeem))?;
            board.push(element)
        }
        SlotKind::LookAt(what) => {
            let index = board.pop(doing)?;
            let element = at(doing, look_at(world.ctx, *what, index.as_slice()))?;
            board.push(element)
        }
        SlotKind::CheckSig => check_sig(doing, world, board),
        SlotKind::CheckData => check_data(doing, world, board),
        SlotKind::CheckMulti { sigs, keys } => {
            check_multi(alloc, *sigs, *keys, doing, world, board)
        }
        SlotKind::Time => {
            let element = board.pop(doing)?;
            at(instr.checking, time_met(world.ctx, element.as_slice()))
        }
        SlotKind::Age => {
            let element = board.pop(doing)?;
            at(instr.checking, age_met(world.ctx, element.as_slice()))
        }
        SlotKind::Require => {
            let element = board.pop(doing)?;
            if truth(element.as_slice()) {
                return Ok(());
            }
            Err(failed(instr.checking, Cause::CheckFailed))
        }
        SlotKind::Chunk => chunk(doing, board),
        SlotKind::Define(slot) => store(*slot, doing, board),
        SlotKind::DefinePair(left, right) => {
            let second = board.pop(doing)?;
            let first = board.pop(doing)?;
            board.give(*left, first)?;
            board.give(*right, second)
        }
        SlotKind::Assign(slot) => store(*slot, doing, board),
        SlotKind::End(slot) => {
            board.end(*slot);
            Ok(())
        }
        SlotKind::If { .. } => Ok(()),
    }
}

fn get(slot: Slot, board: &mut Board) -> Result<(), Stop> {
    let element = board.value_of(slot);
    board.push(element)
}

fn store(slot: Slot, doing: Span, board: &mut Board) -> Result<(), Stop> {
    let element = board.pop(doing)?;
    board.give(slot, element)
}

fn one(op: Op1, doing: Span, board: &mut Board) -> Result<(), Stop> {
    let a = board.pop(doing)?;
    let element = at(doing, apply1(op, a.as_slice()))?;
    board.push(element)
}

fn two(op: Op2, doing: Span, board: &mut Board) -> Result<(), Stop> {
    let b = board.pop(doing)?;
    let a = board.pop(doing)?;
    let element = at(doing, apply2(op, a.as_slice(), b.as_slice()))?;
    board.push(element)
}

fn three(op: Op3, doing: Span, board: &mut Board) -> Result<(), Stop> {
    let c = board.pop(doing)?;
    let b = board.pop(doing)?;
    let a = board.pop(doing)?;
    let element = at(doing, apply3(op, a.as_slice(), b.as_slice(), c.as_slice()))?;
    board.push(element)
}

/// Both parts of an element, the right one on top.
fn parts(doing: Span, board: &mut Board) -> Result<(), Stop> {
    let index = board.pop(doing)?;
    let whole = board.pop(doing)?;
    let (left, right) = at(doing, split(whole.as_slice(), index.as_slice()))?;
    board.push(left)?;
    board.push(right)
}

fn keep(right: bool, doing: Span, board: &mut Board) -> Result<(), Stop> {
    let second = board.pop(doing)?;
    let first = board.pop(doing)?;
    if right {
        return board.push(second);
    }
    board.push(first)
}

fn chunk(doing: Span, board: &mut Board) -> Result<(), Stop> {
    let chunk = board.pop(doing)?;
    let so_far = board.pop(doing)?;
    let element = at(doing, append_chunk(so_far.as_slice(), chunk.as_slice()))?;
    board.push(element)
}

fn check_sig(doing: Span, world: &World<'_>, board: &mut Board) -> Result<(), Stop> {
    let key = board.pop(doing)?;
    let sig = board.pop(doing)?;
    let verdict = check_one(
        world.verdicts,
        Kind::Single,
        sig.as_slice(),
        key.as_slice(),
        &[],
    );
    let element = at(doing, verdict_element(verdict))?;
    board.push(element)
}

fn check_data(doing: Span, world: &World<'_>, board: &mut Board) -> Result<(), Stop> {
    let key = board.pop(doing)?;
    let message = board.pop(doing)?;
    let sig = board.pop(doing)?;
    let verdict = check_one(
        world.verdicts,
        Kind::DataSig,
        sig.as_slice(),
        key.as_slice(),
        message.as_slice(),
    );
    let element = at(doing, verdict_element(verdict))?;
    board.push(element)
}

/// Takes so many elements, in the order in which they were put.
fn take(alloc: Global, count: u8, doing: Span, board: &mut Board) -> Result<Vec<Element>, Stop> {
    let mut taken = Vec::new(alloc);
    for _ in 0..count {
        let element = board.pop(doing)?;
        if taken.push(element).is_err() {
            return Err(Stop::Memory);
        }
    }
    taken.reverse();
    Ok(taken)
}

fn check_multi(
    alloc: Global,
    sigs: u8,
    keys: u8,
    doing: Span,
    world: &World<'_>,
    board: &mut Board,
) -> Result<(), Stop> {
    let _ = board.pop(doing)?;
    let keys = take(alloc, keys, doing, board)?;
    let _ = board.pop(doing)?;
    let sigs = take(alloc, sigs, doing, board)?;
    let _ = board.pop(doing)?;
    if keys.len() > 20 || sigs.len() > keys.len() {
        return Err(failed(doing, Cause::CheckFailed));
    }
    let verdict = check_many(world.verdicts, sigs.as_slice(), keys.as_slice());
    let element = at(doing, verdict_element(verdict))?;
    board.push(element)
}
