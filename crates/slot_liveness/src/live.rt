//! Which slots are read later, and which are kept.

ghost use Rattle.std.specs.Prelude.{◌≡◌, List, ◌++◌, map, filter, length, false, IfOk, IsTrue, Some, ◌↔◌};
ghost use Rattle.slot_code.specs.Shape;
ghost use Rattle.slot_code.specs.Shape.{has, shapes_of};
ghost use Rattle.slot_liveness.specs.Counts.{place_of};
ghost use Rattle.slot_liveness.specs.Live.{reads_of, all_later, later, hold, kept, only_other};

use cash_base::Slot;
use slot_code::{SlotInstr, SlotKind};
use sqlite_items::Items;
use std::alloc::{AllocError, Global};

/// The place of a slot.
fn index_of(slots: &[Slot], slot: Slot) -> Option<usize>
    ensures { result ≡ place_of slot slots.now }
{
    slots.iter().position(|other| other.0 == slot.0)
}

/// The place of a slot that stands in the list.
#[tactic(auto, using(crate::proofs::Counts::placed))]
pub fn place(slots: &[Slot], slot: Slot) -> usize
    requires { IsTrue (has slot slots.now) }
    ensures { place_of slot slots.now ≡ Some result }
{
    index_of(slots, slot).unwrap()
}

pub fn contains(slots: &[Slot], slot: Slot) -> bool
    ensures { result ≡ has slot slots.now }
{
    slots.iter().any(|other| other.0 == slot.0)
}

pub fn is_same(a: &[Slot], b: &[Slot]) -> bool
    ensures { IsTrue result ↔ (a.now ≡ b.now) }
{
    a == b
}

/// Whether a run of the instructions may read the slot, or what comes after them does.
#[cycle(reads)]
pub fn reads_all(instrs: &[SlotInstr], slot: Slot, after: bool) -> bool
    ensures { result ≡ all_later (map reads_of instrs.now) slot after }
{
    for instr in instrs {
        if reads(instr, slot) {
            return true;
        }
    }
    after
}

#[cycle(reads)]
pub fn reads(instr: &SlotInstr, slot: Slot) -> bool
    ensures { result ≡ reads_of instr.now slot }
{
    match &instr.kind {
        SlotKind::Get(other) => other.0 == slot.0,
        SlotKind::If { yes, no } => {
            reads_all(yes.as_slice(), slot, false) || reads_all(no.as_slice(), slot, false)
        }
        SlotKind::Lit(_)
        | SlotKind::Do1(_)
        | SlotKind::Do2(_)
        | SlotKind::Do3(_)
        | SlotKind::Split
        | SlotKind::Keep(_)
        | SlotKind::Look0(_)
        | SlotKind::LookAt(_)
        | SlotKind::CheckSig
        | SlotKind::CheckData
        | SlotKind::CheckMulti { .. }
        | SlotKind::Time
        | SlotKind::Age
        | SlotKind::Require
        | SlotKind::Chunk
        | SlotKind::Define(_)
        | SlotKind::DefinePair(_, _)
        | SlotKind::Assign(_)
        | SlotKind::End(_) => false,
    }
}

/// Whether an instruction ends a name.
#[tactic(auto, unfolding(slot_code::specs::Shape::shapes_of))]
fn is_end(instr: &SlotInstr) -> bool
    ensures { result ≡ (shapes_of instr.now).is_end }
{
    match &instr.kind {
        SlotKind::End(_) => true,
        SlotKind::Lit(_)
        | SlotKind::Get(_)
        | SlotKind::Do1(_)
        | SlotKind::Do2(_)
        | SlotKind::Do3(_)
        | SlotKind::Split
        | SlotKind::Keep(_)
        | SlotKind::Look0(_)
        | SlotKind::LookAt(_)
        | SlotKind::CheckSig
        | SlotKind::CheckData
        | SlotKind::CheckMulti { .. }
        | SlotKind::Time
        | SlotKind::Age
        | SlotKind::Require
        | SlotKind::Chunk
        | SlotKind::Define(_)
        | SlotKind::DefinePair(_, _)
        | SlotKind::Assign(_)
        | SlotKind::If { .. } => false,
    }
}

/// Whether only ends of names are left.
pub fn is_over(rest: &[SlotInstr]) -> bool
    ensures { result ≡ Shape.is_over (map shapes_of rest.now) }
{
    for instr in rest {
        if !is_end(instr) {
            return false;
        }
    }
    true
}

pub fn is_later(rest: &[SlotInstr], after: &Items<Slot>, slot: Slot) -> bool
    ensures { result ≡ later rest.now after.now slot }
{
    reads_all(rest, slot, contains(after.as_slice(), slot))
}

pub fn is_held(body: &[SlotInstr], held: &Items<Slot>, slot: Slot) -> bool
    ensures { result ≡ hold body.now held.now slot }
{
    contains(held.as_slice(), slot) || !reads_all(body, slot, false)
}

pub fn is_kept(
    body: &[SlotInstr],
    rest: &[SlotInstr],
    after: &Items<Slot>,
    held: &Items<Slot>,
    slot: Slot,
) -> bool
    ensures { result ≡ kept (later rest.now after.now) (hold body.now held.now) slot }
{
    is_later(rest, after, slot) || is_held(body, held, slot)
}

pub fn copied(alloc: Global, slots: &Items<Slot>) -> Result<Items<Slot>, AllocError>
    ensures { IfOk result (λ copy. copy ≡ slots.now) }
{
    let copy = Items::from_slice(alloc, slots.as_slice())?;
    Ok(copy)
}

/// The slots that are read later.
pub fn live_among(
    alloc: Global,
    slots: &Items<Slot>,
    rest: &[SlotInstr],
    after: &Items<Slot>,
) -> Result<Items<Slot>, AllocError>
    ensures { IfOk result (λ live. live ≡ filter (later rest.now after.now) slots.now) }
{
    let mut live = Items::new(alloc);
    for slot in slots.as_slice() {
        if is_later(rest, after, *slot) {
            live.push(*slot)?;
        }
    }
    Ok(live)
}

/// The slots that are kept.
pub fn kept_among(
    alloc: Global,
    slots: &Items<Slot>,
    body: &[SlotInstr],
    rest: &[SlotInstr],
    after: &Items<Slot>,
    held: &Items<Slot>,
) -> Result<Items<Slot>, AllocError>
    ensures { IfOk result (λ left. left ≡ filter (kept (later rest.now after.now) (hold body.now held.now)) slots.now) }
{
    let mut left = Items::new(alloc);
    for slot in slots.as_slice() {
        if is_kept(body, rest, after, held, *slot) {
            left.push(*slot)?;
        }
    }
    Ok(left)
}

/// What is held in a block: what was held around it, and what the other block alone reads.
pub fn held_in(
    alloc: Global,
    slots: &Items<Slot>,
    held: &Items<Slot>,
    own: &[SlotInstr],
    other: &[SlotInstr],
) -> Result<Items<Slot>, AllocError>
    ensures { IfOk result (λ all. all ≡ held.now ++ filter (only_other own.now other.now) slots.now) }
{
    let mut all = Items::from_slice(alloc, held.as_slice())?;
    for slot in slots.as_slice() {
        if reads_all(other, *slot, false) && !reads_all(own, *slot, false) {
            all.push(*slot)?;
        }
    }
    Ok(all)
}
