//! Choices, and blocks of instructions.

ghost use Rattle.std.specs.Prelude.{◌≡◌, ◌+◌, ◌*◌, ◌++◌, ◌∷◌, [], ◌≤◌, OnOk, IfOk, filter, map, length};
ghost use Rattle.script_codec.specs.declared.instr.Instr.TheVariants.{Do};
ghost use Rattle.slot_code.specs.Meaning.{act_of, run_of};
ghost use Rattle.slot_code.specs.Shape.{shapes_of, all_shapes};
ghost use Rattle.slot_liveness.specs.Counts.{count_of};
ghost use Rattle.slot_liveness.specs.Live.{reads_of, later, hold, either, kept, only_other};
ghost use Rattle.slot_code.specs.Weight.{weighs_of, all_weigh};
ghost use Rattle.stack_emitter.specs.Places.{spot};
ghost use Rattle.stack_emitter.specs.Codes.{bytes_of, ops_of};
ghost use Rattle.stack_emitter.specs.Correct.{Adds, nothing};
ghost use Rattle.stack_steps.specs.Lower.{IsNoChoice, Ready, Does};
ghost use Rattle.stack_steps.specs.Steps.{KeysKnown};
ghost use Rattle.stack_schedule.specs.Costs.{Counts};
ghost use Rattle.slot_code.specs.Spans.{spans_of, code_spans};
ghost use Rattle.stack_schedule.specs.Spans.{KeepsPlaces};
ghost use Rattle.stack_schedule.specs.Built.{Stepped, IsBuilt, One, Block};

use cash_base::{Memory, Slot, Span};
use script_codec::{Instr, Opcode};
use slot_code::{SlotInstr, SlotKind};
use slot_liveness::live::{copied, held_in, kept_among, live_among};
use sqlite_items::Items;
use stack_steps::low::Low;
use std::alloc::AllocError;

pub(crate) const IF: Opcode = Opcode(0x63);

pub(crate) const ELSE: Opcode = Opcode(0x67);

pub(crate) const ENDIF: Opcode = Opcode(0x68);

/// What the blocks of a choice are begun with: the slots that are live after it, what is held in each block, the layout and the
/// names in scope.
#[derive(Drop)]
pub(crate) struct Arms {
    pub(crate) live: Items<Slot>,
    pub(crate) held_yes: Items<Slot>,
    pub(crate) held_no: Items<Slot>,
    pub(crate) before: Items<Slot>,
    pub(crate) scope: Items<Slot>,
}

/// What the two blocks of a choice are begun with.
pub(crate) fn arms_of(
    low: &Low,
    yes: &[SlotInstr],
    no: &[SlotInstr],
    rest: &[SlotInstr],
    after: &Items<Slot>,
    held: &Items<Slot>,
) -> Result<Arms, AllocError>
    ensures live { IfOk result (λ arms. arms.live ≡ filter (later rest.now after.now) low.now.scope) }
    ensures held_yes { IfOk result (λ arms. arms.held_yes ≡ held.now ++ filter (only_other yes.now no.now) low.now.scope) }
    ensures held_no { IfOk result (λ arms. arms.held_no ≡ held.now ++ filter (only_other no.now yes.now) low.now.scope) }
    ensures before { IfOk result (λ arms. arms.before ≡ low.now.emitter.place.slots) }
    ensures scope { IfOk result (λ arms. arms.scope ≡ low.now.scope) }
{
    let alloc = low.emitter.alloc;
    let scope = &low.scope;
    let live = live_among(alloc, scope, rest, after)?;
    let held_yes = held_in(alloc, scope, held, yes, no)?;
    let held_no = held_in(alloc, scope, held, no, yes)?;
    let before = Items::from_slice(alloc, low.emitter.place.slots())?;
    let names = copied(alloc, scope)?;
    Ok(Arms {
        live,
        held_yes,
        held_no,
        before,
        scope: names,
    })
}

/// A row at which a block begins, and the place there.
fn begin(
    low: &mut Low,
    opcode: Opcode,
    slots: &Items<Slot>,
    doing: Span,
    checking: Span,
) -> Result<(), AllocError>
    ensures code { OnOk result
        (low.new.emitter.code.items
        ≡ low.old.emitter.code.items ++ record { instr = Do opcode; doing = doing; checking = checking } ∷ []) }
    ensures place { OnOk result (low.new.emitter.place ≡ spot [] slots.now) }
    ensures scope { low.new.scope ≡ low.old.scope }
    ensures outer { low.new.outer ≡ low.old.outer }
    ensures marks { low.new.marks ≡ low.old.marks }
{
    let slots = Vec::from_slice(low.emitter.alloc, slots.as_slice())?;
    low.emitter
        .branch(Instr::Do(opcode), slots, doing, checking)?;
    Ok(())
}

/// A block begins: no operands, the layout and the names before the choice, and the names that may not be ended there.
pub(crate) fn enter(
    low: &mut Low,
    opcode: Opcode,
    layout: &Items<Slot>,
    scope: &Items<Slot>,
    outer: &Items<Slot>,
    doing: Span,
    checking: Span,
) -> Result<(), Memory>
    ensures code { OnOk result
        (low.new.emitter.code.items
        ≡ low.old.emitter.code.items ++ record { instr = Do opcode; doing = doing; checking = checking } ∷ []) }
    ensures place { OnOk result (low.new.emitter.place ≡ spot [] layout.now) }
    ensures scope { OnOk result (low.new.scope ≡ scope.now) }
    ensures outer { OnOk result (low.new.outer ≡ outer.now) }
    ensures marks { low.new.marks ≡ low.old.marks }
{
    let names = copied(low.emitter.alloc, scope)?;
    let held = copied(low.emitter.alloc, outer)?;
    begin(low, opcode, layout, doing, checking)?;
    low.scope = names;
    low.outer = held;
    Ok(())
}

/// Drops what the choice doesn't leave, and answers what it leaves.
fn join(
    low: &mut Low,
    rest: &[SlotInstr],
    after: &Items<Slot>,
    held: &Items<Slot>,
    body: &[SlotInstr],
    checking: Span,
) -> Result<Items<Slot>, Memory>
    requires operands { low.old.emitter.place.operands ≡ [] }
    requires once { (s : Slot) → count_of s low.old.emitter.place.slots ≤ 1 }
    requires few { length low.old.emitter.place.slots ≤ 160 }
    ensures target { IfOk result (λ target. target ≡ filter (kept (later rest.now after.now) (hold body.now held.now)) low.old.emitter.place.slots) }
    ensures emits { OnOk result (Adds checking checking low.old.emitter low.new.emitter nothing) }
    ensures place { IfOk result (λ target. low.new.emitter.place ≡ spot [] target) }
    ensures bytes { OnOk result (bytes_of low.new.emitter.code.items ≤ bytes_of low.old.emitter.code.items + 5 * length low.old.emitter.place.slots) }
    ensures ops { OnOk result (ops_of low.new.emitter.code.items ≤ ops_of low.old.emitter.code.items + 2 * length low.old.emitter.place.slots) }
    ensures scope { low.new.scope ≡ low.old.scope }
    ensures outer { low.new.outer ≡ low.old.outer }
    ensures marks { low.new.marks ≡ low.old.marks }
{
    let alloc = low.emitter.alloc;
    let slots = Items::from_slice(alloc, low.emitter.place.slots())?;
    let target = kept_among(alloc, &slots, body, rest, after, held)?;
    low.emitter.settle(target.as_slice(), checking)?;
    Ok(target)
}

/// One instruction that is no choice. Where its statement begins with it there is a row.
pub(crate) fn step(
    low: &mut Low,
    instr: &SlotInstr,
    rest: &[SlotInstr],
    after: &Items<Slot>,
    held: &Items<Slot>,
    body: &[SlotInstr],
) -> Result<(), Memory>
    requires no_choice { IsNoChoice instr.now }
    requires ready { Ready (shapes_of instr.now).inner (either (reads_of instr.now) (later rest.now after.now)) (hold body.now held.now) low.old }
    ensures { OnOk result (Stepped body.now instr.now rest.now after.now held.now low.old low.new) }
{
    let marks = low.marks.len();
    let rows = low.emitter.code.len();
    low.step(instr, rest, after, held, body)?;
    // This never stops here: a first instruction finds no operands, so it reads a name or puts an element, and has a row.
    if low.marks.len() > marks && low.emitter.code.len() == rows {
        return Err(Memory);
    }
    Ok(())
}

#[cycle(lower)]
fn lower_all(
    low: &mut Low,
    instrs: &[SlotInstr],
    after: &Items<Slot>,
    held: &Items<Slot>,
    body: &[SlotInstr],
) -> Result<(), Memory>
    requires { Ready (all_shapes (map shapes_of instrs.now)) (later instrs.now after.now) (hold body.now held.now) low.old }
    ensures does { OnOk result (Does (λ world. run_of world instrs.now) (all_shapes (map shapes_of instrs.now)) (later instrs.now after.now) (later [] after.now) (hold body.now held.now) low.old low.new) }
    ensures counts { OnOk result (KeysKnown low.old.emitter → Counts (all_weigh (map weighs_of instrs.now)) low.old low.new) }
    ensures places { OnOk result (KeepsPlaces (code_spans instrs.now) low.old.emitter low.new.emitter) }
    ensures built { OnOk result (IsBuilt body.now (Block instrs.now) after.now held.now low.old low.new) }
{
    for (i, instr) in instrs.iter().enumerate() {
        lower_instr(low, instr, &instrs[i + 1..], after, held, body)?;
    }
    Ok(())
}

#[cycle(lower)]
pub(crate) fn lower_instr(
    low: &mut Low,
    instr: &SlotInstr,
    rest: &[SlotInstr],
    after: &Items<Slot>,
    held: &Items<Slot>,
    body: &[SlotInstr],
) -> Result<(), Memory>
    requires { Ready (shapes_of instr.now).inner (either (reads_of instr.now) (later rest.now after.now)) (hold body.now held.now) low.old }
    ensures does { OnOk result (Does (λ world. act_of world instr.now) (shapes_of instr.now).inner (either (reads_of instr.now) (later rest.now after.now)) (later rest.now after.now) (hold body.now held.now) low.old low.new) }
    ensures counts { OnOk result (KeysKnown low.old.emitter → Counts (weighs_of instr.now).inner low.old low.new) }
    ensures places { OnOk result (KeepsPlaces (spans_of instr.now) low.old.emitter low.new.emitter) }
    ensures built { OnOk result (IsBuilt body.now (One instr.now rest.now) after.now held.now low.old low.new) }
{
    let doing = instr.doing;
    let checking = instr.checking;
    if let SlotKind::If { yes, no } = &instr.kind {
        low.mark(checking)?;
        let yes = yes.as_slice();
        let no = no.as_slice();
        let arms = arms_of(low, yes, no, rest, after, held)?;
        let outer = copied(low.emitter.alloc, &low.outer)?;
        enter(
            low,
            IF,
            &arms.before,
            &arms.scope,
            &arms.scope,
            doing,
            checking,
        )?;
        lower_all(low, yes, &arms.live, &arms.held_yes, body)?;
        let joined = join(low, rest, after, held, body, checking)?;
        enter(
            low,
            ELSE,
            &arms.before,
            &arms.scope,
            &arms.scope,
            doing,
            checking,
        )?;
        lower_all(low, no, &arms.live, &arms.held_no, body)?;
        low.emitter.settle(joined.as_slice(), checking)?;
        low.emitter.put(Instr::Do(ENDIF), doing, checking)?;
        low.outer = outer;
        return Ok(());
    }
    step(low, instr, rest, after, held, body)?;
    Ok(())
}
