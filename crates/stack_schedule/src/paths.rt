//! Blocks that end their paths.

ghost use Rattle.std.specs.Prelude.{◌≡◌, ◌∷◌, [], OnOk, map};
ghost use Rattle.slot_code.specs.Meaning.{act_of, run_of};
ghost use Rattle.slot_code.specs.Shape.{shapes_of};
ghost use Rattle.slot_code.specs.Weight.{weighs_of, path_weigh};
ghost use Rattle.slot_liveness.specs.Live.{reads_of, later, hold, either};
ghost use Rattle.stack_steps.specs.Lower.{IsNoChoice};
ghost use Rattle.stack_steps.specs.Steps.{KeysKnown};
ghost use Rattle.stack_schedule.specs.Costs.{CountsEnd};
ghost use Rattle.slot_code.specs.Spans.{spans_of, code_spans};
ghost use Rattle.stack_schedule.specs.Spans.{KeepsPlaces};
ghost use Rattle.stack_schedule.specs.Built.{IsBuilt, Last, Path};
ghost use Rattle.stack_schedule.specs.Endings.{MayEnd, Finishes, PathEnds, path_of, last_meant};

use crate::choices::{ELSE, ENDIF, IF, arms_of, enter, lower_instr, step};
use cash_base::{Memory, Slot, Span};
use script_codec::Instr;
use slot_code::{SlotInstr, SlotKind};
use slot_liveness::live::is_over;
use sqlite_items::Items;
use stack_steps::low::Low;

/// Does nothing. It is a law: what is asked of the last instruction of a path.
fn may_end(
    low: &Low,
    instr: &SlotInstr,
    rest: &[SlotInstr],
    after: &Items<Slot>,
    held: &Items<Slot>,
    body: &[SlotInstr],
)
    requires { MayEnd (shapes_of instr.now).last (either (reads_of instr.now) (later rest.now after.now)) (hold body.now held.now) low.now }
    ensures { MayEnd (shapes_of instr.now).last (either (reads_of instr.now) (later rest.now after.now)) (hold body.now held.now) low.now }
{}

/// A block that ends each of its paths.
#[cycle(tail)]
pub(crate) fn lower_tail(
    low: &mut Low,
    instrs: &[SlotInstr],
    after: &Items<Slot>,
    held: &Items<Slot>,
    body: &[SlotInstr],
    around: Span,
) -> Result<(), Memory>
    requires { MayEnd (path_of instrs.now) (later instrs.now after.now) (hold body.now held.now) low.old }
    ensures finishes { OnOk result (Finishes (λ world. run_of world instrs.now) (λ world. PathEnds world around instrs.now) (path_of instrs.now) (later instrs.now after.now) low.old low.new) }
    ensures counts { OnOk result (KeysKnown low.old.emitter → CountsEnd (path_weigh (map weighs_of instrs.now)) low.old low.new) }
    ensures places { OnOk result (KeepsPlaces (around ∷ code_spans instrs.now) low.old.emitter low.new.emitter) }
    ensures built { OnOk result (IsBuilt body.now (Path around instrs.now) after.now held.now low.old low.new) }
{
    for (i, instr) in instrs.iter().enumerate() {
        let rest = &instrs[i + 1..];
        if is_over(rest) {
            may_end(low, instr, rest, after, held, body);
            lower_last(low, instr, rest, after, held, body)?;
            return Ok(());
        }
        lower_instr(low, instr, rest, after, held, body)?;
    }
    low.emitter.finish_true(around)?;
    Ok(())
}

/// The last instruction of a path, behind which only names end.
#[cycle(tail)]
fn lower_last(
    low: &mut Low,
    instr: &SlotInstr,
    rest: &[SlotInstr],
    after: &Items<Slot>,
    held: &Items<Slot>,
    body: &[SlotInstr],
) -> Result<(), Memory>
    requires { MayEnd (shapes_of instr.now).last (either (reads_of instr.now) (later rest.now after.now)) (hold body.now held.now) low.old }
    ensures finishes { OnOk result (Finishes (λ world. act_of world instr.now) (last_meant instr.now) (shapes_of instr.now).last (either (reads_of instr.now) (later rest.now after.now)) low.old low.new) }
    ensures counts { OnOk result (KeysKnown low.old.emitter → CountsEnd (weighs_of instr.now).last low.old low.new) }
    ensures places { OnOk result (KeepsPlaces (spans_of instr.now) low.old.emitter low.new.emitter) }
    ensures built { OnOk result (IsBuilt body.now (Last instr.now rest.now) after.now held.now low.old low.new) }
{
    let doing = instr.doing;
    let checking = instr.checking;
    if let SlotKind::If { yes, no } = &instr.kind {
        low.mark(checking)?;
        let yes = yes.as_slice();
        let no = no.as_slice();
        let arms = arms_of(low, yes, no, rest, after, held)?;
        let none = Items::new(low.emitter.alloc);
        enter(low, IF, &arms.before, &arms.scope, &none, doing, checking)?;
        lower_tail(low, yes, &arms.live, &arms.held_yes, body, checking)?;
        enter(low, ELSE, &arms.before, &arms.scope, &none, doing, checking)?;
        lower_tail(low, no, &arms.live, &arms.held_no, body, checking)?;
        low.emitter.put(Instr::Do(ENDIF), doing, checking)?;
        return Ok(());
    }
    last_of_path(low, instr, rest, after, held, body)?;
    Ok(())
}

/// A check at the end of a path leaves its value, and any other instruction that is no choice one true element.
fn last_of_path(
    low: &mut Low,
    instr: &SlotInstr,
    rest: &[SlotInstr],
    after: &Items<Slot>,
    held: &Items<Slot>,
    body: &[SlotInstr],
) -> Result<(), Memory>
    requires no_choice { IsNoChoice instr.now }
    requires may { MayEnd (shapes_of instr.now).last (either (reads_of instr.now) (later rest.now after.now)) (hold body.now held.now) low.old }
    ensures finishes { OnOk result (Finishes (λ world. act_of world instr.now) (last_meant instr.now) (shapes_of instr.now).last (either (reads_of instr.now) (later rest.now after.now)) low.old low.new) }
    ensures counts { OnOk result (KeysKnown low.old.emitter → CountsEnd (weighs_of instr.now).last low.old low.new) }
    ensures places { OnOk result (KeepsPlaces (spans_of instr.now) low.old.emitter low.new.emitter) }
    ensures built { OnOk result (IsBuilt body.now (Last instr.now rest.now) after.now held.now low.old low.new) }
{
    let checking = instr.checking;
    if let SlotKind::Require = &instr.kind {
        low.mark(checking)?;
        low.emitter.finish(checking)?;
        return Ok(());
    }
    step(low, instr, rest, after, held, body)?;
    low.emitter.finish_true(checking)?;
    Ok(())
}
