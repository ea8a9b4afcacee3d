//! One instruction more, each by a function of its own, so that no instruction stands in a frame of a recursion.

ghost use Rattle.std.specs.Prelude.{◌≡◌, ◌≤◌, ◌*◌, ◌<ℤ◌, negsuc, pos, length, ◌++◌, ◌∷◌, [], OnOk, IsTrue};
ghost use Rattle.cash_base.specs.Number.{minimal_bytes};
ghost use Rattle.element_ops.specs.Operand.{is_in_range, number_element, truth_element};
ghost use Rattle.tx_context.specs.Lookup.{sized};
ghost use Rattle.form_tables.specs.Forms.{pushed_chunk};
ghost use Rattle.slot_code.specs.declared.slots.SlotKind.TheVariants as kinds;
ghost use Rattle.slot_expressions.specs.Pieces.{instruction};
ghost use Rattle.slot_expressions.specs.Ready.{is_element};
ghost use Rattle.slot_expressions.specs.Rows.{IsLiteral, lit, binary_rows, cast_rows, part_rows};

use crate::expressions::Width;
use cash_base::element::copy_of;
use cash_base::{Element, Look0, LookAt, Memory, Slot, Span, write_number};
use element_ops::{Op1, Op2, Op3};
use form_tables::{BinaryForm, append_chunk};
use slot_code::{SlotInstr, SlotKind};
use sqlite_items::Items;
use type_tables::CastEffect;

fn put(
    code: &mut Items<SlotInstr>,
    kind: SlotKind,
    doing: Span,
    checking: Span,
) -> Result<(), Memory>
    ensures { OnOk result (code.new ≡ code.old ++ instruction kind doing checking ∷ []) }
{
    code.push(SlotInstr {
        kind,
        doing,
        checking,
    })?;
    Ok(())
}

#[inline(never)]
pub fn literal(
    code: &mut Items<SlotInstr>,
    bytes: &[u8],
    doing: Span,
    checking: Span,
) -> Result<(), Memory>
    requires { length bytes.now ≤ 520 }
    ensures { OnOk result (code.new ≡ code.old ++ instruction (lit bytes.now) doing checking ∷ []) }
{
    put(code, SlotKind::Lit(copy_of(bytes)), doing, checking)?;
    Ok(())
}

/// The literal of a number.
#[inline(never)]
pub fn number(
    code: &mut Items<SlotInstr>,
    n: i64,
    doing: Span,
    checking: Span,
) -> Result<(), Memory>
    requires { negsuc 9223372036854775807 <ℤ n }
    ensures { OnOk result (code.new ≡ code.old ++ instruction (lit (minimal_bytes n)) doing checking ∷ []) }
{
    put(code, SlotKind::Lit(write_number(n)), doing, checking)?;
    Ok(())
}

/// The literal of a number that is spelled with its unit.
#[inline(never)]
pub fn spelled(
    code: &mut Items<SlotInstr>,
    digits: u128,
    unit: u64,
    doing: Span,
    checking: Span,
) -> Result<(), Memory>
    requires { IsTrue (is_in_range (pos (digits * unit))) }
    ensures { OnOk result (IsLiteral code.old code.new (number_element (pos (digits * unit))) doing checking) }
{
    let n = digits * u128::from(unit);
    number(code, n as i64, doing, checking)?;
    Ok(())
}

/// The literal of a date.
#[inline(never)]
pub fn date(
    code: &mut Items<SlotInstr>,
    seconds: i64,
    doing: Span,
    checking: Span,
) -> Result<(), Memory>
    requires { IsTrue (is_in_range seconds) }
    ensures { OnOk result (IsLiteral code.old code.new (number_element seconds) doing checking) }
{
    number(code, seconds, doing, checking)?;
    Ok(())
}

/// The literal of a truth value.
#[inline(never)]
pub fn truth(
    code: &mut Items<SlotInstr>,
    b: bool,
    doing: Span,
    checking: Span,
) -> Result<(), Memory>
    ensures { OnOk result (IsLiteral code.old code.new (truth_element b) doing checking) }
{
    if b {
        literal(code, &[1], doing, checking)?;
        return Ok(());
    }
    literal(code, &[], doing, checking)?;
    Ok(())
}

/// The literal of bytes that the source spells.
#[inline(never)]
pub fn bytes(
    code: &mut Items<SlotInstr>,
    bytes: &[u8],
    doing: Span,
    checking: Span,
) -> Result<(), Memory>
    requires { IsTrue (is_element bytes.now) }
    ensures { OnOk result (IsLiteral code.old code.new (sized bytes.now) doing checking) }
{
    literal(code, bytes, doing, checking)?;
    Ok(())
}

/// The literal of a chunk behind its prefix.
#[inline(never)]
pub fn pushed(
    code: &mut Items<SlotInstr>,
    bytes: &[u8],
    doing: Span,
    checking: Span,
) -> Result<(), Memory>
    requires { length bytes.now ≤ 517 }
    ensures { OnOk result (code.new ≡ code.old ++ instruction (lit (pushed_chunk bytes.now)) doing checking ∷ []) }
{
    let script = chunk_of(bytes);
    put(code, SlotKind::Lit(script), doing, checking)?;
    Ok(())
}

/// A chunk behind its prefix.
#[tactic(auto, using(crate::proofs::Pushed::whole_chunk, crate::proofs::Pushed::never_long))]
fn chunk_of(bytes: &[u8]) -> Element
    requires { length bytes.now ≤ 517 }
    ensures { result.items ≡ pushed_chunk bytes.now }
{
    match append_chunk(&[], bytes) {
        Ok(script) => script,
        Err(_) => unreachable!(),
    }
}

/// The operation of an operator with two sides.
#[inline(never)]
pub fn binary(
    code: &mut Items<SlotInstr>,
    form: BinaryForm,
    doing: Span,
    checking: Span,
) -> Result<(), Memory>
    ensures { OnOk result (code.new ≡ code.old ++ binary_rows form doing checking) }
{
    match form {
        BinaryForm::Is(op) => {
            do2(code, op, doing, checking)?;
            Ok(())
        }
        BinaryForm::IsNot(op) => {
            do2(code, op, doing, checking)?;
            do1(code, Op1::Not, doing, checking)?;
            Ok(())
        }
    }
}

/// The operation of a cast without a size.
#[inline(never)]
pub fn cast(
    code: &mut Items<SlotInstr>,
    effect: Option<CastEffect>,
    doing: Span,
    checking: Span,
) -> Result<(), Memory>
    ensures { OnOk result (code.new ≡ code.old ++ cast_rows effect doing checking) }
{
    match effect {
        Some(CastEffect::NonZero) => {
            do1(code, Op1::NonZero, doing, checking)?;
            Ok(())
        }
        Some(CastEffect::Pad(n)) => {
            number(code, i64::from(n), doing, checking)?;
            do2(code, Op2::Pad, doing, checking)?;
            Ok(())
        }
        Some(CastEffect::ToNumber) => {
            do1(code, Op1::ToNumber, doing, checking)?;
            Ok(())
        }
        Some(CastEffect::Keep) | Some(CastEffect::PadToSize) | None => Ok(()),
    }
}

/// Of both parts of a split one is kept.
#[inline(never)]
pub fn part(
    code: &mut Items<SlotInstr>,
    width: Width,
    right: bool,
    doing: Span,
    checking: Span,
) -> Result<(), Memory>
    ensures { OnOk result (code.new ≡ code.old ++ part_rows width right doing checking) }
{
    match width {
        Width::One => Ok(()),
        Width::Two => {
            keep(code, right, doing, checking)?;
            Ok(())
        }
    }
}

#[inline(never)]
pub fn get(
    code: &mut Items<SlotInstr>,
    slot: Slot,
    doing: Span,
    checking: Span,
) -> Result<(), Memory>
    ensures { OnOk result (code.new ≡ code.old ++ instruction (kinds.Get slot) doing checking ∷ []) }
{
    put(code, SlotKind::Get(slot), doing, checking)?;
    Ok(())
}

#[inline(never)]
pub fn do1(code: &mut Items<SlotInstr>, op: Op1, doing: Span, checking: Span) -> Result<(), Memory>
    ensures { OnOk result (code.new ≡ code.old ++ instruction (kinds.Do1 op) doing checking ∷ []) }
{
    put(code, SlotKind::Do1(op), doing, checking)?;
    Ok(())
}

#[inline(never)]
pub fn do2(code: &mut Items<SlotInstr>, op: Op2, doing: Span, checking: Span) -> Result<(), Memory>
    ensures { OnOk result (code.new ≡ code.old ++ instruction (kinds.Do2 op) doing checking ∷ []) }
{
    put(code, SlotKind::Do2(op), doing, checking)?;
    Ok(())
}

#[inline(never)]
pub fn do3(code: &mut Items<SlotInstr>, op: Op3, doing: Span, checking: Span) -> Result<(), Memory>
    ensures { OnOk result (code.new ≡ code.old ++ instruction (kinds.Do3 op) doing checking ∷ []) }
{
    put(code, SlotKind::Do3(op), doing, checking)?;
    Ok(())
}

#[inline(never)]
pub fn split(code: &mut Items<SlotInstr>, doing: Span, checking: Span) -> Result<(), Memory>
    ensures { OnOk result (code.new ≡ code.old ++ instruction kinds.Split doing checking ∷ []) }
{
    put(code, SlotKind::Split, doing, checking)?;
    Ok(())
}

#[inline(never)]
pub fn keep(
    code: &mut Items<SlotInstr>,
    right: bool,
    doing: Span,
    checking: Span,
) -> Result<(), Memory>
    ensures { OnOk result (code.new ≡ code.old ++ instruction (kinds.Keep right) doing checking ∷ []) }
{
    put(code, SlotKind::Keep(right), doing, checking)?;
    Ok(())
}

#[inline(never)]
pub fn look0(
    code: &mut Items<SlotInstr>,
    what: Look0,
    doing: Span,
    checking: Span,
) -> Result<(), Memory>
    ensures { OnOk result (code.new ≡ code.old ++ instruction (kinds.Look0 what) doing checking ∷ []) }
{
    put(code, SlotKind::Look0(what), doing, checking)?;
    Ok(())
}

#[inline(never)]
pub fn look_at(
    code: &mut Items<SlotInstr>,
    what: LookAt,
    doing: Span,
    checking: Span,
) -> Result<(), Memory>
    ensures { OnOk result (code.new ≡ code.old ++ instruction (kinds.LookAt what) doing checking ∷ []) }
{
    put(code, SlotKind::LookAt(what), doing, checking)?;
    Ok(())
}

#[inline(never)]
pub fn check_sig(code: &mut Items<SlotInstr>, doing: Span, checking: Span) -> Result<(), Memory>
    ensures { OnOk result (code.new ≡ code.old ++ instruction kinds.CheckSig doing checking ∷ []) }
{
    put(code, SlotKind::CheckSig, doing, checking)?;
    Ok(())
}

#[inline(never)]
pub fn check_data(code: &mut Items<SlotInstr>, doing: Span, checking: Span) -> Result<(), Memory>
    ensures { OnOk result (code.new ≡ code.old ++ instruction kinds.CheckData doing checking ∷ []) }
{
    put(code, SlotKind::CheckData, doing, checking)?;
    Ok(())
}

#[inline(never)]
pub fn check_multi(
    code: &mut Items<SlotInstr>,
    sigs: u8,
    keys: u8,
    doing: Span,
    checking: Span,
) -> Result<(), Memory>
    ensures { OnOk result (code.new ≡ code.old ++ instruction (kinds.CheckMulti sigs keys) doing checking ∷ []) }
{
    put(code, SlotKind::CheckMulti { sigs, keys }, doing, checking)?;
    Ok(())
}

#[inline(never)]
pub fn chunk(code: &mut Items<SlotInstr>, doing: Span, checking: Span) -> Result<(), Memory>
    ensures { OnOk result (code.new ≡ code.old ++ instruction kinds.Chunk doing checking ∷ []) }
{
    put(code, SlotKind::Chunk, doing, checking)?;
    Ok(())
}

#[inline(never)]
pub fn time(code: &mut Items<SlotInstr>, doing: Span, checking: Span) -> Result<(), Memory>
    ensures { OnOk result (code.new ≡ code.old ++ instruction kinds.Time doing checking ∷ []) }
{
    put(code, SlotKind::Time, doing, checking)?;
    Ok(())
}

#[inline(never)]
pub fn age(code: &mut Items<SlotInstr>, doing: Span, checking: Span) -> Result<(), Memory>
    ensures { OnOk result (code.new ≡ code.old ++ instruction kinds.Age doing checking ∷ []) }
{
    put(code, SlotKind::Age, doing, checking)?;
    Ok(())
}

#[inline(never)]
pub fn require(code: &mut Items<SlotInstr>, doing: Span, checking: Span) -> Result<(), Memory>
    ensures { OnOk result (code.new ≡ code.old ++ instruction kinds.Require doing checking ∷ []) }
{
    put(code, SlotKind::Require, doing, checking)?;
    Ok(())
}

#[inline(never)]
pub fn define(
    code: &mut Items<SlotInstr>,
    slot: Slot,
    doing: Span,
    checking: Span,
) -> Result<(), Memory>
    ensures { OnOk result (code.new ≡ code.old ++ instruction (kinds.Define slot) doing checking ∷ []) }
{
    put(code, SlotKind::Define(slot), doing, checking)?;
    Ok(())
}

#[inline(never)]
pub fn define_pair(
    code: &mut Items<SlotInstr>,
    left: Slot,
    right: Slot,
    doing: Span,
    checking: Span,
) -> Result<(), Memory>
    ensures { OnOk result (code.new ≡ code.old ++ instruction (kinds.DefinePair left right) doing checking ∷ []) }
{
    put(code, SlotKind::DefinePair(left, right), doing, checking)?;
    Ok(())
}

#[inline(never)]
pub fn assign(
    code: &mut Items<SlotInstr>,
    slot: Slot,
    doing: Span,
    checking: Span,
) -> Result<(), Memory>
    ensures { OnOk result (code.new ≡ code.old ++ instruction (kinds.Assign slot) doing checking ∷ []) }
{
    put(code, SlotKind::Assign(slot), doing, checking)?;
    Ok(())
}

#[inline(never)]
pub fn end(
    code: &mut Items<SlotInstr>,
    slot: Slot,
    doing: Span,
    checking: Span,
) -> Result<(), Memory>
    ensures { OnOk result (code.new ≡ code.old ++ instruction (kinds.End slot) doing checking ∷ []) }
{
    put(code, SlotKind::End(slot), doing, checking)?;
    Ok(())
}

/// The literal of a count.
#[inline(never)]
pub fn count(code: &mut Items<SlotInstr>, n: u8, doing: Span, checking: Span) -> Result<(), Memory>
    ensures { OnOk result (code.new ≡ code.old ++ instruction (lit (minimal_bytes (pos n))) doing checking ∷ []) }
{
    number(code, i64::from(n), doing, checking)?;
    Ok(())
}
