//! The values of a run, on a stack whose places are reserved, so that a run takes no memory.

ghost use Rattle.std.specs.Prelude.{◌≡◌, ◌+◌, ◌*◌, ◌≤◌, ◌<◌, ◌==◌, if◌then◌else◌, length, pos, reverse, take, drop, unwrap_or, IfOk, IfErr, OnOk, Ok, Err, [], ◌∷◌};
ghost use Rattle.cash_base.specs.Number.{truth_of};
ghost use Rattle.cash_base.specs.Operand.{truth_bytes};
ghost use Rattle.element_ops.specs.declared.op.Op2.TheVariants.{Cat};
ghost use Rattle.element_ops.specs.Operand.{number_element};
ghost use Rattle.element_ops.specs.Operation.{result1, result2, result3, split_parts};
ghost use Rattle.tx_context.specs.Lookup.{sized, context_value, indexed_value, time_outcome, age_outcome};
ghost use Rattle.tx_context.specs.Verdict.{single_verdict};
ghost use Rattle.tx_context.specs.declared.verdict.Kind.TheVariants.{Single, DataSig};
ghost use Rattle.form_tables.specs.Forms.{binary_result, cast_result, verdict_result, data_front, pushed_chunk};
ghost use Rattle.meaning_room.specs.Meaning.{at_span, appended, checked_multi, left_of, locked, part_at, right_of, with_value};
ghost use Rattle.meaning_room.specs.Names.{env_of};
ghost use Rattle.meaning_room.specs.Stack.{top, below, size, given_on, under};

use crate::names::Names;
use crate::outcome::Failure;
use crate::world::World;
use cash_base::element::copy_of;
use cash_base::{
    Cause, Element, Look0, LookAt, MAX_ELEMENT_LEN, Memory, Slot, Span, truth, write_number,
};
use element_ops::{Op1, Op2, Op3, apply1, apply2, apply3, split};
use form_tables::{
    BinaryForm, Lock, append_chunk, apply_binary, apply_cast, lock_back, lock_front,
    verdict_element,
};
use std::alloc::Global;
use std::marker::Model;
use tx_context::{Kind, age_met, check_many, check_one, look_at, look0, time_met};
use type_tables::CastEffect;

/// The places: at most one for each node of an expression.
pub const PLACES: usize = 1000;

/// What an expression leaves: an element, or both parts of a split.
#[derive(Clone, Copy, Debug, PartialEq, Eq)]
pub enum Width {
    One,
    Two,
}

/// The values of a run, which contracts see as their bytes, the latest first.
#[derive(Drop)]
pub struct Operands {
    items: Vec<Element>,
}

impl Model for Operands {
    ghost use Rattle.std.specs.Prelude.{◌≤◌, length, reverse, map, vec_capacity};
    ghost use Rattle.meaning_room.specs.Stack.{Stack};

    ghost Value = { Stack };

    ghost view = { λ operands. reverse (map (λ e. e.items) operands.items.items) };

    ghost invariant = { λ operands. (1000 ≤ vec_capacity operands.items) × (length operands.items.items ≤ 1000) };
}

/// The failure of an operation at its expression.
fn failed<T>(span: Span, outcome: Result<T, Cause>) -> Result<T, Failure>
    ensures { result ≡ at_span span outcome }
{
    match outcome {
        Ok(value) => Ok(value),
        Err(cause) => Err(Failure { span, cause }),
    }
}

impl Operands {
    /// No values; their places are reserved.
    pub fn new(alloc: Global) -> Result<Operands, Memory>
        ensures { IfOk result (λ operands. operands ≡ []) }
    {
        let mut items = Vec::new(alloc);
        items.reserve(PLACES)?;
        Ok(Operands { items })
    }

    pub fn clear(&mut self)
        ensures { self.new ≡ [] }
    {
        self.items.clear();
    }

    fn push(&mut self, element: Element)
        requires { length self.old < 1000 }
        ensures { self.new ≡ element.items ∷ self.old }
    {
        let _ = self.items.push(element);
    }

    /// Takes the latest value.
    #[inline(never)]
    fn pop(&mut self) -> Element
        ensures value { result.items ≡ top self.old }
        ensures rest { self.new ≡ below self.old }
        ensures place { length self.new < 1000 }
    {
        match self.items.pop() {
            Some(element) => element,
            None => Element::new(),
        }
    }

    /// Puts a number that a literal spells with its unit.
    #[inline(never)]
    pub fn literal(&mut self, digits: u128, unit: u64, span: Span) -> Result<(), Failure>
        requires places { length self.old < 1000 }
        ensures value { OnOk result (at_span span (number_element (pos (digits * unit))) ≡ Ok (top self.new)) }
        ensures rest { OnOk result (below self.new ≡ self.old) }
        ensures height { OnOk result (length self.new + 0 ≡ length self.old + 1) }
        ensures err { IfErr result (λ failure. at_span span (number_element (pos (digits * unit))) ≡ Err failure) }
    {
        let value = failed(span, literal_element(digits, unit))?;
        self.push(value);
        Ok(())
    }

    /// Puts the number of a date.
    #[inline(never)]
    pub fn date(&mut self, seconds: i64, span: Span) -> Result<(), Failure>
        requires places { length self.old < 1000 }
        ensures value { OnOk result (at_span span (number_element seconds) ≡ Ok (top self.new)) }
        ensures rest { OnOk result (below self.new ≡ self.old) }
        ensures height { OnOk result (length self.new + 0 ≡ length self.old + 1) }
        ensures err { IfErr result (λ failure. at_span span (number_element seconds) ≡ Err failure) }
    {
        let value = failed(span, date_element(seconds))?;
        self.push(value);
        Ok(())
    }

    /// Puts a truth value.
    #[inline(never)]
    pub fn truth_value(&mut self, value: bool)
        requires { length self.old < 1000 }
        ensures { self.new ≡ truth_bytes value ∷ self.old }
    {
        self.push(truth_element(value));
    }

    /// Puts the element of a name.
    #[inline(never)]
    pub fn name(&mut self, slot: Slot, names: &Names)
        requires { length self.old < 1000 }
        ensures { self.new ≡ unwrap_or (env_of names.now slot) [] ∷ self.old }
    {
        self.push(names.get(slot));
    }

    /// Puts what a script of data begins with.
    #[inline(never)]
    pub fn begin_data(&mut self)
        requires { length self.old < 1000 }
        ensures { self.new ≡ data_front ∷ self.old }
    {
        self.push(copy_of(&[0x6a]));
    }

    /// Puts bytes of a literal.
    #[inline(never)]
    pub fn bytes(&mut self, bytes: &[u8], span: Span) -> Result<(), Failure>
        requires places { length self.old < 1000 }
        ensures value { OnOk result (at_span span (sized bytes.now) ≡ Ok (top self.new)) }
        ensures rest { OnOk result (below self.new ≡ self.old) }
        ensures height { OnOk result (length self.new + 0 ≡ length self.old + 1) }
        ensures err { IfErr result (λ failure. at_span span (sized bytes.now) ≡ Err failure) }
    {
        let value = failed(span, sized_element(bytes))?;
        self.push(value);
        Ok(())
    }

    /// Puts what is asked of the whole transaction.
    #[inline(never)]
    pub fn look0(&mut self, what: Look0, world: &World<'_>, span: Span) -> Result<(), Failure>
        requires places { length self.old < 1000 }
        ensures value { OnOk result (at_span span (context_value world.now.context what world.now.redeem) ≡ Ok (top self.new)) }
        ensures rest { OnOk result (below self.new ≡ self.old) }
        ensures height { OnOk result (length self.new + 0 ≡ length self.old + 1) }
        ensures err { IfErr result (λ failure. at_span span (context_value world.now.context what world.now.redeem) ≡ Err failure) }
    {
        let value = failed(span, look0(world.ctx, what, world.redeem))?;
        self.push(value);
        Ok(())
    }

    /// An operation on the latest value.
    #[inline(never)]
    pub fn unary(&mut self, op: Op1, span: Span) -> Result<(), Failure>
        requires operands { 1 ≤ length self.old }
        ensures value { OnOk result (at_span span (result1 op (top self.old)) ≡ Ok (top self.new)) }
        ensures rest { OnOk result (below self.new ≡ below self.old) }
        ensures height { OnOk result (length self.new + 1 ≡ length self.old + 1) }
        ensures err { IfErr result (λ failure. at_span span (result1 op (top self.old)) ≡ Err failure) }
    {
        let a = self.pop();
        let value = failed(span, apply1(op, a.as_slice()))?;
        self.push(value);
        Ok(())
    }

    /// A cast of the latest value.
    #[inline(never)]
    pub fn cast(&mut self, effect: Option<CastEffect>, span: Span) -> Result<(), Failure>
        requires operands { 1 ≤ length self.old }
        ensures value { OnOk result (at_span span (cast_result effect (top self.old)) ≡ Ok (top self.new)) }
        ensures rest { OnOk result (below self.new ≡ below self.old) }
        ensures height { OnOk result (length self.new + 1 ≡ length self.old + 1) }
        ensures err { IfErr result (λ failure. at_span span (cast_result effect (top self.old)) ≡ Err failure) }
    {
        let a = self.pop();
        let value = failed(span, apply_cast(effect, a.as_slice()))?;
        self.push(value);
        Ok(())
    }

    /// What is asked of the input or output at the latest value.
    #[inline(never)]
    pub fn look_at(&mut self, what: LookAt, world: &World<'_>, span: Span) -> Result<(), Failure>
        requires operands { 1 ≤ length self.old }
        ensures value { OnOk result (at_span span (indexed_value world.now.context what (top self.old)) ≡ Ok (top self.new)) }
        ensures rest { OnOk result (below self.new ≡ below self.old) }
        ensures height { OnOk result (length self.new + 1 ≡ length self.old + 1) }
        ensures err { IfErr result (λ failure. at_span span (indexed_value world.now.context what (top self.old)) ≡ Err failure) }
    {
        let a = self.pop();
        let value = failed(span, look_at(world.ctx, what, a.as_slice()))?;
        self.push(value);
        Ok(())
    }

    /// The script of a lock around the latest value.
    #[inline(never)]
    pub fn lock(&mut self, lock: Lock, span: Span) -> Result<(), Failure>
        requires operands { 1 ≤ length self.old }
        ensures value { OnOk result (locked span lock (top self.old) ≡ Ok (top self.new)) }
        ensures rest { OnOk result (below self.new ≡ below self.old) }
        ensures height { OnOk result (length self.new + 1 ≡ length self.old + 1) }
        ensures err { IfErr result (λ failure. locked span lock (top self.old) ≡ Err failure) }
    {
        let hash = self.pop();
        let front = failed(span, apply2(Op2::Cat, lock_front(lock), hash.as_slice()))?;
        let value = failed(span, apply2(Op2::Cat, front.as_slice(), lock_back(lock)))?;
        self.push(value);
        Ok(())
    }

    /// An operator on the two latest values, of which the upper is the right side.
    #[inline(never)]
    pub fn binary(&mut self, form: BinaryForm, span: Span) -> Result<(), Failure>
        requires operands { 2 ≤ length self.old }
        ensures value { OnOk result (at_span span (binary_result form (top (below self.old)) (top self.old)) ≡ Ok (top self.new)) }
        ensures rest { OnOk result (below self.new ≡ below (below self.old)) }
        ensures height { OnOk result (length self.new + 2 ≡ length self.old + 1) }
        ensures err { IfErr result (λ failure. at_span span (binary_result form (top (below self.old)) (top self.old)) ≡ Err failure) }
    {
        let b = self.pop();
        let a = self.pop();
        let value = failed(span, apply_binary(form, a.as_slice(), b.as_slice()))?;
        self.push(value);
        Ok(())
    }

    /// A script of data, under the latest value, with that as one chunk more.
    #[inline(never)]
    pub fn append_chunk(&mut self, span: Span) -> Result<(), Failure>
        requires operands { 2 ≤ length self.old }
        ensures value { OnOk result (appended span (top (below self.old)) (pushed_chunk (top self.old)) ≡ Ok (top self.new)) }
        ensures rest { OnOk result (below self.new ≡ below (below self.old)) }
        ensures height { OnOk result (length self.new + 2 ≡ length self.old + 1) }
        ensures err { IfErr result (λ failure. appended span (top (below self.old)) (pushed_chunk (top self.old)) ≡ Err failure) }
    {
        let chunk = self.pop();
        let so_far = self.pop();
        let value = failed(span, append_chunk(so_far.as_slice(), chunk.as_slice()))?;
        self.push(value);
        Ok(())
    }

    /// The check of a signature by the two latest values.
    #[inline(never)]
    pub fn check_sig(&mut self, world: &World<'_>, span: Span) -> Result<(), Failure>
        requires operands { 2 ≤ length self.old }
        ensures value { OnOk result (at_span span (verdict_result (single_verdict world.now.verdicts Single (top (below self.old)) (top self.old) [])) ≡ Ok (top self.new)) }
        ensures rest { OnOk result (below self.new ≡ below (below self.old)) }
        ensures height { OnOk result (length self.new + 2 ≡ length self.old + 1) }
        ensures err { IfErr result (λ failure. at_span span (verdict_result (single_verdict world.now.verdicts Single (top (below self.old)) (top self.old) [])) ≡ Err failure) }
    {
        let key = self.pop();
        let sig = self.pop();
        let verdict = check_one(world.verdicts, Kind::Single, &sig, &key, &[]);
        let value = failed(span, verdict_element(verdict))?;
        self.push(value);
        Ok(())
    }

    /// An operation on the three latest values.
    #[inline(never)]
    pub fn three(&mut self, op: Op3, span: Span) -> Result<(), Failure>
        requires operands { 3 ≤ length self.old }
        ensures value { OnOk result (at_span span (result3 op (top (below (below self.old))) (top (below self.old)) (top self.old)) ≡ Ok (top self.new)) }
        ensures rest { OnOk result (below self.new ≡ below (below (below self.old))) }
        ensures height { OnOk result (length self.new + 3 ≡ length self.old + 1) }
        ensures err { IfErr result (λ failure. at_span span (result3 op (top (below (below self.old))) (top (below self.old)) (top self.old)) ≡ Err failure) }
    {
        let c = self.pop();
        let b = self.pop();
        let a = self.pop();
        let value = failed(span, apply3(op, a.as_slice(), b.as_slice(), c.as_slice()))?;
        self.push(value);
        Ok(())
    }

    /// The check of a message's signature by the three latest values.
    #[inline(never)]
    pub fn check_data(&mut self, world: &World<'_>, span: Span) -> Result<(), Failure>
        requires operands { 3 ≤ length self.old }
        ensures value { OnOk result (at_span span (verdict_result (single_verdict world.now.verdicts DataSig (top (below (below self.old))) (top self.old) (top (below self.old)))) ≡ Ok (top self.new)) }
        ensures rest { OnOk result (below self.new ≡ below (below (below self.old))) }
        ensures height { OnOk result (length self.new + 3 ≡ length self.old + 1) }
        ensures err { IfErr result (λ failure. at_span span (verdict_result (single_verdict world.now.verdicts DataSig (top (below (below self.old))) (top self.old) (top (below self.old)))) ≡ Err failure) }
    {
        let key = self.pop();
        let message = self.pop();
        let sig = self.pop();
        let verdict = check_one(world.verdicts, Kind::DataSig, &sig, &key, &message);
        let value = failed(span, verdict_element(verdict))?;
        self.push(value);
        Ok(())
    }

    /// The two parts of a split of the value under the latest one, at that.
    #[inline(never)]
    pub fn split(&mut self, span: Span) -> Result<(), Failure>
        requires operands { 2 ≤ length self.old }
        ensures value { OnOk result (at_span span (split_parts (top (below self.old)) (top self.old)) ≡ Ok (top (below self.new), top self.new)) }
        ensures rest { OnOk result (below (below self.new) ≡ below (below self.old)) }
        ensures height { OnOk result (length self.new ≡ length self.old) }
        ensures err { IfErr result (λ failure.
            at_span span (split_parts (top (below self.old)) (top self.old)) ≡ Err failure) }
    {
        let at = self.pop();
        let whole = self.pop();
        let (left, right) = failed(span, split(whole.as_slice(), at.as_slice()))?;
        self.push(left);
        self.push(right);
        Ok(())
    }

    /// The part of a split with this number, of what an expression left.
    #[inline(never)]
    pub fn part(&mut self, width: Width, number: u128)
        requires operands { size width ≤ length self.old }
        ensures value { top self.new ≡ part_at number (given_on width self.old) }
        ensures rest { below self.new ≡ under width self.old }
        ensures height { length self.new + size width ≡ length self.old + 1 }
    {
        match width {
            Width::One => {}
            Width::Two => {
                let right = self.pop();
                if number != 0 {
                    let _ = self.pop();
                    self.push(right);
                }
            }
        }
    }

    /// The check of several signatures by the latest values: so many keys, and under them so many signatures.
    #[inline(never)]
    pub fn check_multi(
        &mut self,
        sigs: usize,
        keys: usize,
        world: &World<'_>,
        span: Span,
    ) -> Result<(), Failure>
        requires operands { sigs + keys ≤ length self.old }
        requires place { length self.old + 1 ≤ 1000 + sigs + keys }
        ensures value { OnOk result (at_span span (verdict_result (checked_multi world.now.verdicts
            (reverse (take sigs (drop keys self.old))) (reverse (take keys self.old)))) ≡ Ok (top self.new)) }
        ensures rest { OnOk result (below self.new ≡ drop (sigs + keys) self.old) }
        ensures height { OnOk result (length self.new + (sigs + keys) ≡ length self.old + 1) }
        ensures err { IfErr result (λ failure. at_span span (verdict_result (checked_multi world.now.verdicts
            (reverse (take sigs (drop keys self.old))) (reverse (take keys self.old)))) ≡ Err failure) }
    {
        let verdict = self.multi_verdict(sigs, keys, world);
        let height = self.items.len() - keys - sigs;
        self.items.truncate(height);
        let value = failed(span, verdict_element(verdict))?;
        self.push(value);
        Ok(())
    }

    fn multi_verdict(&self, sigs: usize, keys: usize, world: &World<'_>) -> Result<bool, Cause>
        requires { sigs + keys ≤ length self.now }
        ensures { result ≡ checked_multi world.now.verdicts
            (reverse (take sigs (drop keys self.now))) (reverse (take keys self.now)) }
    {
        if keys > 20 || sigs > keys {
            return Err(Cause::CheckFailed);
        }
        let all = self.items.as_slice();
        let (others, last) = all.split_at(all.len() - keys);
        let (_, first) = others.split_at(others.len() - sigs);
        check_many(world.verdicts, first, last)
    }

    /// Takes what an expression left, and keeps the element, or the left part.
    #[inline(never)]
    pub fn keep_left(&mut self, width: Width)
        requires { size width ≤ length self.old }
        ensures value { top self.new ≡ left_of (given_on width self.old) }
        ensures rest { below self.new ≡ under width self.old }
        ensures height { length self.new + size width ≡ length self.old + 1 }
    {
        match width {
            Width::One => {}
            Width::Two => {
                let _ = self.pop();
            }
        }
    }

    /// Whether the latest value is true.
    #[inline(never)]
    pub fn truth(&self) -> bool
        ensures { result ≡ truth_of (top self.now) }
    {
        match self.items.last() {
            Some(value) => truth(value.as_slice()),
            None => false,
        }
    }

    /// Gives a name the latest value.
    #[inline(never)]
    pub fn give(&mut self, names: &mut Names, slot: Slot)
        requires { slot.0 < 160 }
        ensures name { env_of names.new ≡ with_value slot (top self.old) (env_of names.old) }
        ensures rest { self.new ≡ below self.old }
    {
        let value = self.pop();
        names.set(slot, value);
    }

    /// Gives two names both parts of a split, of what an expression left.
    #[inline(never)]
    pub fn give_both(&mut self, width: Width, names: &mut Names, left: Slot, right: Slot)
        requires left { left.0 < 160 }
        requires right { right.0 < 160 }
        ensures { env_of names.new ≡ with_value right (right_of (given_on width self.old))
            (with_value left (left_of (given_on width self.old)) (env_of names.old)) }
    {
        let last = self.pop();
        match width {
            Width::One => names.set(left, copy_of(last.as_slice())),
            Width::Two => {
                let first = self.pop();
                names.set(left, first);
            }
        }
        names.set(right, last);
    }

    /// Whether the transaction's lock time is at least the latest value.
    #[inline(never)]
    pub fn time(&self, world: &World<'_>, span: Span) -> Result<(), Failure>
        ensures { result ≡ at_span span (time_outcome world.now.context (top self.now)) }
    {
        failed(span, time_met(world.ctx, &self.latest()))
    }

    /// Whether the active input is at least as old as the latest value.
    #[inline(never)]
    pub fn age(&self, world: &World<'_>, span: Span) -> Result<(), Failure>
        ensures { result ≡ at_span span (age_outcome world.now.context (top self.now)) }
    {
        failed(span, age_met(world.ctx, &self.latest()))
    }

    fn latest(&self) -> Element
        ensures { result.items ≡ top self.now }
    {
        match self.items.last() {
            Some(value) => copy_of(value.as_slice()),
            None => Element::new(),
        }
    }
}

fn literal_element(digits: u128, unit: u64) -> Result<Element, Cause>
    ensures value { IfOk result (λ e. number_element (pos (digits * unit)) ≡ Ok e.items) }
    ensures cause { IfErr result (λ cause. number_element (pos (digits * unit)) ≡ Err cause) }
{
    match digits.checked_mul(u128::from(unit)) {
        Some(n) if n < 1 << 63 => Ok(write_number(n as i64)),
        _ => Err(Cause::NumberRange),
    }
}

fn date_element(seconds: i64) -> Result<Element, Cause>
    ensures value { IfOk result (λ e. number_element seconds ≡ Ok e.items) }
    ensures cause { IfErr result (λ cause. number_element seconds ≡ Err cause) }
{
    if seconds.unsigned_abs() >= 1 << 63 {
        return Err(Cause::NumberRange);
    }
    Ok(write_number(seconds))
}

fn truth_element(value: bool) -> Element
    ensures { result.items ≡ truth_bytes value }
{
    let mut element = Element::new();
    if value {
        element.push(1);
    }
    element
}

fn sized_element(bytes: &[u8]) -> Result<Element, Cause>
    ensures value { IfOk result (λ e. sized bytes.now ≡ Ok e.items) }
    ensures cause { IfErr result (λ cause. sized bytes.now ≡ Err cause) }
{
    if bytes.len() > MAX_ELEMENT_LEN {
        return Err(Cause::Oversize);
    }
    Ok(copy_of(bytes))
}
