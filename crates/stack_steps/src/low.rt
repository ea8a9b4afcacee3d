//! From slot code to rows, with the names in scope and what is live.

ghost use Rattle.std.specs.Prelude.{◌≡◌, ◌++◌, ◌∷◌, [], ◌≤◌, OnOk, IsTrue, if◌then◌else◌, false};
ghost use Rattle.slot_code.specs.Shape.{shapes_of, has, has_span, is_span, without};
ghost use Rattle.slot_liveness.specs.Counts.{count_of};
ghost use Rattle.slot_liveness.specs.Live.{reads_of, later, hold, either};
ghost use Rattle.stack_steps.specs.Lower.{IsNoChoice, Ready, statements_of};
ghost use Rattle.stack_steps.specs.Operations.{Started, Operates};
ghost use Rattle.stack_steps.specs.Steps.{Steps, marks_after};

use cash_base::{Memory, Slot, Span};
use script_codec::{Mark, Opcode};
use slot_code::{SlotInstr, SlotKind};
use slot_liveness::live::{is_kept, is_later, place};
use sqlite_items::Items;
use stack_emitter::emit::{DROP, Emitter, NIP};
use stack_emitter::opcodes::{
    is_size, opcode_of_look_at, opcode_of_look0, opcode1, opcode2, opcode3,
};
use stack_pieces::pieces::chunk;
use std::alloc::AllocError;

const VERIFY: Opcode = Opcode(0x69);

const SPLIT: Opcode = Opcode(0x7f);

const SIZE: Opcode = Opcode(0x82);

const CHECKSIG: Opcode = Opcode(0xac);

const CHECKMULTISIG: Opcode = Opcode(0xae);

const CHECKLOCKTIMEVERIFY: Opcode = Opcode(0xb1);

const CHECKSEQUENCEVERIFY: Opcode = Opcode(0xb2);

const CHECKDATASIG: Opcode = Opcode(0xba);

/// The code so far and the place after it, the names in scope, those that may not be ended here, and the marks.
#[derive(Drop)]
pub struct Low {
    pub emitter: Emitter,
    pub scope: Items<Slot>,
    pub outer: Items<Slot>,
    pub marks: Vec<Mark>,
}

fn is_same_span(a: Span, b: Span) -> bool
    ensures { result ≡ is_span a b }
{
    a.from == b.from && a.to == b.to
}

/// Whether a statement has begun. Mostly it is the one of the last mark.
#[tactic(auto, using(crate::proofs::Marked::found, crate::proofs::Marked::not_found))]
pub fn is_marked(marks: &[Mark], span: Span) -> bool
    ensures { result ≡ has_span span (statements_of marks.now) }
{
    let mut rest = marks;
    'rest: while let Some((last, before)) = rest.split_last() {
        if is_same_span(span, last.statement) {
            return true;
        }
        rest = before;
    }
    false
}

/// Whether an instruction is a choice.
pub fn is_choice(instr: &SlotInstr) -> bool
    ensures { result ≡ false → IsNoChoice instr.now }
{
    matches!(&instr.kind, SlotKind::If { .. })
}

impl Low {
    /// The statement begins here, if it hasn't begun.
    pub fn mark(&mut self, span: Span) -> Result<(), AllocError>
        ensures emitter { self.new.emitter ≡ self.old.emitter }
        ensures scope { self.new.scope ≡ self.old.scope }
        ensures outer { self.new.outer ≡ self.old.outer }
        ensures marks { OnOk result (self.new.marks.items ≡ marks_after span self.old) }
        ensures seen { OnOk result
            (statements_of self.new.marks.items
            ≡ (if has_span span (statements_of self.old.marks.items) then statements_of self.old.marks.items
            else statements_of self.old.marks.items ++ span ∷ [])) }
    {
        if !is_marked(self.marks.as_slice(), span) {
            let Ok(at) = u32::try_from(self.emitter.code.len()) else {
                return Err(AllocError);
            };
            let Ok(height) = u32::try_from(self.emitter.place.slots().len()) else {
                return Err(AllocError);
            };
            self.marks.push(Mark {
                at,
                height,
                statement: span,
            })?;
        }
        Ok(())
    }

    /// An instruction that works on operands alone, whose statement has begun.
    fn operate(&mut self, instr: &SlotInstr) -> Result<(), Memory>
        requires { Started instr.now self.old }
        ensures { OnOk result (Operates instr.now self.old self.new) }
    {
        let doing = instr.doing;
        let checking = instr.checking;
        match &instr.kind {
            SlotKind::Do1(op) => {
                if is_size(*op) {
                    self.emitter.work(SIZE, 1, 2, doing, checking)?;
                    self.emitter.work(NIP, 2, 1, doing, checking)?;
                } else {
                    self.emitter.work(opcode1(*op), 1, 1, doing, checking)?;
                }
                Ok(())
            }
            SlotKind::Do2(op) => {
                self.emitter.work(opcode2(*op), 2, 1, doing, checking)?;
                Ok(())
            }
            SlotKind::Do3(op) => {
                self.emitter.work(opcode3(*op), 3, 1, doing, checking)?;
                Ok(())
            }
            SlotKind::Split => {
                self.emitter.work(SPLIT, 2, 2, doing, checking)?;
                Ok(())
            }
            SlotKind::Keep(right) => {
                if *right {
                    self.emitter.work(NIP, 2, 1, doing, checking)?;
                } else {
                    self.emitter.work(DROP, 2, 1, doing, checking)?;
                }
                Ok(())
            }
            SlotKind::Look0(what) => {
                let opcode = opcode_of_look0(*what);
                self.emitter.work(opcode, 0, 1, doing, checking)?;
                Ok(())
            }
            SlotKind::LookAt(what) => {
                let opcode = opcode_of_look_at(*what);
                self.emitter.work(opcode, 1, 1, doing, checking)?;
                Ok(())
            }
            SlotKind::CheckSig => {
                self.emitter.work(CHECKSIG, 2, 1, doing, checking)?;
                Ok(())
            }
            SlotKind::CheckData => {
                self.emitter.work(CHECKDATASIG, 3, 1, doing, checking)?;
                Ok(())
            }
            SlotKind::CheckMulti { sigs, keys } => {
                let taken = usize::from(*keys) + usize::from(*sigs) + 3;
                self.emitter.work(CHECKMULTISIG, taken, 1, doing, checking)?;
                Ok(())
            }
            SlotKind::Chunk => {
                chunk(&mut self.emitter, doing, checking)?;
                Ok(())
            }
            SlotKind::Time => {
                self.emitter
                    .work(CHECKLOCKTIMEVERIFY, 1, 1, checking, checking)?;
                self.emitter.work(DROP, 1, 0, checking, checking)?;
                Ok(())
            }
            SlotKind::Age => {
                self.emitter
                    .work(CHECKSEQUENCEVERIFY, 1, 1, checking, checking)?;
                self.emitter.work(DROP, 1, 0, checking, checking)?;
                Ok(())
            }
            SlotKind::Require => {
                self.emitter.work(VERIFY, 1, 0, doing, checking)?;
                Ok(())
            }
            // No other kind works on operands alone.
            _ => Err(Memory),
        }
    }

    /// The slot is no longer in scope.
    #[tactic(auto, using(slot_liveness::proofs::Counts::removed, slot_liveness::proofs::Counts::less_is))]
    fn leave(&mut self, slot: Slot)
        requires some { IsTrue (has slot self.old.scope) }
        requires once { count_of slot self.old.scope ≤ 1 }
        ensures emitter { self.new.emitter ≡ self.old.emitter }
        ensures scope { self.new.scope ≡ without slot self.old.scope }
        ensures outer { self.new.outer ≡ self.old.outer }
        ensures marks { self.new.marks ≡ self.old.marks }
    {
        let at = place(self.scope.as_slice(), slot);
        let _ = self.scope.remove(at);
    }

    /// One instruction that is no choice, with the instructions of its block behind it.
    ///
    /// `after` are the slots that are read behind the block, `held` those that stay although no path from here reads them, and
    /// `body` is the function's. The only error is that memory ran out.
    pub fn step(
        &mut self,
        instr: &SlotInstr,
        rest: &[SlotInstr],
        after: &Items<Slot>,
        held: &Items<Slot>,
        body: &[SlotInstr],
    ) -> Result<(), Memory>
        requires no_choice { IsNoChoice instr.now }
        requires ready { Ready (shapes_of instr.now).inner (either (reads_of instr.now) (later rest.now after.now)) (hold body.now held.now) self.old }
        ensures { OnOk result (Steps instr.now (either (reads_of instr.now) (later rest.now after.now)) (later rest.now after.now) (hold body.now held.now) self.old self.new) }
    {
        let doing = instr.doing;
        let checking = instr.checking;
        self.mark(checking)?;
        match &instr.kind {
            SlotKind::Do1(_)
            | SlotKind::Do2(_)
            | SlotKind::Do3(_)
            | SlotKind::Split
            | SlotKind::Keep(_)
            | SlotKind::Look0(_)
            | SlotKind::LookAt(_)
            | SlotKind::CheckSig
            | SlotKind::CheckData
            | SlotKind::CheckMulti { .. }
            | SlotKind::Chunk
            | SlotKind::Time
            | SlotKind::Age
            | SlotKind::Require => {
                self.operate(instr)?;
                Ok(())
            }
            SlotKind::Lit(element) => {
                self.emitter.lit(element, doing, checking)?;
                Ok(())
            }
            SlotKind::Get(slot) => {
                let kept = is_kept(body, rest, after, held, *slot);
                self.emitter.read(*slot, kept, doing, checking)?;
                Ok(())
            }
            SlotKind::Define(slot) => {
                let kept = is_kept(body, rest, after, held, *slot);
                self.emitter.store(*slot, kept, checking)?;
                self.scope.push(*slot)?;
                Ok(())
            }
            SlotKind::Assign(slot) => {
                let later = is_later(rest, after, *slot);
                self.emitter.replace(*slot, later, checking)?;
                Ok(())
            }
            SlotKind::End(slot) => {
                self.emitter.forget(*slot, checking)?;
                self.leave(*slot);
                Ok(())
            }
            SlotKind::DefinePair(left, right) => {
                let left_kept = is_kept(body, rest, after, held, *left);
                let right_kept = is_kept(body, rest, after, held, *right);
                self.emitter
                    .store_pair(*left, *right, left_kept, right_kept, checking)?;
                self.scope.push(*left)?;
                self.scope.push(*right)?;
                Ok(())
            }
            SlotKind::If { .. } => unreachable!(),
        }
    }
}
