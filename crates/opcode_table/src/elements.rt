//! A stack of elements in a room that is reserved at first, so that what is done with it takes no memory.

ghost use Rattle.std.specs.Prelude.{◌≡◌, ◌+◌, ◌≤◌, ◌<◌, List, ℕ, length, map, reverse, take, slice_index_or, IfOk, IfErr, OnOk, IfSome, IfNone, IsTrue, Ok, Err, [], ◌∷◌};
ghost use Rattle.cash_base.specs.Operand.{truth_bytes};
ghost use Rattle.tx_context.specs.Lookup.{context_value, indexed_value, time_outcome, age_outcome};
ghost use Rattle.element_ops.specs.Operation.{result1, result2};
ghost use Rattle.opcode_table.specs.Stack.{Stack, on_one, put_on, puts};
ghost use Rattle.opcode_table.specs.Deeds.{gives, operates1, operates2, operates3, measured, split, copied_if_true, counted, verified, copied, moved, at_index, index_taken, picked, rolled, lock_met, checked, checked_data, checked_many, keys_on, done, done_and_verified};
ghost use Rattle.opcode_table.specs.Table.{is_modest};

use crate::asks::Asks;
use crate::rows::Deed;
use crate::signatures::{judge, keys_on, split_top};
use arrayvec::ArrayVec;
use cash_base::element::copy_of;
use cash_base::{
    Cause, Element, Look0, LookAt, MachineCause, Memory, read_number, truth, write_number,
};
use element_ops::{Op1, Op2, Op3, apply1, apply2, apply3};
use std::alloc::Global;
use std::marker::Model;
use tx_context::{Kind, age_met, check_one, look_at, look0, time_met};

/// The places of a stack: 1,000 elements, and the three that an opcode adds at most before their number is tested.
pub const PLACES: usize = 1003;

/// A stack of elements, which contracts see as their bytes, the top first.
#[derive(Drop)]
pub struct Elements {
    items: Vec<Element>,
}

impl Model for Elements {
    ghost use Rattle.std.specs.Prelude.{List, ℕ, ◌≤◌, reverse, map, vec_capacity};

    ghost Value = { List (List ℕ) };

    ghost view = { λ stack. reverse (map (λ e. e.items) stack.items.items) };

    ghost invariant = { λ stack. 1003 ≤ vec_capacity stack.items };
}

impl Elements {
    /// An empty stack, whose room is reserved.
    pub fn new(alloc: Global) -> Result<Elements, Memory>
        ensures { IfOk result (λ stack. stack ≡ []) }
    {
        let mut items = Vec::new(alloc);
        items.reserve(PLACES)?;
        Ok(Elements { items })
    }

    /// The elements, the top last.
    pub fn as_slice(&self) -> &[Element]
        ensures { reverse (map (λ e. e.items) result.now) ≡ self.now }
    {
        self.items.as_slice()
    }

    /// How many there are.
    pub fn len(&self) -> usize
        ensures { result ≡ length self.now }
    {
        self.items.len()
    }

    /// Leaves none.
    pub fn clear(&mut self)
        ensures { self.new ≡ [] }
    {
        self.items.clear();
    }

    /// Puts one on top.
    pub fn push(&mut self, element: Element)
        requires { length self.old < 1003 }
        ensures { self.new ≡ element.items ∷ self.old }
    {
        let _ = self.items.push(element);
    }

    /// Takes the top.
    pub fn pop(&mut self) -> Option<Element>
        ensures some { IfSome result (λ e. self.old ≡ e.items ∷ self.new) }
        ensures none { IfNone result (self.old ≡ []) }
        ensures empty { IfNone result (self.new ≡ []) }
    {
        self.items.pop()
    }

    /// Does a deed of the table. After a failure nothing is promised of the elements.
    pub fn act(&mut self, deed: Deed, asks: &Asks<'_>) -> Result<(), MachineCause>
        requires places { length self.old ≤ 1000 }
        requires modest { IsTrue (is_modest deed) }
        ensures ok { OnOk result (done asks.now deed self.old ≡ Ok self.new) }
        ensures err { IfErr result (λ cause. done asks.now deed self.old ≡ Err cause) }
        ensures height { length self.new ≤ length self.old + 3 }
    {
        match deed {
            Deed::Stays => Ok(()),
            Deed::Refuses(cause) => Err(cause),
            Deed::Puts(count, put, numbers) => Ok(self.puts(count, &numbers[..usize::from(put)])?),
            Deed::One(op) => Ok(self.one(op)?),
            Deed::Two(op) => Ok(self.two(op)?),
            Deed::Three(op) => Ok(self.three(op)?),
            Deed::Measures => Ok(self.measure()?),
            Deed::Splits => Ok(self.split()?),
            Deed::CopiesTrue => Ok(self.copy_if_true()?),
            Deed::Counts => {
                self.count();
                Ok(())
            }
            Deed::Copies => Ok(self.pick()?),
            Deed::Moves => Ok(self.roll()?),
            Deed::Verifies => Ok(self.verify()?),
            Deed::Asks(what) => Ok(self.look(what, asks)?),
            Deed::AsksAt(what) => Ok(self.look_at(what, asks)?),
            Deed::Waits => Ok(self.wait(asks)?),
            Deed::Ages => Ok(self.age(asks)?),
            Deed::Checks => Ok(self.check(asks)?),
            Deed::ChecksData => Ok(self.check_data(asks)?),
            Deed::ChecksMany => Ok(self.check_many(asks)?),
        }
    }

    /// Does a deed of the table, and then what VERIFY does. After a failure nothing is promised of the elements.
    pub fn act_and_verify(&mut self, deed: Deed, asks: &Asks<'_>) -> Result<(), MachineCause>
        requires places { length self.old ≤ 1000 }
        requires modest { IsTrue (is_modest deed) }
        ensures ok { OnOk result (done_and_verified asks.now deed self.old ≡ Ok self.new) }
        ensures err { IfErr result (λ cause. done_and_verified asks.now deed self.old ≡ Err cause) }
        ensures height { length self.new ≤ length self.old + 3 }
    {
        self.act(deed, asks)?;
        self.verify()?;
        Ok(())
    }

    /// The keys of a multisignature check here: the number on top, or 0 where it is none from 0 to 20.
    pub fn keys(&self) -> u32
        ensures value { result ≡ keys_on self.now }
        ensures bound { result ≤ 20 }
    {
        keys_on(self.items.as_slice())
    }

    // ---- elements that are taken and put

    /// Takes so many elements, and puts those with the numbers.
    fn puts(&mut self, count: u8, numbers: &[u8]) -> Result<(), MachineCause>
        requires places { length self.old ≤ 1000 }
        requires count { count ≤ 6 }
        requires numbers { length numbers.now ≤ count + 3 }
        ensures ok { OnOk result (puts count numbers.now self.old ≡ Ok self.new) }
        ensures err { IfErr result (λ cause. puts count numbers.now self.old ≡ Err cause) }
        ensures height { length self.new ≤ length self.old + 3 }
    {
        let (rest, top) = split_top(self.items.as_slice(), usize::from(count))?;
        let operands = copies_of(top);
        let below = rest.len();
        self.items.truncate(below);
        self.put_all(operands.as_slice(), numbers);
        Ok(())
    }

    /// Puts those of the operands with the numbers.
    fn put_all(&mut self, operands: &[Element], numbers: &[u8])
        requires places { length self.old + length numbers.now ≤ 1003 }
        ensures value { self.new ≡ put_on self.old (map (λ e. e.items) operands.now) numbers.now }
        ensures height { length self.new ≡ length self.old + length numbers.now }
    {
        'numbers: for number in numbers {
            self.put(operands, *number);
        }
    }

    /// Puts the operand with the number.
    fn put(&mut self, operands: &[Element], number: u8)
        requires { length self.old < 1003 }
        ensures { self.new ≡ slice_index_or (map (λ e. e.items) operands.now) number [] ∷ self.old }
    {
        match operands.get(usize::from(number)) {
            Some(e) => self.push(copy_of(e.as_slice())),
            None => self.push(Element::new()),
        }
    }

    // ---- operations on the elements on top

    fn one(&mut self, op: Op1) -> Result<(), MachineCause>
        requires { length self.old ≤ 1000 }
        ensures ok { OnOk result (operates1 op self.old ≡ Ok self.new) }
        ensures err { IfErr result (λ cause. operates1 op self.old ≡ Err cause) }
        ensures height { length self.new ≤ length self.old }
    {
        let Some(a) = self.items.pop() else {
            return Err(MachineCause::Underflow);
        };
        match apply1(op, a.as_slice()) {
            Ok(e) => {
                self.push(e);
                Ok(())
            }
            Err(cause) => Err(MachineCause::Shared(cause)),
        }
    }

    fn two(&mut self, op: Op2) -> Result<(), MachineCause>
        requires { length self.old ≤ 1000 }
        ensures ok { OnOk result (operates2 op self.old ≡ Ok self.new) }
        ensures err { IfErr result (λ cause. operates2 op self.old ≡ Err cause) }
        ensures height { length self.new ≤ length self.old }
    {
        let Some(b) = self.items.pop() else {
            return Err(MachineCause::Underflow);
        };
        let Some(a) = self.items.pop() else {
            return Err(MachineCause::Underflow);
        };
        match apply2(op, a.as_slice(), b.as_slice()) {
            Ok(e) => {
                self.push(e);
                Ok(())
            }
            Err(cause) => Err(MachineCause::Shared(cause)),
        }
    }

    fn three(&mut self, op: Op3) -> Result<(), MachineCause>
        requires { length self.old ≤ 1000 }
        ensures ok { OnOk result (operates3 op self.old ≡ Ok self.new) }
        ensures err { IfErr result (λ cause. operates3 op self.old ≡ Err cause) }
        ensures height { length self.new ≤ length self.old }
    {
        let Some(c) = self.items.pop() else {
            return Err(MachineCause::Underflow);
        };
        let Some(b) = self.items.pop() else {
            return Err(MachineCause::Underflow);
        };
        let Some(a) = self.items.pop() else {
            return Err(MachineCause::Underflow);
        };
        match apply3(op, a.as_slice(), b.as_slice(), c.as_slice()) {
            Ok(e) => {
                self.push(e);
                Ok(())
            }
            Err(cause) => Err(MachineCause::Shared(cause)),
        }
    }

    /// SIZE.
    fn measure(&mut self) -> Result<(), MachineCause>
        requires { length self.old ≤ 1000 }
        ensures ok { OnOk result (measured self.old ≡ Ok self.new) }
        ensures err { IfErr result (λ cause. measured self.old ≡ Err cause) }
        ensures height { length self.new ≤ length self.old + 1 }
    {
        let Some(a) = self.items.pop() else {
            return Err(MachineCause::Underflow);
        };
        match apply1(Op1::Size, a.as_slice()) {
            Ok(size) => {
                self.push(a);
                self.push(size);
                Ok(())
            }
            Err(cause) => Err(MachineCause::Shared(cause)),
        }
    }

    /// SPLIT.
    fn split(&mut self) -> Result<(), MachineCause>
        requires { length self.old ≤ 1000 }
        ensures ok { OnOk result (split self.old ≡ Ok self.new) }
        ensures err { IfErr result (λ cause. split self.old ≡ Err cause) }
        ensures height { length self.new ≤ length self.old }
    {
        let Some(n) = self.items.pop() else {
            return Err(MachineCause::Underflow);
        };
        let Some(a) = self.items.pop() else {
            return Err(MachineCause::Underflow);
        };
        match element_ops::split(a.as_slice(), n.as_slice()) {
            Ok((first, rest)) => {
                self.push(first);
                self.push(rest);
                Ok(())
            }
            Err(cause) => Err(MachineCause::Shared(cause)),
        }
    }

    /// IFDUP.
    fn copy_if_true(&mut self) -> Result<(), MachineCause>
        requires { length self.old ≤ 1000 }
        ensures ok { OnOk result (copied_if_true self.old ≡ Ok self.new) }
        ensures err { IfErr result (λ cause. copied_if_true self.old ≡ Err cause) }
        ensures height { length self.new ≤ length self.old + 1 }
    {
        let Some(a) = self.items.pop() else {
            return Err(MachineCause::Underflow);
        };
        let is_true = truth(a.as_slice());
        if is_true {
            self.push(copy_of(a.as_slice()));
            self.push(a);
            Ok(())
        } else {
            self.push(a);
            Ok(())
        }
    }

    /// DEPTH.
    fn count(&mut self)
        requires { length self.old ≤ 1000 }
        ensures value { counted self.old ≡ Ok self.new }
        ensures height { length self.new ≤ length self.old + 1 }
    {
        let height = self.items.len() as i64;
        self.push(write_number(height));
    }

    /// VERIFY.
    fn verify(&mut self) -> Result<(), MachineCause>
        ensures ok { OnOk result (verified self.old ≡ Ok self.new) }
        ensures err { IfErr result (λ cause. verified self.old ≡ Err cause) }
        ensures height { length self.new ≤ length self.old }
    {
        let Some(a) = self.items.pop() else {
            return Err(MachineCause::Underflow);
        };
        if truth(a.as_slice()) {
            Ok(())
        } else {
            Err(MachineCause::Shared(Cause::CheckFailed))
        }
    }

    // ---- elements at an index

    /// PICK.
    fn pick(&mut self) -> Result<(), MachineCause>
        requires { length self.old ≤ 1000 }
        ensures ok { OnOk result (picked self.old ≡ Ok self.new) }
        ensures err { IfErr result (λ cause. picked self.old ≡ Err cause) }
        ensures height { length self.new ≤ length self.old }
    {
        let n = self.take_index()?;
        self.copy_at(n)?;
        Ok(())
    }

    /// ROLL.
    fn roll(&mut self) -> Result<(), MachineCause>
        requires { length self.old ≤ 1000 }
        ensures ok { OnOk result (rolled self.old ≡ Ok self.new) }
        ensures err { IfErr result (λ cause. rolled self.old ≡ Err cause) }
        ensures height { length self.new ≤ length self.old }
    {
        let n = self.take_index()?;
        self.move_at(n)?;
        Ok(())
    }

    /// Takes a number that stands above at least one element.
    fn take_index(&mut self) -> Result<i64, MachineCause>
        ensures ok { IfOk result (λ n. index_taken self.old ≡ Ok (n, self.new)) }
        ensures err { IfErr result (λ cause. index_taken self.old ≡ Err cause) }
        ensures height { OnOk result (length self.new < length self.old) }
        ensures less { length self.new ≤ length self.old }
    {
        let Some(index) = self.items.pop() else {
            return Err(MachineCause::Underflow);
        };
        if self.items.is_empty() {
            return Err(MachineCause::Underflow);
        }
        match read_number(index.as_slice()) {
            Some(n) => Ok(n),
            None => Err(MachineCause::Shared(Cause::NotANumber)),
        }
    }

    fn copy_at(&mut self, n: i64) -> Result<(), MachineCause>
        requires { length self.old ≤ 1000 }
        ensures ok { OnOk result (at_index copied n self.old ≡ Ok self.new) }
        ensures err { IfErr result (λ cause. at_index copied n self.old ≡ Err cause) }
        ensures height { length self.new ≤ length self.old + 1 }
    {
        if n < 0 {
            return Err(MachineCause::Underflow);
        }
        self.copy(n as usize)?;
        Ok(())
    }

    fn copy(&mut self, below: usize) -> Result<(), MachineCause>
        requires { length self.old ≤ 1000 }
        ensures ok { OnOk result (copied below self.old ≡ Ok self.new) }
        ensures err { IfErr result (λ cause. copied below self.old ≡ Err cause) }
        ensures height { length self.new ≤ length self.old + 1 }
    {
        let height = self.items.len();
        if below >= height {
            return Err(MachineCause::Underflow);
        }
        let copy = copy_of(self.items[height - 1 - below].as_slice());
        self.push(copy);
        Ok(())
    }

    fn move_at(&mut self, n: i64) -> Result<(), MachineCause>
        requires { length self.old ≤ 1000 }
        ensures ok { OnOk result (at_index moved n self.old ≡ Ok self.new) }
        ensures err { IfErr result (λ cause. at_index moved n self.old ≡ Err cause) }
        ensures height { length self.new ≤ length self.old }
    {
        if n < 0 {
            return Err(MachineCause::Underflow);
        }
        self.move_up(n as usize)?;
        Ok(())
    }

    fn move_up(&mut self, below: usize) -> Result<(), MachineCause>
        requires { length self.old ≤ 1000 }
        ensures ok { OnOk result (moved below self.old ≡ Ok self.new) }
        ensures err { IfErr result (λ cause. moved below self.old ≡ Err cause) }
        ensures height { length self.new ≤ length self.old }
    {
        let height = self.items.len();
        if below >= height {
            return Err(MachineCause::Underflow);
        }
        let element = self.items.remove(height - 1 - below);
        self.push(element);
        Ok(())
    }

    // ---- what is asked of the transaction

    fn look(&mut self, what: Look0, asks: &Asks<'_>) -> Result<(), MachineCause>
        requires { length self.old ≤ 1000 }
        ensures ok { OnOk result (gives self.old (context_value asks.now.context what asks.now.active) ≡ Ok self.new) }
        ensures err { IfErr result (λ cause.
            gives self.old (context_value asks.now.context what asks.now.active) ≡ Err cause) }
        ensures height { length self.new ≤ length self.old + 1 }
    {
        match look0(asks.context, what, asks.active) {
            Ok(e) => {
                self.push(e);
                Ok(())
            }
            Err(cause) => Err(MachineCause::Shared(cause)),
        }
    }

    fn look_at(&mut self, what: LookAt, asks: &Asks<'_>) -> Result<(), MachineCause>
        requires { length self.old ≤ 1000 }
        ensures ok { OnOk result
            (on_one (λ index. gives [] (indexed_value asks.now.context what index)) self.old ≡ Ok self.new) }
        ensures err { IfErr result (λ cause.
            on_one (λ index. gives [] (indexed_value asks.now.context what index)) self.old ≡ Err cause) }
        ensures height { length self.new ≤ length self.old }
    {
        let Some(index) = self.items.pop() else {
            return Err(MachineCause::Underflow);
        };
        match look_at(asks.context, what, index.as_slice()) {
            Ok(e) => {
                self.push(e);
                Ok(())
            }
            Err(cause) => Err(MachineCause::Shared(cause)),
        }
    }

    /// CHECKLOCKTIMEVERIFY.
    fn wait(&mut self, asks: &Asks<'_>) -> Result<(), MachineCause>
        requires { length self.old ≤ 1000 }
        ensures ok { OnOk result (lock_met (time_outcome asks.now.context) self.old ≡ Ok self.new) }
        ensures err { IfErr result (λ cause. lock_met (time_outcome asks.now.context) self.old ≡ Err cause) }
        ensures height { length self.new ≤ length self.old }
    {
        let Some(a) = self.items.pop() else {
            return Err(MachineCause::Underflow);
        };
        match time_met(asks.context, a.as_slice()) {
            Ok(()) => {
                self.push(a);
                Ok(())
            }
            Err(cause) => Err(MachineCause::Shared(cause)),
        }
    }

    /// CHECKSEQUENCEVERIFY.
    fn age(&mut self, asks: &Asks<'_>) -> Result<(), MachineCause>
        requires { length self.old ≤ 1000 }
        ensures ok { OnOk result (lock_met (age_outcome asks.now.context) self.old ≡ Ok self.new) }
        ensures err { IfErr result (λ cause. lock_met (age_outcome asks.now.context) self.old ≡ Err cause) }
        ensures height { length self.new ≤ length self.old }
    {
        let Some(a) = self.items.pop() else {
            return Err(MachineCause::Underflow);
        };
        match age_met(asks.context, a.as_slice()) {
            Ok(()) => {
                self.push(a);
                Ok(())
            }
            Err(cause) => Err(MachineCause::Shared(cause)),
        }
    }

    // ---- checks of signatures

    /// CHECKSIG.
    fn check(&mut self, asks: &Asks<'_>) -> Result<(), MachineCause>
        requires { length self.old ≤ 1000 }
        ensures ok { OnOk result (checked asks.now self.old ≡ Ok self.new) }
        ensures err { IfErr result (λ cause. checked asks.now self.old ≡ Err cause) }
        ensures height { length self.new ≤ length self.old }
    {
        let Some(key) = self.items.pop() else {
            return Err(MachineCause::Underflow);
        };
        let Some(sig) = self.items.pop() else {
            return Err(MachineCause::Underflow);
        };
        match check_one(
            asks.verdicts,
            Kind::Single,
            sig.as_slice(),
            key.as_slice(),
            &[],
        ) {
            Ok(is_good) => {
                self.push_truth(is_good);
                Ok(())
            }
            Err(cause) => Err(MachineCause::Shared(cause)),
        }
    }

    /// CHECKDATASIG.
    fn check_data(&mut self, asks: &Asks<'_>) -> Result<(), MachineCause>
        requires { length self.old ≤ 1000 }
        ensures ok { OnOk result (checked_data asks.now self.old ≡ Ok self.new) }
        ensures err { IfErr result (λ cause. checked_data asks.now self.old ≡ Err cause) }
        ensures height { length self.new ≤ length self.old }
    {
        let Some(key) = self.items.pop() else {
            return Err(MachineCause::Underflow);
        };
        let Some(message) = self.items.pop() else {
            return Err(MachineCause::Underflow);
        };
        let Some(sig) = self.items.pop() else {
            return Err(MachineCause::Underflow);
        };
        match check_one(
            asks.verdicts,
            Kind::DataSig,
            sig.as_slice(),
            key.as_slice(),
            message.as_slice(),
        ) {
            Ok(is_good) => {
                self.push_truth(is_good);
                Ok(())
            }
            Err(cause) => Err(MachineCause::Shared(cause)),
        }
    }

    /// CHECKMULTISIG.
    fn check_many(&mut self, asks: &Asks<'_>) -> Result<(), MachineCause>
        requires { length self.old ≤ 1000 }
        ensures ok { OnOk result (checked_many asks.now self.old ≡ Ok self.new) }
        ensures err { IfErr result (λ cause. checked_many asks.now self.old ≡ Err cause) }
        ensures height { length self.new ≤ length self.old }
    {
        let (is_met, below) = judge(self.items.as_slice(), asks)?;
        self.items.truncate(below);
        self.push_truth(is_met);
        Ok(())
    }

    /// Puts the element of a truth value: 01, or the empty one.
    fn push_truth(&mut self, value: bool)
        requires { length self.old < 1003 }
        ensures { self.new ≡ truth_bytes value ∷ self.old }
    {
        if value {
            self.push(copy_of(&[1]));
        } else {
            self.push(Element::new());
        }
    }
}

/// Copies of at most 6 elements.
fn copies_of(elements: &[Element]) -> ArrayVec<Element, 6>
    requires { length elements.now ≤ 6 }
    ensures { map (λ e. e.items) result.items ≡ map (λ e. e.items) elements.now }
{
    let mut copies = ArrayVec::new();
    'elements: for e in elements {
        copies.push(copy_of(e.as_slice()));
    }
    copies
}
