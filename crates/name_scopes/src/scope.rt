//! The names in scope.

ghost use Rattle.std.specs.Prelude.{◌≡◌, ◌<◌, ◌≤◌, length, None, OnOk, IfOk, IfErr};
ghost use Rattle.name_scopes.specs.declared.fault.NameFault.TheVariants.{Memory};
ghost use Rattle.name_scopes.specs.Names;
ghost use Rattle.name_scopes.specs.Names.{names_of, look, declared};

use crate::fault::NameFault;
use cash_base::Slot;
use indexmap::IndexMap;
use std::alloc::Global;

/// What a name in scope names.
#[derive(Clone, Copy, Debug, PartialEq, Eq)]
pub struct Variable {
    pub slot: Slot,
    pub constant: bool,
}

/// The names in scope, in the order of their declarations, the number of the next slot, and the first number that is
/// not given.
#[derive(Drop)]
pub struct Scope<'s> {
    known: IndexMap<&'s [u8], Variable>,
    next: u16,
    limit: u16,
}

impl<'s> Scope<'s> {
    /// No name, and room for as many.
    pub fn new(alloc: Global, room: u16) -> Scope<'s>
        ensures { names_of result ≡ Names.opened room Names.no_names }
    {
        Scope {
            known: IndexMap::new(alloc),
            next: 0,
            limit: room,
        }
    }

    /// What a spelling names, where it is in scope; a name in another case is another name.
    pub fn find(&self, name: &[u8]) -> Option<Variable>
        ensures { result ≡ look name.now (names_of self.now) }
    {
        self.known.get(name).copied()
    }

    /// Whether one more name may be declared.
    pub fn has_room(&self) -> bool
        ensures { result ≡ Names.has_room (names_of self.now) }
    {
        self.next < self.limit
    }

    /// Whether two more names may be declared.
    pub fn has_room_for_two(&self) -> bool
        ensures { result ≡ Names.has_room_for_two (names_of self.now) }
    {
        self.next < self.limit && self.next + 1 < self.limit
    }

    /// Declares a name, which gets the next slot.
    pub fn declare(&mut self, name: &'s [u8], constant: bool) -> Result<Slot, NameFault>
        requires fresh { look name.now (names_of self.old) ≡ None }
        requires room { (names_of self.old).next < (names_of self.old).limit }
        ensures slot { IfOk result (λ slot. slot.0 ≡ (names_of self.old).next) }
        ensures memory { IfErr result (λ fault. fault ≡ Memory) }
        ensures names { OnOk result (names_of self.new ≡ declared name.now constant (names_of self.old)) }
    {
        let slot = Slot(self.next);
        self.known.insert(name, Variable { slot, constant })?;
        self.next += 1;
        Ok(slot)
    }

    /// How many are in scope.
    pub fn len(&self) -> usize
        ensures { result ≡ length (names_of self.now).known }
    {
        self.known.len()
    }

    /// The number of the next slot.
    pub fn next(&self) -> u16
        ensures { result ≡ (names_of self.now).next }
    {
        self.next
    }

    /// Keeps the first `len`; slots go on after those that were given.
    pub fn end_block(&mut self, len: usize)
        ensures { names_of self.new ≡ Names.cut len (names_of self.old) }
    {
        self.known.truncate(len);
    }

    /// Gives slots from this number on, and as many.
    pub fn open(&mut self, next: u16, room: u16)
        requires next { next ≤ 32 }
        requires room { room ≤ 128 }
        ensures { names_of self.new ≡ Names.opened_at next room (names_of self.old) }
    {
        self.next = next;
        self.limit = next + room;
    }
}
