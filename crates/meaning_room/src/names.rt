//! The elements of the names of a run.

ghost use Rattle.std.specs.Prelude.{◌≡◌, ◌<◌, unwrap_or, if◌then◌else◌, None, [], IfOk};
ghost use Rattle.meaning_room.specs.Meaning.{no_values, with_value};
ghost use Rattle.meaning_room.specs.Names.{env_of, has_element};

use cash_base::element::copy_of;
use cash_base::{Element, Memory, Slot};
use std::alloc::Global;
use std::marker::Model;

/// The most names of a function: 16 parameters of the constructor and 16 of its own, and 128 that its body defines.
pub const MOST_NAMES: usize = 160;

/// The elements of the names that have one, in places that are reserved, which contracts see as lists (`env_of`).
#[derive(Drop)]
pub struct Names {
    known: [bool; MOST_NAMES],
    elements: Vec<Element>,
}

impl Model for Names {
    ghost use Rattle.std.specs.Prelude.{◌≡◌, length, map};
    ghost use Rattle.meaning_room.specs.Names.{Held};

    ghost Value = { Held };

    ghost view = { λ names. (names.known, map (λ e. e.items) names.elements.items) };

    ghost invariant = { λ names. (length names.known ≡ 160) × (length names.elements.items ≡ 160) };
}

/// Which names had an element at some time, which contracts see as a list.
#[derive(Drop)]
pub struct Mark {
    known: [bool; MOST_NAMES],
}

impl Model for Mark {
    ghost use Rattle.std.specs.Prelude.{◌≡◌, Bool, List, length};

    ghost Value = { List Bool };

    ghost view = { λ mark. mark.known };

    ghost invariant = { λ mark. length mark.known ≡ 160 };
}

impl Names {
    /// Places for the elements of 160 names, of which none has one.
    #[tactic(auto, using(crate::proofs::Places::none_known))]
    pub fn new(alloc: Global) -> Result<Names, Memory>
        ensures { IfOk result (λ names. env_of names ≡ no_values) }
    {
        let mut elements = Vec::new(alloc);
        for _ in 0..MOST_NAMES {
            elements.push(Element::new())?;
        }
        let known = [false; MOST_NAMES];
        Ok(Names { known, elements })
    }

    /// Takes the elements of all names.
    #[tactic(auto, using(crate::proofs::Places::none_known))]
    pub fn clear(&mut self)
        ensures { env_of self.new ≡ no_values }
    {
        self.known = [false; MOST_NAMES];
    }

    /// The element of a name, and the empty one where it has none.
    #[tactic(auto, unfolding(crate::specs::Names::env_of, crate::specs::Names::has_element))]
    pub fn get(&self, slot: Slot) -> Element
        ensures { result.items ≡ unwrap_or (env_of self.now slot) [] }
    {
        let place = usize::from(slot.0);
        if place < MOST_NAMES && self.known[place] {
            return copy_of(self.elements[place].as_slice());
        }
        Element::new()
    }

    /// Gives a name an element.
    #[tactic(auto, using(crate::proofs::Places::one_given))]
    pub fn set(&mut self, slot: Slot, element: Element)
        requires { slot.0 < 160 }
        ensures { env_of self.new ≡ with_value slot element.items (env_of self.old) }
    {
        let place = usize::from(slot.0);
        self.known[place] = true;
        self.elements[place] = element;
    }

    /// Which names have an element.
    pub fn mark(&self) -> Mark
        ensures { result ≡ self.now.0 }
    {
        Mark { known: self.known }
    }

    /// Takes the elements of the names that had none at the time of a mark.
    pub fn cut(&mut self, mark: &Mark)
        ensures { env_of self.new ≡ (λ slot. if has_element mark.now slot then env_of self.old slot else None) }
    {
        for place in 0..MOST_NAMES {
            self.known[place] = self.known[place] && mark.known[place];
        }
    }
}
