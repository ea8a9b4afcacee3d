//! The operands of a run of slot code, and the values of its slots.

use cash_base::element::copy_of;
use cash_base::{Cause, Element, Slot, Span};
use source_meaning::Failure;
use std::alloc::Global;

/// Why a run ends early.
#[derive(Clone, Copy)]
pub enum Stop {
    Failed(Failure),
    Memory,
}

/// A failure at a place.
pub fn failed(span: Span, cause: Cause) -> Stop {
    Stop::Failed(Failure { span, cause })
}

/// What an operation gives, or its failure at a place.
pub fn at<T>(span: Span, outcome: Result<T, Cause>) -> Result<T, Stop> {
    match outcome {
        Ok(value) => Ok(value),
        Err(cause) => Err(failed(span, cause)),
    }
}

#[derive(Drop)]
struct Named {
    slot: Slot,
    value: Element,
}

fn push(named: &mut Vec<Named>, one: Named) -> Result<(), Stop> {
    match named.push(one) {
        Ok(()) => Ok(()),
        Err(_) => Err(Stop::Memory),
    }
}

/// The operands, the last one on top, and the slots that have a value.
#[derive(Drop)]
pub struct Board {
    pub operands: Vec<Element>,
    named: Vec<Named>,
}

impl Board {
    /// No operands, and these values in the first slots.
    pub fn new(alloc: Global, values: &[Element]) -> Result<Board, Stop> {
        let mut named = Vec::new(alloc);
        let mut next: u16 = 0;
        for value in values {
            let value = copy_of(value.as_slice());
            push(
                &mut named,
                Named {
                    slot: Slot(next),
                    value,
                },
            )?;
            next = next.wrapping_add(1);
        }
        Ok(Board {
            operands: Vec::new(alloc),
            named,
        })
    }

    /// Takes the top operand. Where there is none, the code isn't well formed.
    pub fn pop(&mut self, doing: Span) -> Result<Element, Stop> {
        match self.operands.pop() {
            Some(element) => Ok(element),
            None => Err(failed(doing, Cause::CheckFailed)),
        }
    }

    pub fn push(&mut self, element: Element) -> Result<(), Stop> {
        match self.operands.push(element) {
            Ok(()) => Ok(()),
            Err(_) => Err(Stop::Memory),
        }
    }

    /// The value of a slot, or the empty element.
    pub fn value_of(&self, slot: Slot) -> Element {
        for named in self.named.as_slice() {
            if named.slot == slot {
                return copy_of(named.value.as_slice());
            }
        }
        Element::new()
    }

    /// From here on the slot has no value.
    pub fn end(&mut self, slot: Slot) {
        let found = self.named.iter().position(|named| named.slot == slot);
        if let Some(place) = found {
            let _ = self.named.swap_remove(place);
        }
    }

    /// Gives a slot a value.
    pub fn give(&mut self, slot: Slot, value: Element) -> Result<(), Stop> {
        self.end(slot);
        push(&mut self.named, Named { slot, value })
    }
}
