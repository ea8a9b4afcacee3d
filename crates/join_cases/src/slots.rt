//! Slots as text.

ghost use Rattle.std.specs.Prelude.{◌≡◌};
ghost use Rattle.branch_layout.specs.Slots;
ghost use Rattle.branch_layout.specs.Slots.{all_stand_in};

use anyhow::{Result, bail};
use branch_layout::Layout;
use cash_base::Slot;
use std::alloc::Global;

/// Whether a slot stands among others.
pub fn has(slots: &[Slot], slot: Slot) -> bool
    ensures { result ≡ Slots.has slots.now slot }
{
    slots.iter().any(|other| other.0 == slot.0)
}

/// Whether each of these stands among the others.
pub fn stand_in(slots: &[Slot], others: &[Slot]) -> bool
    ensures { result ≡ all_stand_in slots.now others.now }
{
    slots.iter().all(|slot| has(others, *slot))
}

/// The slots of a text.
pub fn slots_of(alloc: Global, text: &str) -> Result<Vec<Slot>> {
    let mut slots = Vec::new(alloc);
    if text == "-" {
        return Ok(slots);
    }
    for number in text.split(',') {
        let Ok(n) = number.parse::<u16>() else {
            bail!("{number} is no slot");
        };
        slots.push(Slot(n))?;
    }
    Ok(slots)
}

/// The layout of a text.
pub fn layout_of(alloc: Global, text: &str) -> Result<Layout> {
    let Some(layout) = Layout::new(slots_of(alloc, text)?) else {
        bail!("a slot stands twice in {text}");
    };
    Ok(layout)
}

/// The text of slots.
pub fn text_of(alloc: Global, slots: &[Slot]) -> Result<String> {
    let mut text = String::new(alloc);
    for slot in slots {
        if !text.is_empty() {
            text.push(',')?;
        }
        let number = format!(in alloc; "{}", slot.0)?;
        text.push_str(number.as_str())?;
    }
    if text.is_empty() {
        text.push('-')?;
    }
    Ok(text)
}
