//! Reads a spend file.

ghost use Rattle.std.specs.Prelude.{◌≡◌};
ghost use Rattle.serde_json.specs.View.{view};
ghost use Rattle.spend_json.specs.Fields.{Gives};
ghost use Rattle.spend_json.specs.Given.{spend_parts};
ghost use Rattle.spend_json.specs.Parts.{parts_of};
ghost use Rattle.spend_json.specs.Files.{frame_of, table_of, spend_at, spend_reading};

use crate::choice::choice_at;
use crate::fault::{SpendFault, SpendField};
use crate::file::SpendFile;
use crate::transaction::{TransactionParts, transaction_at};
use crate::values::values_at;
use crate::verdicts::rows_at;
use json_fields::object_in;
use serde_json::Value;
use std::alloc::Global;
use tx_context::{Frame, TableFault, VerdictRow, Verdicts};

/// So many items of a list are counted in a fault, and so many are more than any limit allows.
const MOST_COUNTED: usize = u32::MAX as usize;

// The frame of the parts.
#[tactic(auto, unfolding(crate::specs::Files::frame_of))]
fn frame_of(parts: TransactionParts) -> Result<Frame, SpendFault>
    ensures { Gives (λ frame. frame) result (frame_of (parts_of parts)) }
{
    let TransactionParts {
        version,
        locktime,
        mut inputs,
        mut outputs,
        active,
    } = parts;
    inputs.truncate(MOST_COUNTED);
    outputs.truncate(MOST_COUNTED);
    match Frame::new(version, locktime, inputs, outputs, active) {
        Ok(frame) => Ok(frame),
        Err(fault) => Err(SpendFault::Frame(fault)),
    }
}

// The table of the rows.
#[tactic(auto, unfolding(crate::specs::Files::table_of))]
fn table_of(alloc: Global, mut rows: Vec<VerdictRow>) -> Result<Verdicts, SpendFault>
    ensures { Gives (λ table. table) result (table_of rows.items) }
{
    rows.truncate(MOST_COUNTED);
    match Verdicts::from_rows(alloc, rows) {
        Ok(verdicts) => Ok(verdicts),
        Err(TableFault::Memory) => Err(SpendFault::Memory),
        Err(fault) => Err(SpendFault::Table(fault)),
    }
}

#[tactic(auto, unfolding(crate::specs::Files::spend_at))]
fn spend_at(alloc: Global, value: &Value) -> Result<SpendFile, SpendFault>
    ensures { Gives spend_parts result (spend_at (view value.now)) }
{
    let ctor = values_at(alloc, value, SpendField::Constructor)?;
    let choice = choice_at(alloc, value)?;
    let parts = transaction_at(alloc, value)?;
    let rows = rows_at(alloc, value)?;
    let frame = frame_of(parts)?;
    let verdicts = table_of(alloc, rows)?;
    Ok(SpendFile {
        ctor,
        choice,
        frame,
        verdicts,
    })
}

/// The spend file that bytes spell, or its first fault.
///
/// `NotJson` comes where they spell no JSON object. Then the fields are looked at in the order of `SpendField`, the fields
/// inside one after it, and the items of a list in turn; in one field the faults come in the order of `SpendFault`. `Frame`
/// and then `Table` come last. Each field may be missing but those of a verdict, of which `message` may be where the kind is
/// another than `data`; unknown fields are passed over. The format is this project's own: docs/FORMATS.md.
#[tactic(auto, unfolding(crate::specs::Files::spend_reading))]
pub fn read(alloc: Global, bytes: &[u8]) -> Result<SpendFile, SpendFault>
    ensures { Gives spend_parts result (spend_reading bytes.now) }
{
    let value = object_in(alloc, bytes)?.ok_or(SpendFault::NotJson)?;
    let file = spend_at(alloc, &value)?;
    Ok(file)
}
