//! A store and a sink in memory, which fail on chosen calls.

ghost use Rattle.std.specs.Prelude.{◌≡◌, ◌≢◌, ◌↔◌, ℕ, ◌+◌, ◌-◌, ◌^◌, ◌≤◌, ◌<◌, List, [], ◌++◌, length, take, Option, Some, option_map, IsTrue, IsOk, IsErr, IfOk, vec_len, vec_capacity};
ghost use Rattle.cash_base.specs.Outside.{Reads, Writes, Rose, file_named as named};
ghost use Rattle.cash_base.specs.Kept.{kept_files, sink_room, FailsNext, no_calls, after_call, after_fault, ReadsSurely};

use crate::fault::Memory;
use crate::outside::{Sink, SinkFailed, Store, StoreStop};
use std::alloc::Global;
use std::marker::Model;

// The bytes that a `MemorySink` has room for.
const ROOM: usize = 16 * 1024 * 1024;

// The calls, those of them that fail, and the faults.
#[derive(Drop)]
struct CallCounter {
    failing: Vec<u32>,
    made: u64,
    faults: u64,
}

impl Model for CallCounter {
    ghost use Rattle.cash_base.specs.Kept.{Calls};

    ghost Value = { Calls };

    ghost view = { λ c. record { failing = c.failing.items; made = c.made; faults = c.faults } };
}

impl CallCounter {
    fn new(failing: Vec<u32>) -> CallCounter
        ensures { result ≡ no_calls failing.items }
    {
        CallCounter {
            failing,
            made: 0,
            faults: 0,
        }
    }

    fn fails_next(&self) -> bool
        ensures { IsTrue result ↔ FailsNext self.now }
    {
        self.failing
            .iter()
            .any(|number| u64::from(*number) == self.made)
    }

    fn count_call(&mut self)
        ensures { self.new ≡ after_call self.old }
    {
        self.made = self.made.saturating_add(1);
    }

    fn count_fault(&mut self)
        ensures counted { self.new ≡ after_fault self.old }
        ensures later { self.old.faults ≤ self.new.faults }
        ensures rose { Rose self.old.faults self.new.faults }
    {
        self.made = self.made.saturating_add(1);
        self.faults = self.faults.saturating_add(1);
    }
}

/// Files in memory. The calls whose numbers, counted from 0, stand in `failing` are faults.
#[derive(Drop)]
pub struct MemoryStore {
    files: Vec<(String, Vec<u8>)>,
    calls: CallCounter,
}

impl Model for MemoryStore {
    ghost use Rattle.cash_base.specs.Kept.{MemoryFiles, kept_files};

    ghost Value = { MemoryFiles };

    ghost view = { λ s. record { files = kept_files s.files.items; calls = s.calls } };
}

impl MemoryStore {
    /// A store of these files, of which the first of a name is meant, before its first call.
    pub fn new(files: Vec<(String, Vec<u8>)>, failing: Vec<u32>) -> MemoryStore
        ensures files { result.files ≡ kept_files files.items }
        ensures calls { result.calls ≡ no_calls failing.items }
    {
        MemoryStore {
            files,
            calls: CallCounter::new(failing),
        }
    }
}

impl Store for MemoryStore {
    ghost files = { λ s. Some s.files };

    ghost faults = { λ s. s.calls.faults };

    /// Reads the first file of this name; a call that is to fail answers `Failed`, and is the only fault.
    fn read(&mut self, name: &str, limit: usize, into: &mut Vec<u8>) -> Result<(), StoreStop>
        requires { into.old.items ≡ [] }
        ensures files { self.new.files ≡ self.old.files }
        ensures reads { Reads (Some self.old.files) self.old.calls.faults self.new.calls.faults
            name.now limit result into.new.items }

        // The chosen calls are the only faults.
        ensures chosen { FailsNext self.old.calls →
            (result ≡ Err StoreStop.Failed) × (self.new.calls ≡ after_fault self.old.calls) }
        ensures other { ¬ FailsNext self.old.calls →
            ReadsSurely self.old.files name.now limit result into.new.items
            × (self.new.calls ≡ after_call self.old.calls) }
    {
        if self.calls.fails_next() {
            self.calls.count_fault();
            return Err(StoreStop::Failed);
        }
        self.calls.count_call();
        read_kept(&self.files, name, limit, into)
    }
}

// Reads the first file of this name.
pub(crate) fn read_kept(
    files: &[(String, Vec<u8>)],
    name: &str,
    limit: usize,
    into: &mut Vec<u8>,
) -> Result<(), StoreStop>
    requires { into.old.items ≡ [] }
    ensures { ReadsSurely (kept_files files.now) name.now limit result into.new.items }
{
    let Some(bytes) = file_named(files, name) else {
        return Err(StoreStop::Failed);
    };
    if bytes.len() > limit {
        return Err(StoreStop::TooLong);
    }
    into.extend_from_slice(bytes)?;
    Ok(())
}

// The first file of this name.
fn file_named<'a>(files: &'a [(String, Vec<u8>)], name: &str) -> Option<&'a Vec<u8>>
    ensures { option_map (λ bytes. bytes.now.items) result ≡ named name.now (kept_files files.now) }
{
    for file in files {
        if file.0.as_str() == name {
            return Some(&file.1);
        }
    }
    None
}

/// What was written, in a room of 16 MiB that is reserved when it is made. The calls whose numbers, counted from 0,
/// stand in `failing` are faults, and so is a write past the room.
#[derive(Drop)]
pub struct MemorySink {
    bytes: Vec<u8>,
    calls: CallCounter,
}

impl Model for MemorySink {
    ghost use Rattle.std.specs.Prelude.{◌≤◌, vec_len, vec_capacity};
    ghost use Rattle.cash_base.specs.Kept.{MemoryBytes, sink_room};

    ghost Value = { MemoryBytes };

    ghost view = { λ s. record { written = s.bytes.items; calls = s.calls } };

    ghost invariant = { λ s. (vec_len s.bytes ≤ sink_room) × (sink_room ≤ vec_capacity s.bytes) };
}

impl MemorySink {
    /// A sink to which nothing is written, before its first call, with its room reserved. `Memory` comes where there is no
    /// memory for it.
    pub fn new(alloc: Global, failing: Vec<u32>) -> Result<MemorySink, Memory>
        ensures written { IfOk result (λ sink. sink.written ≡ []) }
        ensures calls { IfOk result (λ sink. sink.calls ≡ no_calls failing.items) }
    {
        let mut bytes = Vec::new(alloc);
        bytes.reserve(ROOM)?;
        Ok(MemorySink {
            bytes,
            calls: CallCounter::new(failing),
        })
    }

    /// Shows what was written.
    pub fn bytes(&self) -> &[u8]
        ensures { result.now ≡ self.now.written }
    {
        self.bytes.as_slice()
    }
}

impl Sink for MemorySink {
    ghost written = { λ s. Some s.written };

    ghost faults = { λ s. s.calls.faults };

    /// Writes all of the bytes, or those that fit; a call that is to fail writes none.
    fn write_all(&mut self, bytes: &[u8]) -> Result<(), SinkFailed>
        requires { bytes.now ≢ [] }
        ensures writes { Writes (Some self.old.written) (Some self.new.written)
            self.old.calls.faults self.new.calls.faults bytes.now result }

        // The chosen calls and those past the room are the only faults.
        ensures chosen { FailsNext self.old.calls →
            IsErr result × (self.new ≡ record self.old { calls = after_fault self.old.calls }) }
        ensures fits { ¬ FailsNext self.old.calls →
            length self.old.written + length bytes.now ≤ sink_room →
            IsOk result × (self.new ≡ record {
              written = self.old.written ++ bytes.now;
              calls = after_call self.old.calls;
            }) }
        ensures past { ¬ FailsNext self.old.calls →
            sink_room < length self.old.written + length bytes.now →
            IsErr result × (self.new ≡ record {
              written = self.old.written ++ take (sink_room - length self.old.written) bytes.now;
              calls = after_fault self.old.calls;
            }) }
    {
        if self.calls.fails_next() {
            self.calls.count_fault();
            return Err(SinkFailed);
        }
        let room = ROOM - self.bytes.len();
        let fitting = bytes.len().min(room);
        let added = self.bytes.extend_from_slice(&bytes[..fitting]);
        if added.is_err() || fitting < bytes.len() {
            self.calls.count_fault();
            return Err(SinkFailed);
        }
        self.calls.count_call();
        Ok(())
    }
}
