//! The store and the sink over std's files and writers. They tell no content.

ghost use Rattle.std.specs.Prelude.{◌≡◌, ◌≢◌, ◌≤◌, ℕ, List, [], None, Option, OnOk, IfSome, IsErrOf, length, ◌<◌, vec_len};
ghost use Rattle.std.specs.Io.KnownBytes.{Appends};
ghost use Rattle.cash_base.specs.Outside.{Reads, Writes};

use crate::outside::{Sink, SinkFailed, Store, StoreStop};
use std::fs;
use std::io::{Read, Write};
use std::marker::Model;
use std::rt::Files;

// The most bytes that one call of the reader gives.
const PIECE: usize = 4096;

/// The files of the system. Contracts see it as its count of faults.
pub struct FileStore<'a, R: Files> {
    rt: &'a R,
    faults: u64,
}

impl<R: Files> Drop for FileStore<'_, R> {
    fn drop(self) {
        let FileStore { rt: _, faults: _ } = self;
    }
}

impl<'a, R: Files> Model for FileStore<'a, R> {
    ghost use Rattle.std.specs.Prelude.{ℕ};

    ghost Value = { ℕ };

    ghost view = { λ s. s.faults };
}

impl<'a, R: Files> FileStore<'a, R> {
    /// The files that this runtime reaches. It takes no memory.
    pub fn new(rt: &'a R) -> FileStore<'a, R>
        ensures { result ≡ 0 }
    {
        FileStore { rt, faults: 0 }
    }
}

impl<R: Files> Store for FileStore<'_, R> {
    ghost files = { λ _. None };

    ghost faults = { λ faults. faults };

    /// Reads the file at this path, and no more than a byte past the limit. Each error of the system is a fault, and
    /// so is a missing file.
    fn read(&mut self, name: &str, limit: usize, into: &mut Vec<u8>) -> Result<(), StoreStop>
        requires { into.old.items ≡ [] }
        ensures reads { Reads None self.old self.new name.now limit result into.new.items }
        ensures sure { ¬ IsErrOf result StoreStop.Failed → self.new ≡ self.old }
    {
        let outcome = read_file(self.rt, name, limit, into);
        if let Err(stop) = outcome {
            into.clear();
            if stop == StoreStop::Failed {
                self.faults = self.faults.saturating_add(1);
            }
        }
        outcome
    }
}

fn read_file<R: Files>(
    rt: &R,
    name: &str,
    limit: usize,
    into: &mut Vec<u8>,
) -> Result<(), StoreStop>
    requires { into.old.items ≡ [] }
    ensures { OnOk result (vec_len into.new ≤ limit) }
{
    let Ok(mut file) = fs::open(rt, name) else {
        return Err(StoreStop::Failed);
    };
    read_whole(&mut file, limit, into)
}

// Reads to the end, where that comes within the limit.
fn read_whole<F: Read>(file: &mut F, limit: usize, into: &mut Vec<u8>) -> Result<(), StoreStop>
    requires { into.old.items ≡ [] }
    ensures within { OnOk result (vec_len into.new ≤ limit) }
    ensures whole { OnOk result (IfSome (F.remaining file.old) (λ bytes. into.new.items ≡ bytes)) }
    ensures too_long { IsErrOf result StoreStop.TooLong →
        IfSome (F.remaining file.old) (λ bytes. limit < length bytes) }
{
    let mut piece = [0; PIECE];
    for _ in 0..u64::MAX {
        let spare = limit - into.len();
        let wanted = spare.saturating_add(1).min(PIECE);
        match file.read(&mut piece[..wanted]) {
            Ok(0) => return Ok(()),
            Ok(count) if count > spare => return Err(StoreStop::TooLong),
            Ok(count) => into.extend_from_slice(&piece[..count])?,
            Err(_) => return Err(StoreStop::Failed),
        }
    }
    Err(StoreStop::Failed)
}

/// A writer as a sink. Contracts see it as what the writer holds, where the writer says, and its count of faults.
pub struct StreamSink<W: Write> {
    inner: W,
    faults: u64,
}

impl<W: Write> Model for StreamSink<W> {
    ghost use Rattle.cash_base.specs.Real.{Stream};

    ghost Value = { Stream };

    ghost view = { λ s. record { contents = W.contents s.inner; faults = s.faults } };
}

impl<W: Write> StreamSink<W> {
    /// A sink that writes to `inner`. It takes no memory.
    pub fn new(inner: W) -> StreamSink<W>
        ensures contents { result.contents ≡ W.contents inner }
        ensures faults { result.faults ≡ 0 }
    {
        StreamSink { inner, faults: 0 }
    }
}

impl<W: Write + Drop> Drop for StreamSink<W> {
    fn drop(self) {
        let StreamSink {
            inner: _,
            faults: _,
        } = self;
    }
}

impl<W: Write> Sink for StreamSink<W> {
    ghost written = { λ _. None };

    ghost faults = { λ s. s.faults };

    /// Writes the bytes and flushes. Each error of the writer is a fault, and so is a write that takes nothing.
    fn write_all(&mut self, bytes: &[u8]) -> Result<(), SinkFailed>
        requires { bytes.now ≢ [] }
        ensures writes { Writes None None self.old.faults self.new.faults bytes.now result }
        ensures sent { OnOk result (Appends self.old.contents self.new.contents bytes.now) }
        ensures sure { OnOk result (self.new.faults ≡ self.old.faults) }
    {
        let outcome = write_whole(&mut self.inner, bytes);
        if outcome.is_err() {
            self.faults = self.faults.saturating_add(1);
        }
        outcome
    }
}

// Writes all of the bytes, in as many calls as that takes.
fn write_whole<W: Write>(writer: &mut W, bytes: &[u8]) -> Result<(), SinkFailed>
    ensures { OnOk result (Appends (W.contents writer.old) (W.contents writer.new) bytes.now) }
{
    let mut rest = bytes;
    for _ in 0..u64::MAX {
        if rest.is_empty() {
            return writer.flush().map_err(|_| SinkFailed);
        }
        match writer.write(rest) {
            Ok(0) | Err(_) => return Err(SinkFailed),
            Ok(count) => rest = &rest[count..],
        }
    }
    Err(SinkFailed)
}
