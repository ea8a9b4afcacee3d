//! Calls the stores and the sinks through their traits, and prints what each call answers.
#![tactic(auto)]

use anyhow::Result;
use cash_base::{FileStore, MemorySink, MemoryStore, Sink, Store, StreamSink, SureSink, SureStore};
use std::alloc::{AllocError, Global};
use std::io;
use std::io::{ErrorKind, Write};
use std::rt::Files;

/// Some bytes as a text.
fn text(bytes: &[u8]) -> &str {
    str::from_utf8(bytes).unwrap_or("no text")
}

/// Reads a file, and prints the answer and the bytes that are left.
fn read<S: Store>(
    rt: &impl Print,
    alloc: Global,
    store: &mut S,
    name: &str,
    limit: usize,
) -> Result<()> {
    let mut into = Vec::new(alloc);
    let outcome = store.read(name, limit, &mut into);
    let bytes = text(into.as_slice());
    println!(rt; "read {name} within {limit}: {outcome:?} {bytes:?}")?;
    Ok(())
}

/// Writes some bytes, and prints the answer.
fn write<K: Sink>(rt: &impl Print, sink: &mut K, bytes: &[u8]) -> Result<()> {
    if bytes.is_empty() {
        return Ok(());
    }
    let outcome = sink.write_all(bytes);
    let len = bytes.len();
    println!(rt; "write {len} bytes: {outcome:?}")?;
    Ok(())
}

fn add_file(
    alloc: Global,
    files: &mut Vec<(String, Vec<u8>)>,
    name: &str,
    bytes: &[u8],
) -> Result<(), AllocError> {
    let name = String::from_str(alloc, name)?;
    let bytes = Vec::from_slice(alloc, bytes)?;
    files.push((name, bytes))?;
    Ok(())
}

/// Two files of the name `coin`, and an empty one.
fn files(alloc: Global) -> Result<Vec<(String, Vec<u8>)>, AllocError> {
    let mut files = Vec::new(alloc);
    add_file(alloc, &mut files, "coin", b"first")?;
    add_file(alloc, &mut files, "coin", b"second")?;
    add_file(alloc, &mut files, "empty", b"")?;
    Ok(files)
}

/// A store in memory whose first and third call fail.
fn memory_store(rt: &impl Print, alloc: Global) -> Result<()> {
    println!(rt; "# a store in memory, whose calls 0 and 2 fail")?;
    let mut store = MemoryStore::new(files(alloc)?, vec![in alloc; 0, 2]?);
    read(rt, alloc, &mut store, "coin", 5)?;
    read(rt, alloc, &mut store, "coin", 5)?;
    read(rt, alloc, &mut store, "none", 5)?;
    read(rt, alloc, &mut store, "coin", 4)?;
    read(rt, alloc, &mut store, "none", 5)?;
    read(rt, alloc, &mut store, "empty", 0)
}

fn sure_store(rt: &impl Print, alloc: Global) -> Result<()> {
    println!(rt; "# a sure store")?;
    let mut store = SureStore::new(files(alloc)?);
    read(rt, alloc, &mut store, "coin", 5)?;
    read(rt, alloc, &mut store, "none", 5)
}

/// The files beside the program, of which there is one, with six bytes.
fn file_store(rt: &(impl Print + Files), alloc: Global) -> Result<()> {
    println!(rt; "# the files of the system")?;
    let mut store = FileStore::new(rt);
    read(rt, alloc, &mut store, "script.txt", 6)?;
    read(rt, alloc, &mut store, "script.txt", 5)?;
    read(rt, alloc, &mut store, "missing.txt", 6)
}

/// A sink in memory whose first call fails, up to the end of its room.
fn memory_sink(rt: &impl Print, alloc: Global) -> Result<()> {
    println!(rt; "# a sink in memory, whose call 0 fails, and then one with two bytes of room")?;
    let mut sink = MemorySink::new(alloc, vec![in alloc; 0]?)?;
    write(rt, &mut sink, b"no")?;
    write(rt, &mut sink, b"ab")?;
    write(rt, &mut sink, b"cd")?;
    let bytes = text(sink.bytes());
    println!(rt; "written: {bytes}")?;
    let zeros = vec![in alloc; 0; 16_777_210]?;
    write(rt, &mut sink, zeros.as_slice())?;
    write(rt, &mut sink, b"efg")?;
    let len = sink.bytes().len();
    let ends = sink.bytes().ends_with(b"\0ef");
    println!(rt; "written: {len} bytes, which end in a zero and ef: {ends}")?;
    Ok(())
}

/// How a writer fails.
#[derive(Clone, Copy, Debug, PartialEq, Eq)]
enum Fault {
    TakesNothing,
    Write,
    Flush,
}

/// Takes two bytes in a call, and fails once: at its second write, or at its first flush.
#[derive(Drop)]
struct Stubborn<'a> {
    taken: &'a mut Vec<u8>,
    fault: Fault,
    writes: u32,
    flushes: u32,
}

impl Write for Stubborn<'_> {
    fn write(&mut self, bytes: &[u8]) -> io::Result<usize> {
        self.writes = self.writes.saturating_add(1);
        if self.writes == 2 && self.fault == Fault::TakesNothing {
            return Ok(0);
        }
        if self.writes == 2 && self.fault == Fault::Write {
            return Err(ErrorKind::BrokenPipe.into());
        }
        let count = bytes.len().min(2);
        match self.taken.extend_from_slice(&bytes[..count]) {
            Ok(()) => Ok(count),
            Err(_) => Err(ErrorKind::OutOfMemory.into()),
        }
    }

    fn flush(&mut self) -> io::Result<()> {
        self.flushes = self.flushes.saturating_add(1);
        if self.flushes == 1 && self.fault == Fault::Flush {
            return Err(ErrorKind::BrokenPipe.into());
        }
        Ok(())
    }
}

/// Two writes to a sink over a writer, which then has the bytes.
fn stream_sink(rt: &impl Print, alloc: Global) -> Result<()> {
    println!(rt; "# a sink over a writer")?;
    let mut written = Vec::new(alloc);
    {
        let mut sink = StreamSink::new(&mut written);
        write(rt, &mut sink, b"ab")?;
        write(rt, &mut sink, b"cd")?;
    }
    let bytes = text(written.as_slice());
    println!(rt; "written: {bytes}")?;
    Ok(())
}

/// A write to a stubborn writer, and another after its fault.
fn stubborn_sink(rt: &impl Print, alloc: Global, fault: Fault) -> Result<()> {
    println!(rt; "# a sink over a writer of two bytes at a time, with the fault {fault:?}")?;
    let mut taken = Vec::new(alloc);
    {
        let mut sink = StreamSink::new(Stubborn {
            taken: &mut taken,
            fault,
            writes: 0,
            flushes: 0,
        });
        write(rt, &mut sink, b"abcd")?;
        write(rt, &mut sink, b"efg")?;
    }
    let bytes = text(taken.as_slice());
    println!(rt; "written: {bytes}")?;
    Ok(())
}

fn main(rt: HostRuntime) -> Result<()> {
    let alloc = rt.alloc();
    memory_store(&rt, alloc)?;
    sure_store(&rt, alloc)?;
    file_store(&rt, alloc)?;
    memory_sink(&rt, alloc)?;
    println!(rt; "# a sure sink")?;
    write(&rt, &mut SureSink::new(), b"gone")?;
    stream_sink(&rt, alloc)?;
    stubborn_sink(&rt, alloc, Fault::TakesNothing)?;
    stubborn_sink(&rt, alloc, Fault::Write)?;
    stubborn_sink(&rt, alloc, Fault::Flush)
}
