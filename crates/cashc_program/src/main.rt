//! `cashc`: the compiler of contracts for Bitcoin Cash.
#![tactic(auto)]

use cash_base::{FileStore, StreamSink};
use cashc::top_call::cashc;
use std::env;
use std::io::{self, ErrorKind};
use std::process::ExitCode;
use std::rt::Env;

/// The status for want of memory.
const OUT_OF_MEMORY: u8 = 7;

fn main(rt: HostRuntime) -> ExitCode {
    let words = match words_of(&rt) {
        Ok(words) => words,
        Err(e) if e.kind() == ErrorKind::OutOfMemory => return ExitCode::from(OUT_OF_MEMORY),
        // Words that are no text are no command.
        Err(_) => Vec::new(rt.alloc()),
    };
    let mut store = FileStore::new(&rt);
    let mut out = StreamSink::new(rt.stdout());
    let mut err = StreamSink::new(rt.stderr());
    let status = cashc(rt.alloc(), words.as_slice(), &mut store, &mut out, &mut err);
    ExitCode::from(status)
}

/// The words after the program's name.
fn words_of(rt: &(impl Env + AllocGlobal)) -> io::Result<Vec<String>> {
    let mut words = Vec::new(rt.alloc());
    for word in env::args(rt)?.skip(1) {
        words.push(word)?;
    }
    Ok(words)
}
