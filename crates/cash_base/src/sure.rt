//! A store and a sink that have no faults.

ghost use Rattle.std.specs.Prelude.{◌≡◌, ℕ, List, None, Option, Some};
ghost use Rattle.cash_base.specs.Kept.{kept_files};

use crate::memory::read_kept;
use crate::outside::{Sink, SinkFailed, Store, StoreStop};
use std::marker::Model;

/// Files in memory, with no faults. Contracts see it as its files.
#[derive(Drop)]
pub struct SureStore {
    files: Vec<(String, Vec<u8>)>,
}

impl Model for SureStore {
    ghost use Rattle.cash_base.specs.Outside.{Files};
    ghost use Rattle.cash_base.specs.Kept.{kept_files};

    ghost Value = { Files };

    ghost view = { λ s. kept_files s.files.items };
}

impl SureStore {
    /// A store of these files, of which the first of a name is meant.
    pub fn new(files: Vec<(String, Vec<u8>)>) -> SureStore
        ensures { result ≡ kept_files files.items }
    {
        SureStore { files }
    }
}

impl Store for SureStore {
    ghost files = { λ s. Some s };

    ghost faults = { λ _. 0 };

    /// Reads the first file of this name.
    fn read(&mut self, name: &str, limit: usize, into: &mut Vec<u8>) -> Result<(), StoreStop> {
        read_kept(&self.files, name, limit, into)
    }
}

/// A sink that takes all bytes and keeps none, with no faults.
#[derive(Clone, Copy, Debug, Default, PartialEq, Eq)]
pub struct SureSink;

impl SureSink {
    /// The sink.
    pub fn new() -> SureSink
        ensures faults { ⟦<SureSink as Sink>⟧.faults result ≡ 0 }
        ensures untold { ⟦<SureSink as Sink>⟧.written result ≡ None }
    {
        SureSink
    }
}

impl Sink for SureSink {
    ghost written = { λ _. None };

    ghost faults = { λ _. 0 };

    fn write_all(&mut self, _bytes: &[u8]) -> Result<(), SinkFailed> {
        Ok(())
    }
}
