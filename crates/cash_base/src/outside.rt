//! The outside, as a store of files and a sink of bytes. A contract names what they tell and the faults that they count.

ghost use Rattle.std.specs.Prelude.{◌≡◌, ◌≢◌, ℕ, List, [], Option};
ghost use Rattle.cash_base.specs.Outside.{Files, Reads, Writes};

use std::alloc::AllocError;
use std::error::Error;
use std::fmt;

/// Why a store gives no file.
#[derive(Clone, Copy, Debug, PartialEq, Eq)]
pub enum StoreStop {
    /// The store had a fault, or has no file of this name.
    Failed,
    /// The file is longer than the limit.
    TooLong,
    /// Memory ran out.
    Memory,
}

impl fmt::Display for StoreStop {
    fn fmt<W: fmt::Write>(&self, f: &mut fmt::Formatter<W>) -> fmt::Result {
        f.write_str(match self {
            StoreStop::Failed => "the file can't be read",
            StoreStop::TooLong => "the file is too long",
            StoreStop::Memory => "out of memory",
        })
    }
}

impl Error for StoreStop {}

impl From<AllocError> for StoreStop {
    ghost use Rattle.cash_base.specs.declared.outside.StoreStop.TheVariants.{Memory};

    ghost from_gives = { λ _ stop. stop ≡ Memory };

    fn from(_e: AllocError) -> StoreStop {
        StoreStop::Memory
    }
}

/// A sink had a fault.
#[derive(Clone, Copy, Debug, PartialEq, Eq)]
pub struct SinkFailed;

impl fmt::Display for SinkFailed {
    fn fmt<W: fmt::Write>(&self, f: &mut fmt::Formatter<W>) -> fmt::Result {
        f.write_str("the bytes can't be written")
    }
}

impl Error for SinkFailed {}

/// What files are read from.
///
/// A store may tell its files, `files`; where two have one name the first is meant. It counts its faults, `faults`.
pub trait Store {
    ghost files: { Self → Option Files };

    ghost faults: { Self → ℕ };

    /// Reads the whole file of this name, if it has at most `limit` bytes, into `into`, which is empty.
    ///
    /// `Failed` comes only at a fault, or where the store tells its files and `name` is none of them. Where it tells
    /// them, `TooLong` comes only for a file that is longer than `limit`, and `Memory` only for one that is not. After
    /// any stop `into` is empty, and no call changes the files.
    fn read(&mut self, name: &str, limit: usize, into: &mut Vec<u8>) -> Result<(), StoreStop>
        requires { into.old.items ≡ [] }
        ensures files { files self.new ≡ files self.old }
        ensures reads { Reads (files self.old) (faults self.old) (faults self.new)
            name.now limit result into.new.items };
}

/// What bytes are written to.
///
/// A sink may tell what was written, `written`. It counts its faults, `faults`.
pub trait Sink {
    ghost written: { Self → Option (List ℕ) };

    ghost faults: { Self → ℕ };

    /// Writes these bytes, of which there is at least one, after what was written.
    ///
    /// `SinkFailed` comes only at a fault, and some front of the bytes was then written. It takes no memory.
    fn write_all(&mut self, bytes: &[u8]) -> Result<(), SinkFailed>
        requires { bytes.now ≢ [] }
        ensures writes { Writes (written self.old) (written self.new)
            (faults self.old) (faults self.new) bytes.now result };
}
