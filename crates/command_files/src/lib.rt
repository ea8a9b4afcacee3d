//! What a command of the program comes to, and how it reads its files.
#![tactic(auto)]

ghost use Rattle.std.specs.Prelude.{◌≡◌, ◌≢◌, ◌≤◌, [], length, IfOk, IfErr};
ghost use Rattle.command_files.specs.Files.{IsFile, IsSaid, HasFileCause};
ghost use Rattle.command_files.specs.declared.Stop.TheVariants.{Memory as WithoutMemory};

use cash_base::{Memory, Store, StoreStop};
use std::alloc::{AllocError, Global};

/// What a command shows, and the status that goes with it: 0, or 3 where the machine refuses.
#[derive(Drop)]
pub struct Output {
    pub status: u8,
    pub text: Vec<u8>,
}

/// Why a command shows nothing.
#[derive(Drop)]
pub enum Stop {
    /// What is handed in is refused, with the status 1 or 4 and this text.
    Refused { status: u8, text: Vec<u8> },
    /// A file could not be read.
    Unread,
    /// Memory ran out.
    Memory,
}

impl From<Memory> for Stop {
    ghost from_gives = { λ _ stop. stop ≡ WithoutMemory };

    fn from(_e: Memory) -> Stop {
        Stop::Memory
    }
}

impl From<AllocError> for Stop {
    ghost from_gives = { λ _ stop. stop ≡ WithoutMemory };

    fn from(_e: AllocError) -> Stop {
        Stop::Memory
    }
}

/// The bytes of a file, if it has at most so many.
///
/// `Refused` comes exactly where the file is longer, with this status and this text; `Unread` only where the store's count of
/// faults rose, or the store tells its files and none has this name; `Memory` where memory ran out.
pub fn read_file<S: Store>(
    alloc: Global,
    name: &str,
    limit: usize,
    status: u8,
    too_long: &str,
    store: &mut S,
) -> Result<Vec<u8>, Stop>
    requires { too_long.now ≢ [] }
    ensures read { IfOk result (λ bytes. IsFile (S.files store.old) name.now bytes.items × (length bytes.items ≤ limit)) }
    ensures stopped { IfErr result (λ stop.
        HasFileCause (S.files store.old) name.now limit status too_long.now (S.faults store.old) (S.faults store.new) stop) }
    ensures said { IfErr result (λ stop. IsSaid stop) }
    ensures later { S.faults store.old ≤ S.faults store.new }
    ensures files { S.files store.new ≡ S.files store.old }
{
    let mut bytes = Vec::new(alloc);
    match store.read(name, limit, &mut bytes) {
        Ok(()) => Ok(bytes),
        Err(StoreStop::TooLong) => {
            let text = Vec::from_slice(alloc, too_long.as_bytes())?;
            Err(Stop::Refused { status, text })
        }
        Err(StoreStop::Failed) => Err(Stop::Unread),
        Err(StoreStop::Memory) => Err(Stop::Memory),
    }
}
