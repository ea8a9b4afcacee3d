//! The commands: what each shows, or why it shows nothing.

ghost use Rattle.std.specs.Prelude.{◌≡◌, ◌≢◌, ◌⊎◌, [], IfOk, IfErr, Some};
ghost use Rattle.command_files.specs.Files.{IsSaid};
ghost use Rattle.cashc.specs.TopCall.{IsShownFor};
ghost use Rattle.cashc.specs.Answering.{seen, IsSmall, HasCause};

use cash_base::Store;
use command_files::{Output, Stop};
use source_commands::{compile_file, debug_files, meaning_files, trace_files};
use spend_command::spend_files;
use std::alloc::Global;
use workload::summary_of;

/// A command, with the names of its files.
#[derive(Clone, Copy)]
pub enum Command<'a> {
    /// The artifact of a source that was compiled at this time.
    Compile { source: &'a str, updated: &'a str },
    /// A spend of a source's contract, as a spend file asks for it.
    Debug { source: &'a str, spend: &'a str },
    /// The same, with the instructions that it executes.
    Trace { source: &'a str, spend: &'a str },
    /// A spend of an artifact's program, as a spend file asks for it.
    Spend { artifact: &'a str, spend: &'a str },
    /// How the run of a source ends in the world of a spend.
    Meaning { source: &'a str, spend: &'a str },
    /// A summary of the spends of so many generated contracts, at most 200.
    Workload { contracts: u32 },
}

/// What a command shows, and the status that goes with it, or why it shows nothing: a refusal with status 1 or 4 and its
/// text, that a file could not be read, or that memory ran out. Nothing is written.
#[tactic(auto, using(crate::proofs::Answered::compile_stopped, crate::proofs::Answered::debug_stopped, crate::proofs::Answered::trace_stopped, crate::proofs::Answered::spend_stopped, crate::proofs::Answered::meaning_stopped, crate::proofs::Answered::workload_stopped))]
pub fn answer<S: Store>(alloc: Global, command: &Command<'_>, store: &mut S) -> Result<Output, Stop>
    requires { IsSmall (seen command.now) }
    ensures shown { IfOk result (λ output.
        IsShownFor (S.files store.old) (Some (seen command.now)) output.status output.text.items) }
    ensures some { IfOk result (λ output. output.text.items ≢ []) }
    ensures status { IfOk result (λ output. (output.status ≡ 0) ⊎ (output.status ≡ 3)) }
    ensures stopped { IfErr result (λ stop.
        HasCause (S.files store.old) (seen command.now) (S.faults store.old) (S.faults store.new) stop) }
    ensures said { IfErr result (λ stop. IsSaid stop) }
    ensures files { S.files store.new ≡ S.files store.old }
{
    match command {
        Command::Compile { source, updated } => Ok(compile_file(alloc, source, updated, store)?),
        Command::Debug { source, spend } => Ok(debug_files(alloc, source, spend, store)?),
        Command::Trace { source, spend } => Ok(trace_files(alloc, source, spend, store)?),
        Command::Spend { artifact, spend } => Ok(spend_files(alloc, artifact, spend, store)?),
        Command::Meaning { source, spend } => Ok(meaning_files(alloc, source, spend, store)?),
        Command::Workload { contracts } => Ok(summary_of(alloc, *contracts)?),
    }
}
