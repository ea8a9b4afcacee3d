//! What a workload comes to.

ghost use Rattle.std.specs.Prelude.{◌≡◌, ◌≤◌, IfOk, IfErr};
ghost use Rattle.command_files.specs.Files.{IsSaid};
ghost use Rattle.workload.specs.Work.{IsWorked, good_ones};
ghost use Rattle.workload.specs.Refused.{HasWorkCause};

use crate::trying::{Verdicts, add_contracts};
use command_files::Stop;
use sha2::{Digest, Sha256};
use std::alloc::Global;
use std::marker::Model;

/// How many contracts and spends there are, how many spends the machine accepts and how many runs of the source are met, and the
/// SHA-256 digest of one byte a spend, in order: 01 where the machine accepts it, and 00 where it doesn't.
#[derive(Drop)]
pub struct Summary {
    pub contracts: u32,
    pub spends: usize,
    pub accepted: usize,
    pub met: usize,
    pub digest: [u8; 32],
}

impl Model for Summary {
    ghost use Rattle.workload.specs.Work.{Counts};

    ghost Value = { Counts };

    ghost view = { λ s. record {
      contracts = s.contracts;
      spends = s.spends;
      accepted = s.accepted;
      met = s.met;
      digest = s.digest;
    } };
}

/// How many of these are 1.
fn ones(verdicts: &[u8]) -> usize
    ensures { result ≡ good_ones verdicts.now }
{
    verdicts.iter().filter(|verdict| **verdict == 1).count()
}

/// Compiles so many generated contracts, and tries fifty spends of each, by the machine and by the run of the source.
///
/// `Refused` comes where a generated source is refused, with status 1 and the text of its refusal, or one of its spend files, with
/// status 4; none is known that is. `Memory` comes where memory ran out.
pub fn workload(alloc: Global, contracts: u32) -> Result<Summary, Stop>
    requires { contracts ≤ 1000 }
    ensures worked { IfOk result (λ summary. IsWorked contracts summary) }
    ensures stopped { IfErr result (λ stop. HasWorkCause contracts stop) }
    ensures said { IfErr result (λ stop. IsSaid stop) }
{
    let mut verdicts = Verdicts {
        by_machine: Vec::new(alloc),
        by_source: Vec::new(alloc),
    };
    add_contracts(alloc, 0, contracts, &mut verdicts)?;
    Ok(Summary {
        contracts,
        spends: verdicts.by_machine.len(),
        accepted: ones(verdicts.by_machine.as_slice()),
        met: ones(verdicts.by_source.as_slice()),
        digest: Sha256::digest(verdicts.by_machine.as_slice()),
    })
}
