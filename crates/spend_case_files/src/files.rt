//! The files that a case names.

ghost use Rattle.std.specs.Prelude.{◌≡◌, IfOk, Ok};
ghost use Rattle.spend_json.specs.Given.{spend_parts};
ghost use Rattle.spend_json.specs.Files.{spend_reading};
ghost use Rattle.artifact_json.specs.Artifact.{HasFewInputs};
ghost use Rattle.artifact_json.specs.Reading.{artifact_reading};

use crate::text::stop_text;
use anyhow::{Context, Result, bail};
use artifact_json::Program;
use spend_debug::{SpendStop, build_stop};
use spend_json::SpendFile;
use std::alloc::Global;

/// The two files of a case, with a tab between them. An error comes where there is no tab.
pub fn files(case: &str) -> Result<(&str, &str)> {
    case.split_once('\t')
        .context("a tab stands between two files")
}

/// The program of an artifact. An error comes where it is none, or where memory ran out.
pub fn program_of(alloc: Global, artifact: &str) -> Result<Program>
    ensures read { IfOk result (λ program. artifact_reading artifact.now ≡ Ok program) }
    ensures few { IfOk result HasFewInputs }
{
    let Ok(program) = artifact_json::read(alloc, artifact.as_bytes()) else {
        bail!("no artifact");
    };
    Ok(program)
}

/// What a spend file asks for. An error comes where it is none, or where memory ran out.
pub fn spend_of(alloc: Global, file: &str) -> Result<SpendFile>
    ensures { IfOk result (λ spend. spend_reading file.now ≡ Ok (spend_parts spend)) }
{
    let Ok(spend) = spend_json::read(alloc, file.as_bytes()) else {
        bail!("no spend file");
    };
    Ok(spend)
}

/// The line that says why nothing comes of a spend. An error comes where memory ran out.
pub fn stopped(alloc: Global, stop: SpendStop) -> Result<String> {
    match stop {
        SpendStop::Build(fault) => stop_text(alloc, build_stop(fault)),
        SpendStop::Memory => bail!("out of memory"),
    }
}
