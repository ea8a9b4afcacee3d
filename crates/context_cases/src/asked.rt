//! What a context and a table of verdicts are asked.

use crate::parts::kind;
use crate::words::{bytes, element, elements, word};
use anyhow::{Result, bail, ensure};
use cash_base::{Cause, Element};
use std::alloc::Global;
use tx_context::{
    Context, Look0, LookAt, Verdicts, age_met, check_many, check_one, look_at, look0, time_met,
};

fn look0_of(name: &str) -> Result<Look0> {
    match name {
        "Version" => Ok(Look0::Version),
        "Locktime" => Ok(Look0::Locktime),
        "InputCount" => Ok(Look0::InputCount),
        "OutputCount" => Ok(Look0::OutputCount),
        "ActiveIndex" => Ok(Look0::ActiveIndex),
        "ActiveBytecode" => Ok(Look0::ActiveBytecode),
        _ => bail!("there is no look-up {name}"),
    }
}

fn look_at_of(name: &str) -> Result<LookAt> {
    match name {
        "UtxoValue" => Ok(LookAt::UtxoValue),
        "UtxoBytecode" => Ok(LookAt::UtxoBytecode),
        "OutpointHash" => Ok(LookAt::OutpointHash),
        "OutpointIndex" => Ok(LookAt::OutpointIndex),
        "InputBytecode" => Ok(LookAt::InputBytecode),
        "InputSequence" => Ok(LookAt::InputSequence),
        "OutputValue" => Ok(LookAt::OutputValue),
        "OutputBytecode" => Ok(LookAt::OutputBytecode),
        _ => bail!("there is no look-up {name}"),
    }
}

/// The word of an element, or the cause that there is none.
fn shown(alloc: Global, outcome: Result<Element, Cause>) -> Result<String> {
    match outcome {
        Ok(element) => word(alloc, element.as_slice()),
        Err(cause) => Ok(format!(in alloc; "!{cause:?}")?),
    }
}

fn met(alloc: Global, outcome: Result<(), Cause>) -> Result<String> {
    match outcome {
        Ok(()) => Ok(String::from_str(alloc, "met")?),
        Err(cause) => Ok(format!(in alloc; "!{cause:?}")?),
    }
}

fn truth(alloc: Global, outcome: Result<bool, Cause>) -> Result<String> {
    match outcome {
        Ok(is) => Ok(format!(in alloc; "{is}")?),
        Err(cause) => Ok(format!(in alloc; "!{cause:?}")?),
    }
}

/// What a context answers, or `None` where this is asked of none.
pub fn of_context(
    alloc: Global,
    context: &Context,
    call: &str,
    words: &[&str; 6],
) -> Result<Option<String>> {
    Ok(Some(match call {
        "look0" => {
            let active = bytes(alloc, words[1])?;
            shown(
                alloc,
                look0(context, look0_of(words[0])?, active.as_slice()),
            )?
        }
        "look_at" => {
            let index = element(alloc, words[1])?;
            shown(
                alloc,
                look_at(context, look_at_of(words[0])?, index.as_slice()),
            )?
        }
        "spent" => {
            let value = context.spent_input().value;
            format!(in alloc; "{value}")?
        }
        "time" => {
            let element = element(alloc, words[0])?;
            met(alloc, time_met(context, element.as_slice()))?
        }
        "age" => {
            let element = element(alloc, words[0])?;
            met(alloc, age_met(context, element.as_slice()))?
        }
        _ => return Ok(None),
    }))
}

/// What a table of verdicts answers, or `None` where this is asked of none.
pub fn of_verdicts(
    alloc: Global,
    verdicts: &Verdicts,
    call: &str,
    words: &[&str; 6],
) -> Result<Option<String>> {
    Ok(Some(match call {
        "one" => {
            let kind = kind(words[0])?;
            let sig = bytes(alloc, words[1])?;
            let key = bytes(alloc, words[2])?;
            let message = bytes(alloc, words[3])?;
            let outcome = check_one(
                verdicts,
                kind,
                sig.as_slice(),
                key.as_slice(),
                message.as_slice(),
            );
            truth(alloc, outcome)?
        }
        "many" => {
            let sigs = elements(alloc, words[0])?;
            let keys = elements(alloc, words[1])?;
            ensure!(keys.len() <= 20, "there are too many keys");
            ensure!(sigs.len() <= keys.len(), "there are too many signatures");
            let outcome = check_many(verdicts, sigs.as_slice(), keys.as_slice());
            truth(alloc, outcome)?
        }
        _ => return Ok(None),
    }))
}
