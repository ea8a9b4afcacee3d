//! Whether a source is accepted.

use anyhow::{Result, bail};
use cash_compile::Refusal;
use cash_compile::reading::typed_contract_of;
use cash_parser::ParseFault;
use source_texts::refusal_text::refusal_text;
use std::alloc::Global;

/// The longest source that is handed on.
const LONGEST: usize = 1_000_000;

/// `accepted` for a well-typed source, or the line that refuses it.
#[tactic(auto, using(source_texts::proofs::Refused::uncompiled))]
pub fn answer(alloc: Global, source: &[u8]) -> Result<String> {
    if source.len() > LONGEST {
        bail!("a source of over {LONGEST} bytes");
    }
    match typed_contract_of(alloc, source) {
        Ok(_) => Ok(String::from_str(alloc, "accepted")?),
        Err(Refusal::Memory) => bail!("out of memory"),
        Err(Refusal::Parse(ParseFault::Syntax { .. })) => {
            Ok(String::from_str(alloc, "refused Syntax")?)
        }
        Err(refusal) => {
            let Ok(text) = refusal_text(alloc, source, refusal) else {
                bail!("out of memory");
            };
            let Some(line) = text.as_str().strip_suffix('\n') else {
                bail!("a refusal without its line feed");
            };
            Ok(String::from_str(alloc, line)?)
        }
    }
}
