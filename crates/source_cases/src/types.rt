//! The fault of a source's types in full, and what casts do.

use anyhow::{Result, bail};
use cash_compile::Refusal;
use cash_compile::reading::typed_contract_of;
use cash_tree::Ty;
use std::alloc::Global;
use type_check::{TypeFault, cast_effect, sized_effect};

/// The longest source that is handed on.
const LONGEST: usize = 1_000_000;

/// A type, and the parts of a pair too.
fn spell(text: &mut String, ty: &Ty) -> Result<()> {
    match ty {
        Ty::Int => text.push_str("int")?,
        Ty::Bool => text.push_str("bool")?,
        Ty::Text => text.push_str("string")?,
        Ty::Bytes => text.push_str("bytes")?,
        Ty::BytesN(n) => write!(text, "bytes{n}")?,
        Ty::Pubkey => text.push_str("pubkey")?,
        Ty::Sig => text.push_str("sig")?,
        Ty::Datasig => text.push_str("datasig")?,
        Ty::Array(item) => {
            spell(text, item.get())?;
            text.push_str("[]")?;
        }
        Ty::Pair(left, right) => {
            text.push_str("pair(")?;
            spell(text, left.get())?;
            text.push_str(",")?;
            spell(text, right.get())?;
            text.push_str(")")?;
        }
    }
    Ok(())
}

/// A fault: where its node begins and ends, its name, and what it tells.
fn fault_text(alloc: Global, fault: TypeFault) -> Result<String> {
    let (span, name) = match fault {
        TypeFault::Mismatch {
            span,
            wanted,
            found,
        } => {
            let mut text = format!(in alloc; "{}-{} Mismatch ", span.from, span.to)?;
            spell(&mut text, &wanted)?;
            text.push_str(" ")?;
            spell(&mut text, &found)?;
            return Ok(text);
        }
        TypeFault::WrongCount {
            span,
            wanted,
            found,
        } => {
            return Ok(format!(in alloc; "{}-{} WrongCount {wanted} {found}", span.from, span.to)?);
        }
        TypeFault::NoSuchCast { span } => (span, "NoSuchCast"),
        TypeFault::BadTupleIndex { span } => (span, "BadTupleIndex"),
        TypeFault::EmptyArray { span } => (span, "EmptyArray"),
        TypeFault::MoreSigsThanKeys { span } => (span, "MoreSigsThanKeys"),
        TypeFault::LiteralRange { span } => (span, "LiteralRange"),
        TypeFault::NoFinalRequire { span } => (span, "NoFinalRequire"),
        TypeFault::Memory => bail!("out of memory"),
    };
    Ok(format!(in alloc; "{}-{} {name}", span.from, span.to)?)
}

/// `typed` for a well-typed source, or the fault of its types.
pub fn answer(alloc: Global, source: &[u8]) -> Result<String> {
    if source.len() > LONGEST {
        bail!("a source of over {LONGEST} bytes");
    }
    match typed_contract_of(alloc, source) {
        Ok(_) => Ok(String::from_str(alloc, "typed")?),
        Err(Refusal::Typing(fault)) => fault_text(alloc, fault),
        Err(_) => bail!("a source that is refused before its types"),
    }
}

/// The type that a word spells.
fn ty_of(word: &str) -> Result<Ty> {
    Ok(match word {
        "int" => Ty::Int,
        "bool" => Ty::Bool,
        "string" => Ty::Text,
        "bytes" => Ty::Bytes,
        "pubkey" => Ty::Pubkey,
        "sig" => Ty::Sig,
        "datasig" => Ty::Datasig,
        _ => Ty::BytesN(word.strip_prefix("bytes").unwrap_or("").parse::<u16>()?),
    })
}

/// What a cast does, and what it does with a size.
pub fn cast_answer(alloc: Global, to: &str, from: &str) -> Result<String> {
    let to = ty_of(to)?;
    let from = ty_of(from)?;
    let mut text = match cast_effect(&to, &from) {
        Some(effect) => format!(in alloc; "{effect:?}")?,
        None => String::from_str(alloc, "-")?,
    };
    if let Some(effect) = sized_effect(&to, &from) {
        write!(text, "+{effect:?}")?;
    }
    Ok(text)
}
