//! The elements of values.

use anyhow::{Result, bail};
use cash_base::TypedValue;
use cash_tree::Ty;
use spend_case_files::text::{split, stop_text};
use spend_debug::build_stop;
use std::alloc::Global;
use unlocker::element_of;

fn type_of(name: &str) -> Result<Ty> {
    match name {
        "int" => Ok(Ty::Int),
        "bool" => Ok(Ty::Bool),
        "string" => Ok(Ty::Text),
        "bytes" => Ok(Ty::Bytes),
        "pubkey" => Ok(Ty::Pubkey),
        "sig" => Ok(Ty::Sig),
        "datasig" => Ok(Ty::Datasig),
        _ => match name.strip_prefix("bytes") {
            Some(size) => Ok(Ty::BytesN(size.parse::<u16>()?)),
            None => bail!("{name} is no type of a case"),
        },
    }
}

/// The elements of the values of a spend file's constructor as parameters of a type, or the fault of the first that has none.
pub fn elements(alloc: Global, case: &str) -> Result<String> {
    let (name, file) = split(case);
    let ty = type_of(name)?;
    let Ok(spend) = spend_json::read(alloc, file.as_bytes()) else {
        bail!("no spend file");
    };
    shown(alloc, &ty, spend.ctor.as_slice())
}

fn shown(alloc: Global, ty: &Ty, values: &[TypedValue]) -> Result<String> {
    let mut text = String::new(alloc);
    for value in values {
        match element_of(alloc, ty, value) {
            Ok(element) => text.push_str(hex::encode(alloc, element.as_slice())?.as_str())?,
            Err(fault) => return stop_text(alloc, build_stop(fault)),
        }
        text.push_str(",")?;
    }
    text.push_str("\n")?;
    Ok(text)
}
