//! How the types of parameters are spelled.

ghost use Rattle.std.specs.Prelude.{◌≡◌, string_bytes, IfOk};
ghost use Rattle.artifact_json.specs.Types;

use cash_tree::Ty;
use std::alloc::{AllocError, Global};

/// Whether a parameter may have a type: each type that a source can name, which are all but arrays and pairs, and of types
/// `bytesN` those from `bytes1` to `bytes520`. It takes no memory.
///
/// Source: the types of CashScript 0.7; the limit of 520 bytes is this project's own.
pub fn is_named_type(ty: &Ty) -> bool
    ensures { result ≡ Types.is_named_type ty.now }
{
    match ty {
        Ty::BytesN(size) => 1 <= *size && *size <= 520,
        Ty::Array(_) | Ty::Pair(_, _) => false,
        _ => true,
    }
}

/// A type as it is spelled in a source; `byte` is spelled `bytes1`. An array or a pair, which no parameter has, has no spelling
/// here.
pub fn spelling(alloc: Global, ty: &Ty) -> Result<String, AllocError>
    ensures { IfOk result (λ text. string_bytes text ≡ Types.spelling ty.now) }
{
    match ty {
        Ty::Int => Ok(String::from_str(alloc, "int")?),
        Ty::Bool => Ok(String::from_str(alloc, "bool")?),
        Ty::Text => Ok(String::from_str(alloc, "string")?),
        Ty::Bytes => Ok(String::from_str(alloc, "bytes")?),
        Ty::BytesN(size) => Ok(format!(in alloc; "bytes{size}")?),
        Ty::Pubkey => Ok(String::from_str(alloc, "pubkey")?),
        Ty::Sig => Ok(String::from_str(alloc, "sig")?),
        Ty::Datasig => Ok(String::from_str(alloc, "datasig")?),
        Ty::Array(_) | Ty::Pair(_, _) => Ok(String::new(alloc)),
    }
}
