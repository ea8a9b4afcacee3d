//! How a refusal is printed.

ghost use Rattle.std.specs.Prelude.{◌≡◌, ◌≢◌, ◌≤◌, ◌++◌, codes, length, string_bytes, [], IfOk};
ghost use Rattle.cash_compile.specs.Compile.{IsUncompiled};
ghost use Rattle.source_stages.specs.Stages.{IsText};
ghost use Rattle.source_texts.specs.RefusalText;
ghost use Rattle.source_texts.specs.RefusalText.{refused_at, refused_with, lex_text, parse_text, name_text, type_text, mismatch, typing_text};

use crate::places::place_text;
use cash_base::Memory;
use cash_compile::Refusal;
use cash_lexer::{LexFault, tokens};
use cash_names::NameFault;
use cash_parser::ParseFault;
use cash_tree::Ty;
use std::alloc::{AllocError, Global};
use type_check::TypeFault;

/// The line that refuses a source of more than 65,536 bytes.
pub const SOURCE_TOO_LONG: &str = "refused SourceTooLong\n";

/// Where the token with this number begins, or else the end of the source.
fn token_start(alloc: Global, source: &[u8], number: u32) -> Result<u32, Memory>
    requires { IsText source.now }
    ensures { IfOk result (λ at. at ≡ RefusalText.token_start source.now number) }
{
    let end = source.len() as u32;
    let Ok(text) = str::from_utf8(source) else {
        unreachable!();
    };
    match tokens(alloc, text) {
        Ok(tokens) => match tokens.get(number as usize) {
            Some(token) => Ok(token.span.from),
            None => Ok(end),
        },
        Err(LexFault::Memory) => Err(Memory),
        Err(_) => Ok(end),
    }
}

/// The line that names a fault at a place.
fn named_at(alloc: Global, place: &str, name: &str) -> Result<String, AllocError>
    ensures { IfOk result (λ text. string_bytes text ≡ codes "refused " ++ place.now ++ codes " " ++ name.now ++ codes "\n") }
{
    Ok(format!(in alloc; "refused {place} {name}\n")?)
}

/// The line that refuses a source at a place.
fn refused_at(alloc: Global, source: &[u8], at: u32, name: &str) -> Result<String, AllocError>
    requires { length source.now ≤ 2147483647 }
    ensures { IfOk result (λ text. string_bytes text ≡ refused_at source.now at name.now) }
{
    let place = place_text(alloc, source, at)?;
    let line = named_at(alloc, place.as_str(), name)?;
    Ok(line)
}

/// The line that refuses a source because of a number that is too large.
fn refused_with(alloc: Global, name: &str, n: usize) -> Result<String, AllocError>
    ensures { IfOk result (λ text. string_bytes text ≡ refused_with name.now n) }
{
    Ok(format!(in alloc; "refused {name} {n}\n")?)
}

fn lex_text(alloc: Global, source: &[u8], fault: LexFault) -> Result<String, Memory>
    requires { length source.now ≤ 2147483647 }
    ensures { IfOk result (λ text. string_bytes text ≡ lex_text source.now fault) }
{
    let (span, name) = match fault {
        LexFault::BadCharacter { span } => (span, "BadCharacter"),
        LexFault::OpenString { span } => (span, "OpenString"),
        LexFault::OpenComment { span } => (span, "OpenComment"),
        LexFault::NumberTooWide { span } => (span, "NumberTooWide"),
        LexFault::OddHex { span } => (span, "OddHex"),
        LexFault::BadDate { span } => (span, "BadDate"),
        LexFault::Memory => return Err(Memory),
    };
    Ok(refused_at(alloc, source, span.from, name)?)
}

fn parse_text(alloc: Global, source: &[u8], fault: ParseFault) -> Result<String, Memory>
    requires { IsText source.now }
    ensures { IfOk result (λ text. string_bytes text ≡ parse_text source.now fault) }
{
    let (at, name) = match fault {
        ParseFault::TooDeep { span, .. } => (span.from, "TooDeep"),
        ParseFault::Syntax { token } => (token_start(alloc, source, token)?, "Syntax"),
        ParseFault::Memory => return Err(Memory),
    };
    Ok(refused_at(alloc, source, at, name)?)
}

fn name_text(alloc: Global, source: &[u8], fault: NameFault) -> Result<String, Memory>
    requires { length source.now ≤ 2147483647 }
    ensures { IfOk result (λ text. string_bytes text ≡ name_text source.now fault) }
{
    let (span, name) = match fault {
        NameFault::PragmaRefused { span } => (span, "PragmaRefused"),
        NameFault::UnknownName { span } => (span, "UnknownName"),
        NameFault::Redeclared { span } => (span, "Redeclared"),
        NameFault::AssignToConstant { span } => (span, "AssignToConstant"),
        NameFault::TooManyNames { span } => (span, "TooManyNames"),
        NameFault::NoFunction { span } => (span, "NoFunction"),
        NameFault::Memory => return Err(Memory),
    };
    Ok(refused_at(alloc, source, span.from, name)?)
}

/// A type as it is spelled in a source; an array is its item's type and `[]`, and a pair has one word.
fn type_text(alloc: Global, ty: &Ty) -> Result<String, AllocError>
    ensures { IfOk result (λ text. string_bytes text ≡ type_text ty.now) }
{
    match ty {
        Ty::Int => Ok(String::from_str(alloc, "int")?),
        Ty::Bool => Ok(String::from_str(alloc, "bool")?),
        Ty::Text => Ok(String::from_str(alloc, "string")?),
        Ty::Bytes => Ok(String::from_str(alloc, "bytes")?),
        Ty::BytesN(size) => Ok(format!(in alloc; "bytes{size}")?),
        Ty::Pubkey => Ok(String::from_str(alloc, "pubkey")?),
        Ty::Sig => Ok(String::from_str(alloc, "sig")?),
        Ty::Datasig => Ok(String::from_str(alloc, "datasig")?),
        Ty::Array(item) => {
            let mut text = type_text(alloc, item.get())?;
            text.push_str("[]")?;
            Ok(text)
        }
        Ty::Pair(_, _) => Ok(String::from_str(alloc, "pair")?),
    }
}

/// The name of a mismatch, with both types.
fn mismatch(alloc: Global, wanted: &Ty, found: &Ty) -> Result<String, AllocError>
    ensures { IfOk result (λ text. string_bytes text ≡ mismatch wanted.now found.now) }
{
    let mut text = String::from_str(alloc, "Mismatch wanted ")?;
    text.push_str(type_text(alloc, wanted)?.as_str())?;
    text.push_str(" found ")?;
    text.push_str(type_text(alloc, found)?.as_str())?;
    Ok(text)
}

fn typing_text(alloc: Global, source: &[u8], fault: TypeFault) -> Result<String, Memory>
    requires { length source.now ≤ 2147483647 }
    ensures { IfOk result (λ text. string_bytes text ≡ typing_text source.now fault) }
{
    let (span, name) = match fault {
        TypeFault::Mismatch {
            span,
            wanted,
            found,
        } => {
            let name = mismatch(alloc, &wanted, &found)?;
            return Ok(refused_at(alloc, source, span.from, name.as_str())?);
        }
        TypeFault::NoSuchCast { span } => (span, "NoSuchCast"),
        TypeFault::WrongCount { span, .. } => (span, "WrongCount"),
        TypeFault::BadTupleIndex { span } => (span, "BadTupleIndex"),
        TypeFault::EmptyArray { span } => (span, "EmptyArray"),
        TypeFault::MoreSigsThanKeys { span } => (span, "MoreSigsThanKeys"),
        TypeFault::LiteralRange { span } => (span, "LiteralRange"),
        TypeFault::NoFinalRequire { span } => (span, "NoFinalRequire"),
        TypeFault::Memory => return Err(Memory),
    };
    Ok(refused_at(alloc, source, span.from, name)?)
}

/// The line that refuses a source.
///
/// It is `refused LINE:COL NAME`, where the name is that of the innermost fault, and after Mismatch come both types, as
/// ` wanted TYPE found TYPE`; `refused NotUtf8 AT`; `refused SourceTooLong`; `refused CodeTooLong BYTES`; or `refused TooManyOps
/// COUNT`. A Syntax stands at its token, or at the end of the source.
///
/// # Errors
///
/// `Memory`, where memory ran out.
pub fn refusal_text(alloc: Global, source: &[u8], refusal: Refusal) -> Result<String, Memory>
    requires short { length source.now ≤ 2147483647 }
    requires refused { IsUncompiled source.now refusal }
    ensures text { IfOk result (λ text. string_bytes text ≡ RefusalText.refusal_text source.now refusal) }
    ensures some { IfOk result (λ text. string_bytes text ≢ []) }
{
    match refusal {
        Refusal::SourceTooLong { .. } => Ok(String::from_str(alloc, SOURCE_TOO_LONG)?),
        Refusal::NotUtf8 { at } => Ok(refused_with(alloc, "NotUtf8", at as usize)?),
        Refusal::Lex(fault) => lex_text(alloc, source, fault),
        Refusal::Parse(fault) => parse_text(alloc, source, fault),
        Refusal::Name(fault) => name_text(alloc, source, fault),
        Refusal::Typing(fault) => typing_text(alloc, source, fault),
        Refusal::CodeTooLong { bytes, .. } => Ok(refused_with(alloc, "CodeTooLong", bytes)?),
        Refusal::TooManyOps { count, .. } => {
            Ok(refused_with(alloc, "TooManyOps", count as usize)?)
        }
        Refusal::Memory => Err(Memory),
    }
}
