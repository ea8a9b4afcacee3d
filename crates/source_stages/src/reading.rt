//! From a source to its contract with types, stage by stage.

ghost use Rattle.std.specs.Prelude.{◌≡◌, ◌≢◌, ◌≤◌, ◌<◌, ◌^◌, length, IfOk, IfErr};
ghost use Rattle.source_stages.specs.declared.fault.SourceFault.TheVariants.{Memory};
ghost use Rattle.source_stages.specs.Stages.{IsText, HasTokens, HasTree, HasNames, IsAccepted, IsRefused};

use crate::fault::SourceFault;
use cash_lexer::LexFault;
use cash_names::{NameFault, resolve};
use cash_parser::{ParseFault, parse};
use cash_tree::{NamedTree, Token, Tree, TypedContract};
use std::alloc::Global;
use type_check::{TypeFault, check};

/// The most bytes of a source.
pub const MAX_SOURCE_LEN: usize = 65_536;

/// The text of a source.
fn text_of(source: &[u8]) -> Result<&str, SourceFault>
    requires { length source.now < 2 ^ 32 }
    ensures text { IfOk result (λ text. (text.now ≡ source.now) × IsText source.now) }
    ensures refused { IfErr result (λ fault. IsRefused source.now fault) }
{
    if source.len() > MAX_SOURCE_LEN {
        let bytes = source.len() as u32;
        return Err(SourceFault::TooLong { bytes });
    }
    match str::from_utf8(source) {
        Ok(text) => Ok(text),
        Err(e) => {
            let at = e.valid_up_to() as u32;
            Err(SourceFault::NotUtf8 { at })
        }
    }
}

/// The tokens of a text.
fn tokens_of(alloc: Global, text: &str) -> Result<Vec<Token>, SourceFault>
    requires { IsText text.now }
    ensures cut { IfOk result (λ tokens. HasTokens text.now tokens.items) }
    ensures refused { IfErr result (λ fault. fault ≢ Memory → IsRefused text.now fault) }
{
    match cash_lexer::tokens(alloc, text) {
        Ok(tokens) => Ok(tokens),
        Err(LexFault::Memory) => Err(SourceFault::Memory),
        Err(fault) => Err(SourceFault::Lex(fault)),
    }
}

/// The tree of a text.
fn tree_of(alloc: Global, text: &str) -> Result<Tree, SourceFault>
    requires { IsText text.now }
    ensures parsed { IfOk result (λ tree. HasTree text.now tree) }
    ensures refused { IfErr result (λ fault. fault ≢ Memory → IsRefused text.now fault) }
{
    let tokens = tokens_of(alloc, text)?;
    match parse(alloc, text, &tokens) {
        Ok(tree) => Ok(tree),
        Err(ParseFault::Memory) => Err(SourceFault::Memory),
        Err(fault) => Err(SourceFault::Parse(fault)),
    }
}

/// The named tree of a source.
fn named_tree_of(alloc: Global, source: &[u8]) -> Result<NamedTree, SourceFault>
    requires { length source.now < 2 ^ 32 }
    ensures named { IfOk result (λ named. HasNames source.now named) }
    ensures refused { IfErr result (λ fault. fault ≢ Memory → IsRefused source.now fault) }
{
    let text = text_of(source)?;
    let tree = tree_of(alloc, text)?;
    match resolve(alloc, text, &tree) {
        Ok(named) => Ok(named),
        Err(NameFault::Memory) => Err(SourceFault::Memory),
        Err(fault) => Err(SourceFault::Name(fault)),
    }
}

/// The contract of a source, with the type of each expression.
///
/// # Errors
///
/// The fault of the first stage that gives nothing: `TooLong`, `NotUtf8`, `Lex`, `Parse`, `Name` and `Typing`, each exactly
/// where its cause stands in the source, or `Memory`, where memory ran out.
///
/// Source: the CashScript documentation, language and types; the limit on the length and the order of the stages are this
/// project's own.
pub fn typed_contract_of(alloc: Global, source: &[u8]) -> Result<TypedContract, SourceFault>
    requires { length source.now < 2 ^ 32 }
    ensures accepted { IfOk result (λ contract. IsAccepted source.now contract) }
    ensures refused { IfErr result (λ fault. fault ≢ Memory → IsRefused source.now fault) }
{
    let named = named_tree_of(alloc, source)?;
    match check(alloc, &named) {
        Ok(contract) => Ok(contract),
        Err(TypeFault::Memory) => Err(SourceFault::Memory),
        Err(fault) => Err(SourceFault::Typing(fault)),
    }
}
