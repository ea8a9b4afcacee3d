//! Constraints on the language's version.

ghost use Rattle.std.specs.Prelude.{◌≡◌, IfOk, IfErr, map};
ghost use Rattle.name_scopes.specs.declared.fault.NameFault.TheVariants.{Memory};
ghost use Rattle.semver.specs.Parse.{req_of};
ghost use Rattle.name_scopes.specs.Pragmas;
ghost use Rattle.name_scopes.specs.Wants.{Gives, first_refused, granted, is_admitted, refusal};

use crate::fault::NameFault;
use cash_base::{Span, text_at};
use cash_tree::Constraint;
use semver::{Version, VersionReq};
use std::alloc::{AllocError, Global};

/// Whether a text is a requirement that the language's version, 0.7.0, meets.
fn is_met(alloc: Global, text: &str) -> Result<bool, NameFault>
    ensures ok { IfOk result (λ met. met ≡ Pragmas.is_met (req_of text.now)) }
    ensures memory { IfErr result (λ fault. fault ≡ Memory) }
{
    match VersionReq::parse(alloc, text) {
        Ok(requirement) => Ok(requirement.matches(&Version::new(0, 7, 0))),
        Err(error) => {
            if error == semver::Error::from(AllocError) {
                return Err(NameFault::Memory);
            }
            Ok(false)
        }
    }
}

/// The same of bytes, which may be no text.
#[tactic(auto, unfolding(crate::specs::Pragmas::admits))]
fn admits(alloc: Global, text: &[u8]) -> Result<bool, NameFault>
    ensures ok { IfOk result (λ admitted. admitted ≡ Pragmas.admits text.now) }
    ensures memory { IfErr result (λ fault. fault ≡ Memory) }
{
    match str::from_utf8(text) {
        Ok(text) => is_met(alloc, text),
        Err(_) => Ok(false),
    }
}

/// The text of a constraint's sign, or `=` where there is none.
fn sign_text(source: &[u8], sign: Option<Span>) -> &[u8]
    ensures { result.now ≡ Pragmas.sign_text source.now sign }
{
    match sign {
        Some(span) => text_at(source, span),
        None => b"=",
    }
}

/// That a constraint admits the language's version.
fn admitted(alloc: Global, source: &[u8], constraint: &Constraint) -> Result<(), NameFault>
    ensures { Gives (λ x. x) result (granted (refusal source.now (is_admitted constraint.now)) tt) }
{
    let mut text = Vec::from_slice(alloc, sign_text(source, constraint.sign))?;
    text.extend_from_slice(text_at(source, constraint.version))?;
    if admits(alloc, text.as_slice())? {
        return Ok(());
    }
    let span = constraint.span;
    Err(NameFault::PragmaRefused { span })
}

/// That each constraint admits the language's version.
pub fn all_admitted(
    alloc: Global,
    source: &[u8],
    constraints: &[Constraint],
) -> Result<(), NameFault>
    ensures { Gives (λ x. x) result (granted (first_refused source.now (map is_admitted constraints.now)) tt) }
{
    for constraint in constraints {
        admitted(alloc, source, constraint)?;
    }
    Ok(())
}
