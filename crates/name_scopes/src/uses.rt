//! Names at their places: read, assigned or declared.

ghost use Rattle.std.specs.Prelude.{◌≡◌};
ghost use Rattle.name_scopes.specs.Names;
ghost use Rattle.name_scopes.specs.Names.{names_of, with_variable};
ghost use Rattle.name_scopes.specs.Wants.{Gives, granted, refusal, is_known, is_variable, is_new};
ghost use Rattle.name_scopes.specs.Uses.{check, check_two, introduction};

use crate::fault::NameFault;
use crate::scope::Scope;
use cash_base::{Slot, Span, text_at};

/// The slot of a name that is read.
pub fn known(source: &[u8], scope: &Scope, span: Span) -> Result<Slot, NameFault>
    ensures { Gives (λ x. x) result (granted (refusal source.now (is_known (names_of scope.now) span)) (Names.slot_at source.now (names_of scope.now) span)) }
{
    match scope.find(text_at(source, span)) {
        Some(variable) => Ok(variable.slot),
        None => Err(NameFault::UnknownName { span }),
    }
}

/// The slot of a name that is assigned.
pub fn variable(source: &[u8], scope: &Scope, span: Span) -> Result<Slot, NameFault>
    ensures { Gives (λ x. x) result (granted (refusal source.now (is_variable (names_of scope.now) span)) (Names.slot_at source.now (names_of scope.now) span)) }
{
    match scope.find(text_at(source, span)) {
        Some(variable) => {
            if variable.constant {
                return Err(NameFault::AssignToConstant { span });
            }
            Ok(variable.slot)
        }
        None => Err(NameFault::UnknownName { span }),
    }
}

/// That a name may be declared.
pub fn fresh(source: &[u8], scope: &Scope, span: Span) -> Result<(), NameFault>
    ensures { Gives (λ x. x) result (check source.now (is_new (names_of scope.now) span)) }
{
    if scope.find(text_at(source, span)).is_some() {
        return Err(NameFault::Redeclared { span });
    }
    if !scope.has_room() {
        return Err(NameFault::TooManyNames { span });
    }
    Ok(())
}

/// That a name may be declared after another that may be.
#[tactic(auto, using(crate::proofs::Scoping::find_last))]
fn fresh_after(source: &[u8], scope: &Scope, left: Span, right: Span) -> Result<(), NameFault>
    ensures { Gives (λ x. x) result (check source.now (is_new (with_variable source.now left (names_of scope.now)) right)) }
{
    let text = text_at(source, right);
    if scope.find(text).is_some() {
        return Err(NameFault::Redeclared { span: right });
    }
    if text == text_at(source, left) {
        return Err(NameFault::Redeclared { span: right });
    }
    if !scope.has_room_for_two() {
        return Err(NameFault::TooManyNames { span: right });
    }
    Ok(())
}

/// That two names may be declared, one after the other.
pub fn fresh_pair(source: &[u8], scope: &Scope, left: Span, right: Span) -> Result<(), NameFault>
    ensures { Gives (λ x. x) result (check_two source.now left right (names_of scope.now)) }
{
    fresh(source, scope, left)?;
    fresh_after(source, scope, left, right)?;
    Ok(())
}

/// Declares a name that is no constant, and answers its slot.
pub fn introduced<'s>(
    source: &'s [u8],
    scope: &mut Scope<'s>,
    span: Span,
) -> Result<Slot, NameFault>
    ensures { Gives (λ slot. (slot, names_of scope.new)) result (introduction source.now span (names_of scope.old)) }
{
    fresh(source, scope, span)?;
    scope.declare(text_at(source, span), false)
}
