//! Resolves the names in expressions.
#![tactic(auto, using(crate::proofs::Arms::at_node, crate::proofs::Arms::at_int, crate::proofs::Arms::at_bool, crate::proofs::Arms::at_hex, crate::proofs::Arms::at_text, crate::proofs::Arms::at_date, crate::proofs::Arms::at_name, crate::proofs::Arms::at_unary, crate::proofs::Arms::at_binary, crate::proofs::Arms::at_length, crate::proofs::Arms::at_reverse, crate::proofs::Arms::at_split, crate::proofs::Arms::at_index, crate::proofs::Arms::at_cast, crate::proofs::Arms::at_call, crate::proofs::Arms::at_new, crate::proofs::Arms::at_array, crate::proofs::Arms::at_look0, crate::proofs::Arms::at_look_at))]

ghost use Rattle.std.specs.Prelude.{◌≡◌, [], map};
ghost use Rattle.name_scopes.specs.Names.{names_of};
ghost use Rattle.name_scopes.specs.Wants.{Gives};
ghost use Rattle.cash_names.specs.Reading.{reading_of, reading_of_kind, callee_reading, each_from};

use cash_base::{Slot, Span};
use cash_tree::{Callee, Expr, ExprKind};
use name_scopes::{NameFault, Scope, known};
use sqlite_items::{Boxed, Items};
use std::alloc::Global;

/// The expression with slots for names.
#[cycle(expression)]
pub fn resolve_expr(
    alloc: Global,
    source: &[u8],
    scope: &Scope,
    e: &Expr<Span, ()>,
) -> Result<Expr<Slot, ()>, NameFault>
    ensures { Gives (λ x. x) result (reading_of source.now e.now (names_of scope.now)) }
{
    let kind = resolve_kind(alloc, source, scope, &e.kind)?;
    let span = e.span;
    Ok(Expr { kind, ty: (), span })
}

#[cycle(expression)]
fn boxed(
    alloc: Global,
    source: &[u8],
    scope: &Scope,
    e: &Expr<Span, ()>,
) -> Result<Boxed<Expr<Slot, ()>>, NameFault>
    ensures { Gives (λ x. x) result (reading_of source.now e.now (names_of scope.now)) }
{
    let e = resolve_expr(alloc, source, scope, e)?;
    Ok(Boxed::new(alloc, e)?)
}

#[cycle(expression)]
fn each(
    alloc: Global,
    source: &[u8],
    scope: &Scope,
    es: &[Expr<Span, ()>],
) -> Result<Items<Expr<Slot, ()>>, NameFault>
    ensures { Gives (λ x. x) result (each_from [] (map (reading_of source.now) es.now) (names_of scope.now)) }
{
    let mut items = Items::new(alloc);
    for e in es {
        items.push(resolve_expr(alloc, source, scope, e)?)?;
    }
    Ok(items)
}

/// That what is called is known.
fn callable(callee: Callee) -> Result<(), NameFault>
    ensures { Gives (λ x. x) result (callee_reading callee) }
{
    match callee {
        Callee::Known(_) => Ok(()),
        Callee::Unknown(span) => Err(NameFault::UnknownName { span }),
    }
}

#[cycle(expression)]
fn resolve_kind(
    alloc: Global,
    source: &[u8],
    scope: &Scope,
    kind: &ExprKind<Span, ()>,
) -> Result<ExprKind<Slot, ()>, NameFault>
    ensures { Gives (λ x. x) result (reading_of_kind source.now kind.now (names_of scope.now)) }
{
    match kind {
        ExprKind::Int { digits, unit } => Ok(ExprKind::Int {
            digits: *digits,
            unit: *unit,
        }),
        ExprKind::Bool(b) => Ok(ExprKind::Bool(*b)),
        ExprKind::Hex(bytes) => Ok(ExprKind::Hex(Items::from_slice(alloc, bytes.as_slice())?)),
        ExprKind::Text(bytes) => Ok(ExprKind::Text(Items::from_slice(alloc, bytes.as_slice())?)),
        ExprKind::Date(seconds) => Ok(ExprKind::Date(*seconds)),
        ExprKind::Name(span) => Ok(ExprKind::Name(known(source, scope, *span)?)),
        ExprKind::Unary(op, value) => {
            let value = boxed(alloc, source, scope, value.get())?;
            Ok(ExprKind::Unary(*op, value))
        }
        ExprKind::Binary(op, left, right) => {
            let left = boxed(alloc, source, scope, left.get())?;
            let right = boxed(alloc, source, scope, right.get())?;
            Ok(ExprKind::Binary(*op, left, right))
        }
        ExprKind::Length(value) => {
            let value = boxed(alloc, source, scope, value.get())?;
            Ok(ExprKind::Length(value))
        }
        ExprKind::Reverse(value) => {
            let value = boxed(alloc, source, scope, value.get())?;
            Ok(ExprKind::Reverse(value))
        }
        ExprKind::Split(value, at) => {
            let value = boxed(alloc, source, scope, value.get())?;
            let at = boxed(alloc, source, scope, at.get())?;
            Ok(ExprKind::Split(value, at))
        }
        ExprKind::Index(pair, number) => {
            let pair = boxed(alloc, source, scope, pair.get())?;
            Ok(ExprKind::Index(pair, *number))
        }
        ExprKind::Cast { to, value, size } => {
            let to = to.copy(alloc)?;
            let value = boxed(alloc, source, scope, value.get())?;
            let Some(size) = size else {
                return Ok(ExprKind::Cast {
                    to,
                    value,
                    size: None,
                });
            };
            let size = Some(boxed(alloc, source, scope, size.get())?);
            Ok(ExprKind::Cast { to, value, size })
        }
        ExprKind::Call { callee, args } => {
            callable(*callee)?;
            let args = each(alloc, source, scope, args.as_slice())?;
            let callee = *callee;
            Ok(ExprKind::Call { callee, args })
        }
        ExprKind::New { callee, args } => {
            callable(*callee)?;
            let args = each(alloc, source, scope, args.as_slice())?;
            let callee = *callee;
            Ok(ExprKind::New { callee, args })
        }
        ExprKind::Array(items) => {
            let items = each(alloc, source, scope, items.as_slice())?;
            Ok(ExprKind::Array(items))
        }
        ExprKind::Look0(look) => Ok(ExprKind::Look0(*look)),
        ExprKind::LookAt(look, index) => {
            let index = boxed(alloc, source, scope, index.get())?;
            Ok(ExprKind::LookAt(*look, index))
        }
    }
}
