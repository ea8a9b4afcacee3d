//! Gives the expressions of statements their types, in the order of the text.

#![tactic(auto, using(crate::proofs::Unfolds::if_only_unfolds, crate::proofs::Unfolds::if_else_unfolds))]

ghost use Rattle.std.specs.Prelude.{◌≡◌, [], map};
ghost use Rattle.type_tables.specs.Tables.{answer};
ghost use Rattle.type_tables.specs.Places.{Gives};
ghost use Rattle.type_check.specs.Ends as endings;
ghost use Rattle.type_check.specs.Shapes.{with_name, with_params, with_pair};
ghost use Rattle.type_check.specs.Reading.{reading_of_stmt, reading_of_stmt_kind, run_from};

use crate::expressions::check_expr;
use cash_base::{Slot, Span};
use cash_tree::{Param, Stmt, StmtKind, Ty};
use sqlite_items::Items;
use std::alloc::Global;
use type_tables::calls::type_at;
use type_tables::fault::TypeFault;
use type_tables::rules::Binding;
use type_tables::tables::{pair_suits, suits};

/// A statement whose names are slots, without types.
pub type NamedStmt = Stmt<Slot, ()>;

/// A statement whose names are slots, with the types of its expressions.
pub type TypedStmt = Stmt<Slot, Ty>;

// ---- names

fn bind(alloc: Global, env: &mut Vec<Binding>, slot: Slot, ty: &Ty) -> Result<(), TypeFault>
    ensures { Gives (λ x. env.new.items) result (answer (with_name slot ty.now env.old.items)) }
{
    let ty = ty.copy(alloc)?;
    env.push(Binding { slot, ty })?;
    Ok(())
}

/// Notes the types of parameters.
pub fn bind_all(
    alloc: Global,
    env: &mut Vec<Binding>,
    params: &[Param<Slot>],
) -> Result<(), TypeFault>
    ensures { Gives (λ x. env.new.items) result (answer (with_params params.now env.old.items)) }
{
    for param in params {
        bind(alloc, env, param.name, &param.ty)?;
    }
    Ok(())
}

fn bind_pair(
    alloc: Global,
    env: &mut Vec<Binding>,
    left: &Param<Slot>,
    right: &Param<Slot>,
) -> Result<(), TypeFault>
    ensures { Gives (λ x. env.new.items) result (answer (with_pair left.now right.now env.old.items)) }
{
    bind(alloc, env, left.name, &left.ty)?;
    bind(alloc, env, right.name, &right.ty)?;
    Ok(())
}

// ---- statements

/// Checks a statement, and notes the types of what it defines.
#[cycle(statements)]
fn check_stmt(alloc: Global, env: &mut Vec<Binding>, s: &NamedStmt) -> Result<TypedStmt, TypeFault>
    ensures { Gives (λ x. (x, env.new.items)) result (reading_of_stmt s.now env.old.items) }
{
    let span = s.span;
    let kind = check_kind(alloc, env, span, &s.kind)?;
    Ok(Stmt { kind, span })
}

/// Checks statements in order.
#[cycle(statements)]
pub fn check_all(
    alloc: Global,
    env: &mut Vec<Binding>,
    statements: &[NamedStmt],
) -> Result<Items<TypedStmt>, TypeFault>
    ensures { Gives (λ x. (x, env.new.items)) result (run_from [] (map reading_of_stmt statements.now) env.old.items) }
{
    let mut checked = Items::new(alloc);
    for s in statements {
        checked.push(check_stmt(alloc, env, s)?)?;
    }
    Ok(checked)
}

#[cycle(statements)]
fn check_kind(
    alloc: Global,
    env: &mut Vec<Binding>,
    span: Span,
    kind: &StmtKind<Slot, ()>,
) -> Result<StmtKind<Slot, Ty>, TypeFault>
    ensures { Gives (λ x. (x, env.new.items)) result (reading_of_stmt_kind kind.now span env.old.items) }
{
    match kind {
        StmtKind::Define {
            ty,
            constant,
            name,
            place,
            value,
        } => {
            let value = check_expr(alloc, env.as_slice(), None, value)?;
            suits(alloc, span, ty.copy(alloc)?, &value.ty)?;
            bind(alloc, env, *name, ty)?;
            Ok(StmtKind::Define {
                ty: ty.copy(alloc)?,
                constant: *constant,
                name: *name,
                place: *place,
                value,
            })
        }
        StmtKind::Pair { left, right, value } => {
            let value = check_expr(alloc, env.as_slice(), None, value)?;
            pair_suits(alloc, span, &left.ty, &right.ty, &value.ty)?;
            bind_pair(alloc, env, left, right)?;
            Ok(StmtKind::Pair {
                left: left.copy(alloc)?,
                right: right.copy(alloc)?,
                value,
            })
        }
        StmtKind::Assign { name, value } => {
            let value = check_expr(alloc, env.as_slice(), None, value)?;
            let wanted = type_at(alloc, *name, env.as_slice())?;
            suits(alloc, span, wanted, &value.ty)?;
            Ok(StmtKind::Assign { name: *name, value })
        }
        StmtKind::Time { value } => {
            let value = check_expr(alloc, env.as_slice(), None, value)?;
            suits(alloc, span, Ty::Int, &value.ty)?;
            Ok(StmtKind::Time { value })
        }
        StmtKind::Age { value } => {
            let value = check_expr(alloc, env.as_slice(), None, value)?;
            suits(alloc, span, Ty::Int, &value.ty)?;
            Ok(StmtKind::Age { value })
        }
        StmtKind::Require { value } => {
            let value = check_expr(alloc, env.as_slice(), None, value)?;
            suits(alloc, span, Ty::Bool, &value.ty)?;
            Ok(StmtKind::Require { value })
        }
        StmtKind::If { test, yes, no } => {
            let test = check_expr(alloc, env.as_slice(), None, test)?;
            let yes = check_all(alloc, env, yes.as_slice())?;
            let Some(no) = no else {
                suits(alloc, span, Ty::Bool, &test.ty)?;
                let no = None;
                return Ok(StmtKind::If { test, yes, no });
            };
            let no = check_all(alloc, env, no.as_slice())?;
            suits(alloc, span, Ty::Bool, &test.ty)?;
            let no = Some(no);
            Ok(StmtKind::If { test, yes, no })
        }
    }
}

// ---- how a body ends

#[cycle(ends)]
fn may_end(s: &NamedStmt) -> bool
    ensures { result ≡ endings.may_end s.now }
{
    match &s.kind {
        StmtKind::Time { value: _ } => true,
        StmtKind::Age { value: _ } => true,
        StmtKind::Require { value: _ } => true,
        StmtKind::If { test: _, yes, no } => {
            if !ends_rightly(yes.as_slice()) {
                return false;
            }
            match no {
                Some(no) => ends_rightly(no.as_slice()),
                None => true,
            }
        }
        _ => false,
    }
}

/// Whether the last statement is a `require`, or an `if` whose blocks end so.
#[cycle(ends)]
pub fn ends_rightly(body: &[NamedStmt]) -> bool
    ensures { result ≡ endings.ends_rightly body.now }
{
    let mut ends = false;
    for s in body {
        ends = may_end(s);
    }
    ends
}
