//! Resolves statements, and brings the names that they define into scope.

ghost use Rattle.std.specs.Prelude.{◌≡◌, [], map, take, length, OnOk};
ghost use Rattle.name_scopes.specs.Names.{names_of};
ghost use Rattle.name_scopes.specs.Wants.{Gives};
ghost use Rattle.cash_names.specs.Outline.{slotted};
ghost use Rattle.cash_names.specs.Reading.{reading_of_stmt, reading_of_stmt_kind, block_reading, definition_reading, pair_reading, kind_of_definition, kind_of_pair, kind_of_assignment};

use crate::expressions::resolve_expr;
use cash_base::{Slot, Span, text_at};
use cash_tree::{Expr, Param, Stmt, StmtKind, Ty};
use name_scopes::{NameFault, Scope, fresh, fresh_pair, variable};
use sqlite_items::Items;
use std::alloc::Global;

/// The parameter with this slot.
pub fn with_slot(alloc: Global, param: &Param<Span>, slot: Slot) -> Result<Param<Slot>, NameFault>
    ensures { Gives (λ x. x) result (Ok (slotted param.now slot.0)) }
{
    let ty = param.ty.copy(alloc)?;
    let place = param.place;
    Ok(Param {
        ty,
        name: slot,
        place,
    })
}

/// Resolves the value of a definition, and then declares its name: the name's slot, and the value.
fn define<'s>(
    alloc: Global,
    source: &'s [u8],
    scope: &mut Scope<'s>,
    name: Span,
    constant: bool,
    value: &Expr<Span, ()>,
) -> Result<(Slot, Expr<Slot, ()>), NameFault>
    ensures gives { Gives (λ x. (x, names_of scope.new)) result (definition_reading source.now name constant value.now (names_of scope.old)) }
    ensures keeps { OnOk result (take (length (names_of scope.old).known) (names_of scope.new).known ≡ (names_of scope.old).known) }
{
    fresh(source, scope, name)?;
    let value = resolve_expr(alloc, source, scope, value)?;
    let slot = scope.declare(text_at(source, name), constant)?;
    Ok((slot, value))
}

/// Resolves the value of a definition of two names, and then declares them.
fn define_two<'s>(
    alloc: Global,
    source: &'s [u8],
    scope: &mut Scope<'s>,
    left: &Param<Span>,
    right: &Param<Span>,
    value: &Expr<Span, ()>,
) -> Result<(Param<Slot>, Param<Slot>, Expr<Slot, ()>), NameFault>
    ensures gives { Gives (λ x. (x, names_of scope.new)) result (pair_reading source.now left.now right.now value.now (names_of scope.old)) }
    ensures keeps { OnOk result (take (length (names_of scope.old).known) (names_of scope.new).known ≡ (names_of scope.old).known) }
{
    fresh_pair(source, scope, left.name, right.name)?;
    let value = resolve_expr(alloc, source, scope, value)?;
    let slot = scope.declare(text_at(source, left.name), false)?;
    let left = with_slot(alloc, left, slot)?;
    let slot = scope.declare(text_at(source, right.name), false)?;
    let right = with_slot(alloc, right, slot)?;
    Ok((left, right, value))
}

/// The definition of a name, which is in scope after it.
fn definition<'s>(
    alloc: Global,
    source: &'s [u8],
    scope: &mut Scope<'s>,
    ty: &Ty,
    constant: bool,
    name: Span,
    place: Span,
    value: &Expr<Span, ()>,
) -> Result<StmtKind<Slot, ()>, NameFault>
    ensures gives { Gives (λ x. (x, names_of scope.new)) result (kind_of_definition source.now ty.now constant name place value.now (names_of scope.old)) }
    ensures keeps { OnOk result (take (length (names_of scope.old).known) (names_of scope.new).known ≡ (names_of scope.old).known) }
{
    let (name, value) = define(alloc, source, scope, name, constant, value)?;
    let ty = ty.copy(alloc)?;
    Ok(StmtKind::Define {
        ty,
        constant,
        name,
        place,
        value,
    })
}

/// The definition of two names, which are in scope after it.
fn pair<'s>(
    alloc: Global,
    source: &'s [u8],
    scope: &mut Scope<'s>,
    left: &Param<Span>,
    right: &Param<Span>,
    value: &Expr<Span, ()>,
) -> Result<StmtKind<Slot, ()>, NameFault>
    ensures gives { Gives (λ x. (x, names_of scope.new)) result (kind_of_pair source.now left.now right.now value.now (names_of scope.old)) }
    ensures keeps { OnOk result (take (length (names_of scope.old).known) (names_of scope.new).known ≡ (names_of scope.old).known) }
{
    let (left, right, value) = define_two(alloc, source, scope, left, right, value)?;
    Ok(StmtKind::Pair { left, right, value })
}

/// The assignment of a value to a name.
fn assignment(
    alloc: Global,
    source: &[u8],
    scope: &Scope,
    name: Span,
    value: &Expr<Span, ()>,
) -> Result<StmtKind<Slot, ()>, NameFault>
    ensures { Gives (λ x. (x, names_of scope.now)) result (kind_of_assignment source.now name value.now (names_of scope.now)) }
{
    let name = variable(source, scope, name)?;
    let value = resolve_expr(alloc, source, scope, value)?;
    Ok(StmtKind::Assign { name, value })
}

/// Resolves a statement, and brings the names that it defines into scope.
#[cycle(statement)]
fn resolve_stmt<'s>(
    alloc: Global,
    source: &'s [u8],
    scope: &mut Scope<'s>,
    s: &Stmt<Span, ()>,
) -> Result<Stmt<Slot, ()>, NameFault>
    ensures gives { Gives (λ x. (x, names_of scope.new)) result (reading_of_stmt source.now s.now (names_of scope.old)) }
    ensures keeps { OnOk result (take (length (names_of scope.old).known) (names_of scope.new).known ≡ (names_of scope.old).known) }
{
    let kind = resolve_kind(alloc, source, scope, &s.kind)?;
    let span = s.span;
    Ok(Stmt { kind, span })
}

/// Resolves the statements of a block, whose names end with it.
#[cycle(statement)]
pub fn resolve_block<'s>(
    alloc: Global,
    source: &'s [u8],
    scope: &mut Scope<'s>,
    block: &[Stmt<Span, ()>],
) -> Result<Items<Stmt<Slot, ()>>, NameFault>
    ensures gives { Gives (λ x. (x, names_of scope.new)) result (block_reading (map (reading_of_stmt source.now) block.now) (names_of scope.old)) }
    ensures same { OnOk result ((names_of scope.new).known ≡ (names_of scope.old).known) }
{
    let outer = scope.len();
    let mut statements = Items::new(alloc);
    for s in block {
        statements.push(resolve_stmt(alloc, source, scope, s)?)?;
    }
    scope.end_block(outer);
    Ok(statements)
}

#[cycle(statement)]
fn resolve_kind<'s>(
    alloc: Global,
    source: &'s [u8],
    scope: &mut Scope<'s>,
    kind: &StmtKind<Span, ()>,
) -> Result<StmtKind<Slot, ()>, NameFault>
    ensures gives { Gives (λ x. (x, names_of scope.new)) result (reading_of_stmt_kind source.now kind.now (names_of scope.old)) }
    ensures keeps { OnOk result (take (length (names_of scope.old).known) (names_of scope.new).known ≡ (names_of scope.old).known) }
{
    match kind {
        StmtKind::Define {
            ty,
            constant,
            name,
            place,
            value,
        } => Ok(definition(alloc, source, scope, ty, *constant, *name, *place, value)?),
        StmtKind::Pair { left, right, value } => Ok(pair(
            alloc, source, scope, left, right, value,
        )?),
        StmtKind::Assign { name, value } => Ok(assignment(alloc, source, scope, *name, value)?),
        StmtKind::Time { value } => {
            let value = resolve_expr(alloc, source, scope, value)?;
            Ok(StmtKind::Time { value })
        }
        StmtKind::Age { value } => {
            let value = resolve_expr(alloc, source, scope, value)?;
            Ok(StmtKind::Age { value })
        }
        StmtKind::Require { value } => {
            let value = resolve_expr(alloc, source, scope, value)?;
            Ok(StmtKind::Require { value })
        }
        StmtKind::If { test, yes, no } => {
            let test = resolve_expr(alloc, source, scope, test)?;
            let yes = resolve_block(alloc, source, scope, yes.as_slice())?;
            let Some(no) = no else {
                return Ok(StmtKind::If {
                    test,
                    yes,
                    no: None,
                });
            };
            let no = Some(resolve_block(alloc, source, scope, no.as_slice())?);
            Ok(StmtKind::If { test, yes, no })
        }
    }
}
