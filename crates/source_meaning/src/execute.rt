//! What statements do, from the first on.

ghost use Rattle.std.specs.Prelude.{◌≡◌, ◌≤◌, map, IsTrue, IfOk, IfErr, OnOk, Ok, Err, Some, []};
ghost use Rattle.cash_tree.specs.declared.StmtKind.TheVariants as stmts;
ghost use Rattle.meaning_room.specs.Meaning.{block, element, env_after, env_after_all, kind_leaves, value_of};
ghost use Rattle.meaning_room.specs.Names.{env_of};
ghost use Rattle.source_meaning.specs.Runnable.{all_of, has_room, kind_has_room, node_count};
ghost use Rattle.meaning_room.specs.Stack.{tested};

use crate::evaluate::{given, one};
use cash_base::{Cause, Slot, Span};
use cash_tree::{Expr, Param, Stmt, StmtKind, Ty};
use meaning_room::{Failure, Names, Operands, World};
use sqlite_items::Items;

/// A law: the test and the first block of an `if` with places have places.
fn parts_have_room(
    s: &Stmt<Slot, Ty>,
    test: &Expr<Slot, Ty>,
    yes: &Items<Stmt<Slot, Ty>>,
    no: &Option<Items<Stmt<Slot, Ty>>>,
)
    requires kind { s.now.kind ≡ stmts.If test.now yes.now no.now }
    requires room { IsTrue (kind_has_room s.now.kind) }
    ensures test { node_count test.now ≤ 1000 }
    ensures block { IsTrue (all_of (map has_room yes.now)) }
{}

/// A law: so has the other block.
fn other_has_room(
    s: &Stmt<Slot, Ty>,
    test: &Expr<Slot, Ty>,
    yes: &Items<Stmt<Slot, Ty>>,
    no: &Option<Items<Stmt<Slot, Ty>>>,
    other: &Items<Stmt<Slot, Ty>>,
)
    requires kind { s.now.kind ≡ stmts.If test.now yes.now no.now }
    requires other { no.now ≡ Some other.now }
    requires room { IsTrue (kind_has_room s.now.kind) }
    ensures { IsTrue (all_of (map has_room other.now)) }
{}

/// Does a statement: it gives names their elements, or fails.
///
/// It calls itself as deep as blocks nest, so most forms have a function of their own.
#[tactic(auto, using(crate::proofs::StmtSteps::whole_left, crate::proofs::StmtSteps::whole_has_room))]
#[cycle(statement)]
pub fn execute(
    operands: &mut Operands,
    s: &Stmt<Slot, Ty>,
    names: &mut Names,
    world: &World<'_>,
) -> Result<(), Failure>
    requires room { IsTrue (has_room s.now) }
    ensures ok { OnOk result (env_after world.now s.now (env_of names.old) ≡ Ok (env_of names.new)) }
    ensures err { IfErr result (λ failure. env_after world.now s.now (env_of names.old) ≡ Err failure) }
{
    operands.clear();
    on_kind(operands, s, names, world)?;
    Ok(())
}

#[cycle(statement)]
fn on_kind(
    operands: &mut Operands,
    s: &Stmt<Slot, Ty>,
    names: &mut Names,
    world: &World<'_>,
) -> Result<(), Failure>
    requires empty { operands.old ≡ [] }
    requires room { IsTrue (kind_has_room s.now.kind) }
    ensures ok { OnOk result (kind_leaves world.now s.now.kind s.now.span (env_of names.old) ≡ Ok (env_of names.new)) }
    ensures err { IfErr result (λ failure. kind_leaves world.now s.now.kind s.now.span (env_of names.old) ≡ Err failure) }
{
    match &s.kind {
        StmtKind::Define {
            ty,
            constant,
            name,
            place,
            value,
        } => on_define(
            operands, s, ty, *constant, *name, *place, value, names, world,
        ),
        StmtKind::Pair { left, right, value } => on_pair(
            operands, s, left, right, value, names, world,
        ),
        StmtKind::Assign { name, value } => on_assign(operands, s, *name, value, names, world),
        StmtKind::Time { value } => on_time(operands, s, value, names, world),
        StmtKind::Age { value } => on_age(operands, s, value, names, world),
        StmtKind::Require { value } => on_require(operands, s, value, names, world),
        StmtKind::If { test, yes, no } => {
            parts_have_room(s, test, yes, no);
            if is_met(operands, test, names, world)? {
                run_block(operands, yes.as_slice(), names, world)?;
                return Ok(());
            }
            match no {
                None => Ok(()),
                Some(other) => {
                    other_has_room(s, test, yes, no, other);
                    run_block(operands, other.as_slice(), names, world)?;
                    Ok(())
                }
            }
        }
    }
}

/// A definition.
#[tactic(auto, using(crate::proofs::StmtSteps::define_leaves, crate::proofs::StmtSteps::define_has_room))]
#[inline(never)]
fn on_define(
    operands: &mut Operands,
    s: &Stmt<Slot, Ty>,
    ty: &Ty,
    constant: bool,
    name: Slot,
    place: Span,
    initial: &Expr<Slot, Ty>,
    names: &mut Names,
    world: &World<'_>,
) -> Result<(), Failure>
    requires empty { operands.old ≡ [] }
    requires kind { s.now.kind ≡ stmts.Define ty.now constant name place initial.now }
    requires room { IsTrue (kind_has_room s.now.kind) }
    ensures ok { OnOk result (kind_leaves world.now s.now.kind s.now.span (env_of names.old) ≡ Ok (env_of names.new)) }
    ensures err { IfErr result (λ failure. kind_leaves world.now s.now.kind s.now.span (env_of names.old) ≡ Err failure) }
{
    one(operands, initial, names, world)?;
    operands.give(names, name);
    Ok(())
}

/// A definition of two names, by both parts of a split.
#[tactic(auto, using(crate::proofs::StmtSteps::pair_leaves, crate::proofs::StmtSteps::pair_has_room))]
#[inline(never)]
fn on_pair(
    operands: &mut Operands,
    s: &Stmt<Slot, Ty>,
    left: &Param<Slot>,
    right: &Param<Slot>,
    value: &Expr<Slot, Ty>,
    names: &mut Names,
    world: &World<'_>,
) -> Result<(), Failure>
    requires empty { operands.old ≡ [] }
    requires kind { s.now.kind ≡ stmts.Pair left.now right.now value.now }
    requires room { IsTrue (kind_has_room s.now.kind) }
    ensures ok { OnOk result (kind_leaves world.now s.now.kind s.now.span (env_of names.old) ≡ Ok (env_of names.new)) }
    ensures err { IfErr result (λ failure. kind_leaves world.now s.now.kind s.now.span (env_of names.old) ≡ Err failure) }
{
    let width = given(operands, value, names, world)?;
    operands.give_both(width, names, left.name, right.name);
    Ok(())
}

/// An assignment.
#[tactic(auto, using(crate::proofs::StmtSteps::assign_leaves, crate::proofs::StmtSteps::assign_has_room))]
#[inline(never)]
fn on_assign(
    operands: &mut Operands,
    s: &Stmt<Slot, Ty>,
    target: Slot,
    value: &Expr<Slot, Ty>,
    names: &mut Names,
    world: &World<'_>,
) -> Result<(), Failure>
    requires empty { operands.old ≡ [] }
    requires kind { s.now.kind ≡ stmts.Assign target value.now }
    requires room { IsTrue (kind_has_room s.now.kind) }
    ensures ok { OnOk result (kind_leaves world.now s.now.kind s.now.span (env_of names.old) ≡ Ok (env_of names.new)) }
    ensures err { IfErr result (λ failure. kind_leaves world.now s.now.kind s.now.span (env_of names.old) ≡ Err failure) }
{
    one(operands, value, names, world)?;
    operands.give(names, target);
    Ok(())
}

/// `require(tx.time >= value)`
#[tactic(auto, using(crate::proofs::StmtSteps::time_leaves, crate::proofs::StmtSteps::time_has_room))]
#[inline(never)]
fn on_time(
    operands: &mut Operands,
    s: &Stmt<Slot, Ty>,
    value: &Expr<Slot, Ty>,
    names: &mut Names,
    world: &World<'_>,
) -> Result<(), Failure>
    requires empty { operands.old ≡ [] }
    requires kind { s.now.kind ≡ stmts.Time value.now }
    requires room { IsTrue (kind_has_room s.now.kind) }
    ensures ok { OnOk result (kind_leaves world.now s.now.kind s.now.span (env_of names.old) ≡ Ok (env_of names.new)) }
    ensures err { IfErr result (λ failure. kind_leaves world.now s.now.kind s.now.span (env_of names.old) ≡ Err failure) }
{
    one(operands, value, names, world)?;
    operands.time(world, s.span)?;
    Ok(())
}

/// `require(this.age >= value)`
#[tactic(auto, using(crate::proofs::StmtSteps::age_leaves, crate::proofs::StmtSteps::age_has_room))]
#[inline(never)]
fn on_age(
    operands: &mut Operands,
    s: &Stmt<Slot, Ty>,
    value: &Expr<Slot, Ty>,
    names: &mut Names,
    world: &World<'_>,
) -> Result<(), Failure>
    requires empty { operands.old ≡ [] }
    requires kind { s.now.kind ≡ stmts.Age value.now }
    requires room { IsTrue (kind_has_room s.now.kind) }
    ensures ok { OnOk result (kind_leaves world.now s.now.kind s.now.span (env_of names.old) ≡ Ok (env_of names.new)) }
    ensures err { IfErr result (λ failure. kind_leaves world.now s.now.kind s.now.span (env_of names.old) ≡ Err failure) }
{
    one(operands, value, names, world)?;
    operands.age(world, s.span)?;
    Ok(())
}

/// `require(value)`
#[tactic(auto, using(crate::proofs::StmtSteps::require_leaves, crate::proofs::StmtSteps::require_has_room))]
#[inline(never)]
fn on_require(
    operands: &mut Operands,
    s: &Stmt<Slot, Ty>,
    value: &Expr<Slot, Ty>,
    names: &mut Names,
    world: &World<'_>,
) -> Result<(), Failure>
    requires empty { operands.old ≡ [] }
    requires kind { s.now.kind ≡ stmts.Require value.now }
    requires room { IsTrue (kind_has_room s.now.kind) }
    ensures ok { OnOk result (kind_leaves world.now s.now.kind s.now.span (env_of names.old) ≡ Ok (env_of names.new)) }
    ensures err { IfErr result (λ failure. kind_leaves world.now s.now.kind s.now.span (env_of names.old) ≡ Err failure) }
{
    one(operands, value, names, world)?;
    if !operands.truth() {
        let cause = Cause::CheckFailed;
        let span = s.span;
        return Err(Failure { span, cause });
    }
    Ok(())
}

/// Whether the test of an `if` is true.
#[inline(never)]
fn is_met(
    operands: &mut Operands,
    test: &Expr<Slot, Ty>,
    names: &Names,
    world: &World<'_>,
) -> Result<bool, Failure>
    requires empty { operands.old ≡ [] }
    requires places { node_count test.now ≤ 1000 }
    ensures value { IfOk result (λ is. tested (element (value_of world.now (env_of names.now) test.now)) ≡ Ok is) }
    ensures err { IfErr result (λ failure. tested (element (value_of world.now (env_of names.now) test.now)) ≡ Err failure) }
{
    one(operands, test, names, world)?;
    Ok(operands.truth())
}

/// Does the statements of a block, whose names end with it.
#[cycle(statement)]
#[inline(never)]
fn run_block(
    operands: &mut Operands,
    body: &[Stmt<Slot, Ty>],
    names: &mut Names,
    world: &World<'_>,
) -> Result<(), Failure>
    requires room { IsTrue (all_of (map has_room body.now)) }
    ensures ok { OnOk result (block (map (env_after world.now) body.now) (env_of names.old) ≡ Ok (env_of names.new)) }
    ensures err { IfErr result (λ failure. block (map (env_after world.now) body.now) (env_of names.old) ≡ Err failure) }
{
    let mark = names.mark();
    execute_all(operands, body, names, world)?;
    names.cut(&mark);
    Ok(())
}

/// Does statements in turn, up to the first that fails.
#[cycle(statement)]
pub fn execute_all(
    operands: &mut Operands,
    body: &[Stmt<Slot, Ty>],
    names: &mut Names,
    world: &World<'_>,
) -> Result<(), Failure>
    requires room { IsTrue (all_of (map has_room body.now)) }
    ensures ok { OnOk result (env_after_all world.now body.now (env_of names.old) ≡ Ok (env_of names.new)) }
    ensures err { IfErr result (λ failure. env_after_all world.now body.now (env_of names.old) ≡ Err failure) }
{
    for statement in body {
        execute(operands, statement, names, world)?;
    }
    Ok(())
}
