//! From statements to slot code, in the order of the text.

ghost use Rattle.std.specs.Prelude.{◌≡◌, ◌<◌, ◌+◌, ◌==◌, ◌&&◌, ◌++◌, ◌∷◌, [], OnOk, IfOk, Some};
ghost use Rattle.cash_tree.specs.declared.StmtKind.TheVariants as stmts;
ghost use Rattle.slot_code.specs.declared.slots.SlotKind.TheVariants as kinds;
ghost use Rattle.slot_expressions.specs.declared.expressions.Width.TheVariants as widths;
ghost use Rattle.slot_expressions.specs.Pieces.{LowersGiven, instruction};
ghost use Rattle.slot_expressions.specs.Ready.{Ready};
ghost use Rattle.slot_lowering.specs.Scoped.{IsSplit, ReadyBody, ReadyStmt, ReadyStmtKind};
ghost use Rattle.slot_lowering.specs.Statements.{EndsNames, EndsStmt, LowersBlockAt, LowersBodyAt, LowersKindAt, LowersStmtAt, names_of};

use cash_base::{Memory, Slot, Span};
use cash_tree::{Expr, ExprKind, Param, Stmt, StmtKind, Ty};
use slot_code::{SlotInstr, SlotKind};
use slot_expressions::expressions::element;
use slot_expressions::rows;
use sqlite_items::Items;
use std::alloc::Global;

/// Adds the code of a statement, of which `ends_path` says that nothing stands behind it.
#[tactic(auto, using(crate::proofs::Placed::placed_stmt, crate::proofs::Values::whole_values))]
#[cycle(statement)]
fn statement(
    s: &Stmt<Slot, Ty>,
    ends_path: bool,
    alloc: Global,
    code: &mut Items<SlotInstr>,
) -> Result<(), Memory>
    requires { ReadyStmt s.now }
    ensures { OnOk result (LowersStmtAt ends_path code.old code.new s.now) }
{
    kind(s, ends_path, alloc, code)?;
    Ok(())
}

/// It calls itself as deep as blocks nest, so most forms have a function of their own.
#[tactic(auto, using(crate::proofs::Placed::placed_if_only, crate::proofs::Placed::placed_if_else, crate::proofs::Values::define_value, crate::proofs::Values::pair_split, crate::proofs::Values::pair_value, crate::proofs::Values::assign_value, crate::proofs::Values::time_value, crate::proofs::Values::age_value, crate::proofs::Values::require_value))]
#[cycle(statement)]
fn kind(
    s: &Stmt<Slot, Ty>,
    ends_path: bool,
    alloc: Global,
    code: &mut Items<SlotInstr>,
) -> Result<(), Memory>
    requires { ReadyStmtKind s.now.kind }
    ensures { OnOk result (LowersKindAt ends_path code.old code.new s.now.kind s.now.span) }
{
    match &s.kind {
        StmtKind::Define {
            ty,
            constant,
            name,
            place,
            value,
        } => on_define(s, ends_path, ty, *constant, *name, *place, value, code),
        StmtKind::Pair { left, right, value } => on_pair(s, ends_path, left, right, value, code),
        StmtKind::Assign { name, value } => on_assign(s, ends_path, *name, value, code),
        StmtKind::Time { value } => on_time(s, ends_path, value, code),
        StmtKind::Age { value } => on_age(s, ends_path, value, code),
        StmtKind::Require { value } => on_require(s, ends_path, value, code),
        StmtKind::If { test, yes, no } => {
            parts_are_ready(s, test, yes, no);
            element(test, code, s.span)?;
            let yes_code = block(yes.as_slice(), ends_path, alloc, s.span)?;
            match no {
                None => {
                    choice(code, yes_code, Items::new(alloc), s.span)?;
                    Ok(())
                }
                Some(other) => {
                    other_is_ready(s, test, yes, no, other);
                    let no_code = block(other.as_slice(), ends_path, alloc, s.span)?;
                    choice(code, yes_code, no_code, s.span)?;
                    Ok(())
                }
            }
        }
    }
}

/// A law: the test and the first block of an `if` with ready values have ready values.
fn parts_are_ready(
    s: &Stmt<Slot, Ty>,
    test: &Expr<Slot, Ty>,
    yes: &Items<Stmt<Slot, Ty>>,
    no: &Option<Items<Stmt<Slot, Ty>>>,
)
    requires kind { s.now.kind ≡ stmts.If test.now yes.now no.now }
    requires ready { ReadyStmtKind s.now.kind }
    ensures test { Ready test.now }
    ensures block { ReadyBody yes.now }
{}

/// A law: so has the other block.
fn other_is_ready(
    s: &Stmt<Slot, Ty>,
    test: &Expr<Slot, Ty>,
    yes: &Items<Stmt<Slot, Ty>>,
    no: &Option<Items<Stmt<Slot, Ty>>>,
    other: &Items<Stmt<Slot, Ty>>,
)
    requires kind { s.now.kind ≡ stmts.If test.now yes.now no.now }
    requires other { no.now ≡ Some other.now }
    requires ready { ReadyStmtKind s.now.kind }
    ensures { ReadyBody other.now }
{}

/// A definition.
#[tactic(auto, using(crate::proofs::Placed::placed_define))]
#[inline(never)]
fn on_define(
    s: &Stmt<Slot, Ty>,
    ends_path: bool,
    ty: &Ty,
    constant: bool,
    name: Slot,
    place: Span,
    value: &Expr<Slot, Ty>,
    code: &mut Items<SlotInstr>,
) -> Result<(), Memory>
    requires kind { s.now.kind ≡ stmts.Define ty.now constant name place value.now }
    requires ready { Ready value.now }
    ensures { OnOk result (LowersKindAt ends_path code.old code.new s.now.kind s.now.span) }
{
    element(value, code, s.span)?;
    rows::define(code, name, s.span, s.span)?;
    Ok(())
}

/// A definition of two names, by both parts of a split.
#[tactic(auto, using(crate::proofs::Placed::placed_pair))]
#[inline(never)]
fn on_pair(
    s: &Stmt<Slot, Ty>,
    ends_path: bool,
    left: &Param<Slot>,
    right: &Param<Slot>,
    value: &Expr<Slot, Ty>,
    code: &mut Items<SlotInstr>,
) -> Result<(), Memory>
    requires kind { s.now.kind ≡ stmts.Pair left.now right.now value.now }
    requires split { IsSplit value.now }
    requires ready { Ready value.now }
    ensures { OnOk result (LowersKindAt ends_path code.old code.new s.now.kind s.now.span) }
{
    both_parts(value, code, s.span)?;
    rows::define_pair(code, left.name, right.name, s.span, s.span)?;
    Ok(())
}

/// Adds the code of a split, which leaves both parts.
#[tactic(auto, using(crate::proofs::Values::never_other, crate::proofs::Values::split_left, crate::proofs::Values::split_right, crate::proofs::Values::lowers_parts))]
#[inline(never)]
fn both_parts(e: &Expr<Slot, Ty>, code: &mut Items<SlotInstr>, checking: Span) -> Result<(), Memory>
    requires split { IsSplit e.now }
    requires ready { Ready e.now }
    ensures { OnOk result (LowersGiven code.old code.new checking e.now widths.Two) }
{
    let ExprKind::Split(a, b) = &e.kind else {
        unreachable!()
    };
    element(a.get(), code, checking)?;
    element(b.get(), code, checking)?;
    rows::split(code, e.span, checking)?;
    Ok(())
}

/// An assignment.
#[tactic(auto, using(crate::proofs::Placed::placed_assign))]
#[inline(never)]
fn on_assign(
    s: &Stmt<Slot, Ty>,
    ends_path: bool,
    target: Slot,
    value: &Expr<Slot, Ty>,
    code: &mut Items<SlotInstr>,
) -> Result<(), Memory>
    requires kind { s.now.kind ≡ stmts.Assign target value.now }
    requires ready { Ready value.now }
    ensures { OnOk result (LowersKindAt ends_path code.old code.new s.now.kind s.now.span) }
{
    element(value, code, s.span)?;
    rows::assign(code, target, s.span, s.span)?;
    Ok(())
}

/// `require(tx.time >= value)`
#[tactic(auto, using(crate::proofs::Placed::placed_time))]
#[inline(never)]
fn on_time(
    s: &Stmt<Slot, Ty>,
    ends_path: bool,
    value: &Expr<Slot, Ty>,
    code: &mut Items<SlotInstr>,
) -> Result<(), Memory>
    requires kind { s.now.kind ≡ stmts.Time value.now }
    requires ready { Ready value.now }
    ensures { OnOk result (LowersKindAt ends_path code.old code.new s.now.kind s.now.span) }
{
    element(value, code, s.span)?;
    rows::time(code, s.span, s.span)?;
    Ok(())
}

/// `require(this.age >= value)`
#[tactic(auto, using(crate::proofs::Placed::placed_age))]
#[inline(never)]
fn on_age(
    s: &Stmt<Slot, Ty>,
    ends_path: bool,
    value: &Expr<Slot, Ty>,
    code: &mut Items<SlotInstr>,
) -> Result<(), Memory>
    requires kind { s.now.kind ≡ stmts.Age value.now }
    requires ready { Ready value.now }
    ensures { OnOk result (LowersKindAt ends_path code.old code.new s.now.kind s.now.span) }
{
    element(value, code, s.span)?;
    rows::age(code, s.span, s.span)?;
    Ok(())
}

/// `require(value)`
#[tactic(auto, using(crate::proofs::Placed::placed_require))]
#[inline(never)]
fn on_require(
    s: &Stmt<Slot, Ty>,
    ends_path: bool,
    value: &Expr<Slot, Ty>,
    code: &mut Items<SlotInstr>,
) -> Result<(), Memory>
    requires kind { s.now.kind ≡ stmts.Require value.now }
    requires ready { Ready value.now }
    ensures { OnOk result (LowersKindAt ends_path code.old code.new s.now.kind s.now.span) }
{
    element(value, code, s.span)?;
    rows::require(code, s.span, s.span)?;
    Ok(())
}

fn choice(
    code: &mut Items<SlotInstr>,
    yes: Items<SlotInstr>,
    no: Items<SlotInstr>,
    span: Span,
) -> Result<(), Memory>
    ensures { OnOk result (code.new ≡ code.old ++ instruction (kinds.If yes no) span span ∷ []) }
{
    code.push(SlotInstr {
        kind: SlotKind::If { yes, no },
        doing: span,
        checking: span,
    })?;
    Ok(())
}

/// The code of a block. Its names end with it, but where it ends a path: nothing stands behind it then.
#[tactic(auto, using(crate::proofs::Placed::placed_block, crate::proofs::Placed::placed_path))]
#[cycle(statement)]
#[inline(never)]
fn block(
    body: &[Stmt<Slot, Ty>],
    ends_path: bool,
    alloc: Global,
    checking: Span,
) -> Result<Items<SlotInstr>, Memory>
    requires { ReadyBody body.now }
    ensures { IfOk result (λ code. LowersBlockAt ends_path code body.now checking) }
{
    let mut code = Items::new(alloc);
    all(body, ends_path, alloc, &mut code)?;
    if ends_path {
        return Ok(code);
    }
    end_names(body, &mut code, checking)?;
    Ok(code)
}

/// Adds the code of statements, one after the other. Where they end a path, so does the last of them.
#[tactic(auto, using(crate::proofs::Placed::left_body_none, crate::proofs::Placed::left_body_item))]
#[cycle(statement)]
pub fn all(
    body: &[Stmt<Slot, Ty>],
    ends_path: bool,
    alloc: Global,
    code: &mut Items<SlotInstr>,
) -> Result<(), Memory>
    requires { ReadyBody body.now }
    ensures { OnOk result (LowersBodyAt ends_path code.old code.new body.now) }
{
    let count = body.len();
    for (at, s) in body.iter().enumerate() {
        let ends_here = is_last(ends_path, at, count);
        statement(s, ends_here, alloc, code)?;
    }
    Ok(())
}

/// Whether a path ends with the statement at this place, of so many.
fn is_last(ends_path: bool, at: usize, count: usize) -> bool
    requires { at < count }
    ensures { result ≡ (ends_path && at + 1 == count) }
{
    ends_path && at + 1 == count
}

/// Adds the ends of the names that statements define.
#[tactic(auto, using(crate::proofs::Ends::left_ends_none))]
fn end_names(
    body: &[Stmt<Slot, Ty>],
    code: &mut Items<SlotInstr>,
    checking: Span,
) -> Result<(), Memory>
    ensures { OnOk result (EndsNames code.old code.new (names_of body.now) checking) }
{
    for s in body {
        end_names_of(s, code, checking)?;
    }
    Ok(())
}

/// Adds the ends of the names that a statement defines.
#[tactic(auto, using(crate::proofs::Ends::ends_define, crate::proofs::Ends::ends_pair, crate::proofs::Ends::ends_assign, crate::proofs::Ends::ends_time, crate::proofs::Ends::ends_age, crate::proofs::Ends::ends_require, crate::proofs::Ends::ends_if))]
#[inline(never)]
fn end_names_of(
    s: &Stmt<Slot, Ty>,
    code: &mut Items<SlotInstr>,
    checking: Span,
) -> Result<(), Memory>
    ensures { OnOk result (EndsStmt code.old code.new s.now checking) }
{
    match &s.kind {
        StmtKind::Define {
            ty: _,
            constant: _,
            name,
            place: _,
            value: _,
        } => {
            rows::end(code, *name, checking, checking)?;
            Ok(())
        }
        StmtKind::Pair {
            left,
            right,
            value: _,
        } => {
            rows::end(code, left.name, checking, checking)?;
            rows::end(code, right.name, checking, checking)?;
            Ok(())
        }
        StmtKind::Assign { name: _, value: _ } => Ok(()),
        StmtKind::Time { value: _ } => Ok(()),
        StmtKind::Age { value: _ } => Ok(()),
        StmtKind::Require { value: _ } => Ok(()),
        StmtKind::If {
            test: _,
            yes: _,
            no: _,
        } => Ok(()),
    }
}
