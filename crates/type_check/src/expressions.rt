//! Gives expressions their types, parts before wholes and left before right.

#![tactic(auto)]

ghost use Rattle.std.specs.Prelude.{◌≡◌, [], map, None};
ghost use Rattle.cash_tree.specs.declared.ExprKind.TheVariants as exprs;
ghost use Rattle.type_tables.specs.Places.{Gives};
ghost use Rattle.type_check.specs.Reading.{each_from, reading_of, reading_of_kind};

use crate::nodes;
use crate::nodes::Judged;
use cash_base::{LookAt, Slot};
use cash_tree::{BinaryOp, Callee, Expr, ExprKind, Ty, UnaryOp};
use sqlite_items::{Boxed, Items};
use std::alloc::Global;
use type_tables::calls::{nothing, place_at, signature};
use type_tables::fault::TypeFault;
use type_tables::rules::{Binding, Item, Signature};
use type_tables::tables::{TypedExpr, look0_type};

/// An expression whose names are slots, without types.
pub type NamedExpr = Expr<Slot, ()>;

/// Checks an expression at its place: as which items those of an array are wanted.
#[tactic(auto, using(crate::proofs::Unfolds::whole_read))]
#[cycle(expression)]
pub fn check_expr(
    alloc: Global,
    env: &[Binding],
    place: Option<Item>,
    e: &NamedExpr,
) -> Result<TypedExpr, TypeFault>
    ensures { Gives (λ x. x) result (reading_of e.now place env.now) }
{
    let Judged { kind, ty } = judge(alloc, env, place, e)?;
    let span = e.span;
    Ok(Expr { kind, ty, span })
}

#[cycle(expression)]
fn part(alloc: Global, env: &[Binding], e: &Boxed<NamedExpr>) -> Result<TypedExpr, TypeFault>
    ensures { Gives (λ x. x) result (reading_of e.now None env.now) }
{
    check_expr(alloc, env, None, e.get())
}

#[cycle(expression)]
fn all_parts(
    alloc: Global,
    env: &[Binding],
    signature: Signature,
    parts: &[NamedExpr],
) -> Result<Items<TypedExpr>, TypeFault>
    ensures { Gives (λ x. x) result (each_from signature [] (map reading_of parts.now) env.now) }
{
    let mut values = Items::new(alloc);
    for part in parts {
        let place = place_at(signature, values.len());
        values.push(check_expr(alloc, env, place, part)?)?;
    }
    Ok(values)
}

/// What an expression is, and its type.
///
/// It calls itself as deep as the expression is, so most forms have a function of their own, whose parts stand in no other
/// frame.
#[tactic(auto, using(crate::proofs::Unfolds::bool_read, crate::proofs::Unfolds::hex_read, crate::proofs::Unfolds::text_read, crate::proofs::Unfolds::date_read, crate::proofs::Unfolds::name_read, crate::proofs::Unfolds::cast_read, crate::proofs::Unfolds::sized_cast_read, crate::proofs::Unfolds::look0_read))]
#[cycle(expression)]
fn judge(
    alloc: Global,
    env: &[Binding],
    place: Option<Item>,
    e: &NamedExpr,
) -> Result<Judged, TypeFault>
    ensures { Gives (λ j. (j.kind, j.ty)) result (reading_of_kind e.now.kind e.now.span place env.now) }
{
    let span = e.span;
    match &e.kind {
        ExprKind::Int { digits, unit } => nodes::int(span, *digits, *unit),
        ExprKind::Bool(b) => {
            let kind = ExprKind::Bool(*b);
            let ty = Ty::Bool;
            Ok(Judged { kind, ty })
        }
        ExprKind::Hex(bytes) => nodes::hex(alloc, span, bytes.as_slice()),
        ExprKind::Text(bytes) => nodes::text(alloc, span, bytes.as_slice()),
        ExprKind::Date(seconds) => nodes::date(span, *seconds),
        ExprKind::Name(slot) => nodes::name(alloc, env, *slot),
        ExprKind::Unary(op, a) => unary(alloc, env, place, e, *op, a),
        ExprKind::Binary(op, a, b) => binary(alloc, env, place, e, *op, a, b),
        ExprKind::Length(a) => length(alloc, env, place, e, a),
        ExprKind::Reverse(a) => reverse(alloc, env, place, e, a),
        ExprKind::Split(a, b) => split(alloc, env, place, e, a, b),
        ExprKind::Index(a, number) => index(alloc, env, place, e, a, *number),
        ExprKind::Cast { to, value, size } => {
            let value = part(alloc, env, value)?;
            let Some(size) = size else {
                return nodes::cast(alloc, span, to, value);
            };
            let size = part(alloc, env, size)?;
            nodes::sized_cast(alloc, span, to, value, size)
        }
        ExprKind::Call { callee, args } => call(alloc, env, place, e, *callee, args),
        ExprKind::New { callee, args } => new(alloc, env, place, e, *callee, args),
        ExprKind::Array(items) => array(alloc, env, place, e, items),
        ExprKind::Look0(look) => {
            let kind = ExprKind::Look0(*look);
            let ty = look0_type(*look);
            Ok(Judged { kind, ty })
        }
        ExprKind::LookAt(look, a) => look_at(alloc, env, place, e, *look, a),
    }
}

/// An operator with one side.
#[tactic(auto, using(crate::proofs::Unfolds::unary_read))]
#[cycle(expression)]
#[inline(never)]
fn unary(
    alloc: Global,
    env: &[Binding],
    place: Option<Item>,
    e: &NamedExpr,
    op: UnaryOp,
    a: &Boxed<NamedExpr>,
) -> Result<Judged, TypeFault>
    requires { e.now.kind ≡ exprs.Unary op a.now }
    ensures { Gives (λ j. (j.kind, j.ty)) result (reading_of_kind e.now.kind e.now.span place env.now) }
{
    let a = part(alloc, env, a)?;
    nodes::unary(alloc, e.span, op, a)
}

/// An operator with two sides.
#[tactic(auto, using(crate::proofs::Unfolds::binary_read))]
#[cycle(expression)]
#[inline(never)]
fn binary(
    alloc: Global,
    env: &[Binding],
    place: Option<Item>,
    e: &NamedExpr,
    op: BinaryOp,
    a: &Boxed<NamedExpr>,
    b: &Boxed<NamedExpr>,
) -> Result<Judged, TypeFault>
    requires { e.now.kind ≡ exprs.Binary op a.now b.now }
    ensures { Gives (λ j. (j.kind, j.ty)) result (reading_of_kind e.now.kind e.now.span place env.now) }
{
    let a = part(alloc, env, a)?;
    let b = part(alloc, env, b)?;
    nodes::binary(alloc, e.span, op, a, b)
}

/// `a.length`
#[tactic(auto, using(crate::proofs::Unfolds::length_read))]
#[cycle(expression)]
#[inline(never)]
fn length(
    alloc: Global,
    env: &[Binding],
    place: Option<Item>,
    e: &NamedExpr,
    a: &Boxed<NamedExpr>,
) -> Result<Judged, TypeFault>
    requires { e.now.kind ≡ exprs.Length a.now }
    ensures { Gives (λ j. (j.kind, j.ty)) result (reading_of_kind e.now.kind e.now.span place env.now) }
{
    let a = part(alloc, env, a)?;
    nodes::length(alloc, e.span, a)
}

/// `a.reverse()`
#[tactic(auto, using(crate::proofs::Unfolds::reverse_read))]
#[cycle(expression)]
#[inline(never)]
fn reverse(
    alloc: Global,
    env: &[Binding],
    place: Option<Item>,
    e: &NamedExpr,
    a: &Boxed<NamedExpr>,
) -> Result<Judged, TypeFault>
    requires { e.now.kind ≡ exprs.Reverse a.now }
    ensures { Gives (λ j. (j.kind, j.ty)) result (reading_of_kind e.now.kind e.now.span place env.now) }
{
    let a = part(alloc, env, a)?;
    nodes::reverse(alloc, e.span, a)
}

/// `a.split(b)`
#[tactic(auto, using(crate::proofs::Unfolds::split_read))]
#[cycle(expression)]
#[inline(never)]
fn split(
    alloc: Global,
    env: &[Binding],
    place: Option<Item>,
    e: &NamedExpr,
    a: &Boxed<NamedExpr>,
    b: &Boxed<NamedExpr>,
) -> Result<Judged, TypeFault>
    requires { e.now.kind ≡ exprs.Split a.now b.now }
    ensures { Gives (λ j. (j.kind, j.ty)) result (reading_of_kind e.now.kind e.now.span place env.now) }
{
    let a = part(alloc, env, a)?;
    let b = part(alloc, env, b)?;
    nodes::split(alloc, e.span, a, b)
}

/// `a[number]`
#[tactic(auto, using(crate::proofs::Unfolds::index_read))]
#[cycle(expression)]
#[inline(never)]
fn index(
    alloc: Global,
    env: &[Binding],
    place: Option<Item>,
    e: &NamedExpr,
    a: &Boxed<NamedExpr>,
    number: u128,
) -> Result<Judged, TypeFault>
    requires { e.now.kind ≡ exprs.Index a.now number }
    ensures { Gives (λ j. (j.kind, j.ty)) result (reading_of_kind e.now.kind e.now.span place env.now) }
{
    let a = part(alloc, env, a)?;
    nodes::index(alloc, e.span, a, number)
}

/// A call of a built-in function.
#[tactic(auto, using(crate::proofs::Unfolds::call_read))]
#[cycle(expression)]
#[inline(never)]
fn call(
    alloc: Global,
    env: &[Binding],
    place: Option<Item>,
    e: &NamedExpr,
    callee: Callee,
    args: &Items<NamedExpr>,
) -> Result<Judged, TypeFault>
    requires { e.now.kind ≡ exprs.Call callee args.now }
    ensures { Gives (λ j. (j.kind, j.ty)) result (reading_of_kind e.now.kind e.now.span place env.now) }
{
    let args = all_parts(alloc, env, signature(callee), args.as_slice())?;
    nodes::call(alloc, e.span, callee, args)
}

/// `new` and the call of an instantiation.
#[tactic(auto, using(crate::proofs::Unfolds::new_read))]
#[cycle(expression)]
#[inline(never)]
fn new(
    alloc: Global,
    env: &[Binding],
    place: Option<Item>,
    e: &NamedExpr,
    callee: Callee,
    args: &Items<NamedExpr>,
) -> Result<Judged, TypeFault>
    requires { e.now.kind ≡ exprs.New callee args.now }
    ensures { Gives (λ j. (j.kind, j.ty)) result (reading_of_kind e.now.kind e.now.span place env.now) }
{
    let args = all_parts(alloc, env, signature(callee), args.as_slice())?;
    nodes::new(alloc, e.span, callee, args)
}

/// `[item, ..]` at its place.
#[tactic(auto, using(crate::proofs::Unfolds::array_read))]
#[cycle(expression)]
#[inline(never)]
fn array(
    alloc: Global,
    env: &[Binding],
    place: Option<Item>,
    e: &NamedExpr,
    items: &Items<NamedExpr>,
) -> Result<Judged, TypeFault>
    requires { e.now.kind ≡ exprs.Array items.now }
    ensures { Gives (λ j. (j.kind, j.ty)) result (reading_of_kind e.now.kind e.now.span place env.now) }
{
    let items = all_parts(alloc, env, nothing(), items.as_slice())?;
    nodes::array(alloc, e.span, place, items)
}

/// What the input or output at an index has.
#[tactic(auto, using(crate::proofs::Unfolds::look_at_read))]
#[cycle(expression)]
#[inline(never)]
fn look_at(
    alloc: Global,
    env: &[Binding],
    place: Option<Item>,
    e: &NamedExpr,
    look: LookAt,
    a: &Boxed<NamedExpr>,
) -> Result<Judged, TypeFault>
    requires { e.now.kind ≡ exprs.LookAt look a.now }
    ensures { Gives (λ j. (j.kind, j.ty)) result (reading_of_kind e.now.kind e.now.span place env.now) }
{
    let a = part(alloc, env, a)?;
    nodes::look_at(alloc, e.span, look, a)
}
