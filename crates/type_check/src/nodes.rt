//! The nodes of expressions with their types, made of parts that have theirs.

ghost use Rattle.std.specs.Prelude.{length, Some, None, Ok};
ghost use Rattle.type_tables.specs.Tables as table;
ghost use Rattle.type_tables.specs.Places.{Gives};
ghost use Rattle.type_check.specs.Shapes.{types};
ghost use Rattle.type_check.specs.Reading.{with_type};
ghost use Rattle.cash_tree.specs.declared.ExprKind.TheVariants as exprs;

use cash_base::{LookAt, Slot, Span};
use cash_tree::{BinaryOp, Callee, ExprKind, Ty, UnaryOp};
use sqlite_items::{Boxed, Items};
use std::alloc::Global;
use type_tables::calls::{array_type, call_type, literal_of, type_at};
use type_tables::fault::TypeFault;
use type_tables::rules::{Binding, Item};
use type_tables::tables::{
    TypedExpr, binary_type, cast_type, date_type, hex_type, index_type, length_type, look_at_type,
    number_type, reverse_type, sized_cast_type, split_type, text_type, unary_type,
};

/// What an expression is, and its type.
#[derive(Drop)]
pub struct Judged {
    pub kind: ExprKind<Slot, Ty>,
    pub ty: Ty,
}

pub fn int(span: Span, digits: u128, unit: u64) -> Result<Judged, TypeFault>
    ensures { Gives (λ j. (j.kind, j.ty)) result
        (with_type (exprs.Int digits unit) (table.number_type span digits unit)) }
{
    let ty = number_type(span, digits, unit)?;
    let kind = ExprKind::Int { digits, unit };
    Ok(Judged { kind, ty })
}

pub fn hex(alloc: Global, span: Span, bytes: &[u8]) -> Result<Judged, TypeFault>
    ensures { Gives (λ j. (j.kind, j.ty)) result
        (with_type (exprs.Hex bytes.now) (table.hex_type span (length bytes.now))) }
{
    let ty = hex_type(span, bytes.len())?;
    let kind = ExprKind::Hex(Items::from_slice(alloc, bytes)?);
    Ok(Judged { kind, ty })
}

pub fn text(alloc: Global, span: Span, bytes: &[u8]) -> Result<Judged, TypeFault>
    ensures { Gives (λ j. (j.kind, j.ty)) result
        (with_type (exprs.Text bytes.now) (table.text_type span (length bytes.now))) }
{
    let ty = text_type(span, bytes.len())?;
    let kind = ExprKind::Text(Items::from_slice(alloc, bytes)?);
    Ok(Judged { kind, ty })
}

pub fn date(span: Span, seconds: i64) -> Result<Judged, TypeFault>
    ensures { Gives (λ j. (j.kind, j.ty)) result (with_type (exprs.Date seconds) (table.date_type span seconds)) }
{
    let ty = date_type(span, seconds)?;
    let kind = ExprKind::Date(seconds);
    Ok(Judged { kind, ty })
}

pub fn name(alloc: Global, env: &[Binding], slot: Slot) -> Result<Judged, TypeFault>
    ensures { Gives (λ j. (j.kind, j.ty)) result (with_type (exprs.Name slot) (Ok (table.type_at slot env.now))) }
{
    let ty = type_at(alloc, slot, env)?;
    let kind = ExprKind::Name(slot);
    Ok(Judged { kind, ty })
}

pub fn unary(alloc: Global, span: Span, op: UnaryOp, value: TypedExpr) -> Result<Judged, TypeFault>
    ensures { Gives (λ j. (j.kind, j.ty)) result
        (with_type (exprs.Unary op value) (table.unary_type span op value.ty)) }
{
    let ty = unary_type(alloc, span, op, &value.ty)?;
    let kind = ExprKind::Unary(op, Boxed::new(alloc, value)?);
    Ok(Judged { kind, ty })
}

pub fn binary(
    alloc: Global,
    span: Span,
    op: BinaryOp,
    left: TypedExpr,
    right: TypedExpr,
) -> Result<Judged, TypeFault>
    ensures { Gives (λ j. (j.kind, j.ty)) result
        (with_type (exprs.Binary op left right) (table.binary_type span op left.ty right.ty)) }
{
    let ty = binary_type(alloc, span, op, &left.ty, &right.ty)?;
    let left = Boxed::new(alloc, left)?;
    let right = Boxed::new(alloc, right)?;
    let kind = ExprKind::Binary(op, left, right);
    Ok(Judged { kind, ty })
}

pub fn length(alloc: Global, span: Span, value: TypedExpr) -> Result<Judged, TypeFault>
    ensures { Gives (λ j. (j.kind, j.ty)) result (with_type (exprs.Length value) (table.length_type span value.ty)) }
{
    let ty = length_type(alloc, span, &value.ty)?;
    let kind = ExprKind::Length(Boxed::new(alloc, value)?);
    Ok(Judged { kind, ty })
}

pub fn reverse(alloc: Global, span: Span, value: TypedExpr) -> Result<Judged, TypeFault>
    ensures { Gives (λ j. (j.kind, j.ty)) result (with_type (exprs.Reverse value) (table.reverse_type span value.ty)) }
{
    let ty = reverse_type(alloc, span, &value.ty)?;
    let kind = ExprKind::Reverse(Boxed::new(alloc, value)?);
    Ok(Judged { kind, ty })
}

pub fn split(
    alloc: Global,
    span: Span,
    value: TypedExpr,
    at: TypedExpr,
) -> Result<Judged, TypeFault>
    ensures { Gives (λ j. (j.kind, j.ty)) result
        (with_type (exprs.Split value at) (table.split_type span value.ty at.ty (table.literal_of at))) }
{
    let ty = split_type(alloc, span, &value.ty, &at.ty, literal_of(&at))?;
    let value = Boxed::new(alloc, value)?;
    let at = Boxed::new(alloc, at)?;
    let kind = ExprKind::Split(value, at);
    Ok(Judged { kind, ty })
}

pub fn index(alloc: Global, span: Span, pair: TypedExpr, number: u128) -> Result<Judged, TypeFault>
    ensures { Gives (λ j. (j.kind, j.ty)) result
        (with_type (exprs.Index pair number) (table.index_type span number pair.ty)) }
{
    let ty = index_type(alloc, span, number, &pair.ty)?;
    let kind = ExprKind::Index(Boxed::new(alloc, pair)?, number);
    Ok(Judged { kind, ty })
}

pub fn cast(alloc: Global, span: Span, to: &Ty, value: TypedExpr) -> Result<Judged, TypeFault>
    ensures { Gives (λ j. (j.kind, j.ty)) result
        (with_type (exprs.Cast to.now value None) (table.cast_type span to.now value.ty)) }
{
    let ty = cast_type(alloc, span, to, &value.ty)?;
    let to = to.copy(alloc)?;
    let value = Boxed::new(alloc, value)?;
    let kind = ExprKind::Cast {
        to,
        value,
        size: None,
    };
    Ok(Judged { kind, ty })
}

pub fn sized_cast(
    alloc: Global,
    span: Span,
    to: &Ty,
    value: TypedExpr,
    size: TypedExpr,
) -> Result<Judged, TypeFault>
    ensures { Gives (λ j. (j.kind, j.ty)) result
        (with_type (exprs.Cast to.now value (Some size)) (table.sized_cast_type span to.now value.ty size.ty)) }
{
    let ty = sized_cast_type(alloc, span, to, &value.ty, &size.ty)?;
    let to = to.copy(alloc)?;
    let value = Boxed::new(alloc, value)?;
    let size = Some(Boxed::new(alloc, size)?);
    let kind = ExprKind::Cast { to, value, size };
    Ok(Judged { kind, ty })
}

pub fn call(
    alloc: Global,
    span: Span,
    callee: Callee,
    args: Items<TypedExpr>,
) -> Result<Judged, TypeFault>
    ensures { Gives (λ j. (j.kind, j.ty)) result
        (with_type (exprs.Call callee args) (table.call_type span callee args)) }
{
    let ty = call_type(alloc, span, callee, args.as_slice())?;
    let kind = ExprKind::Call { callee, args };
    Ok(Judged { kind, ty })
}

pub fn new(
    alloc: Global,
    span: Span,
    callee: Callee,
    args: Items<TypedExpr>,
) -> Result<Judged, TypeFault>
    ensures { Gives (λ j. (j.kind, j.ty)) result
        (with_type (exprs.New callee args) (table.call_type span callee args)) }
{
    let ty = call_type(alloc, span, callee, args.as_slice())?;
    let kind = ExprKind::New { callee, args };
    Ok(Judged { kind, ty })
}

pub fn array(
    alloc: Global,
    span: Span,
    place: Option<Item>,
    items: Items<TypedExpr>,
) -> Result<Judged, TypeFault>
    ensures { Gives (λ j. (j.kind, j.ty)) result
        (with_type (exprs.Array items) (table.array_type span place (types items))) }
{
    let ty = array_type(alloc, span, place, items.as_slice())?;
    let kind = ExprKind::Array(items);
    Ok(Judged { kind, ty })
}

pub fn look_at(
    alloc: Global,
    span: Span,
    look: LookAt,
    index: TypedExpr,
) -> Result<Judged, TypeFault>
    ensures { Gives (λ j. (j.kind, j.ty)) result
        (with_type (exprs.LookAt look index) (table.look_at_type span look index.ty)) }
{
    let ty = look_at_type(alloc, span, look, &index.ty)?;
    let kind = ExprKind::LookAt(look, Boxed::new(alloc, index)?);
    Ok(Judged { kind, ty })
}
