//! The rules of the types, as tables. Each is a function of the types of a node's parts.

ghost use Rattle.std.specs.Prelude.{◌≡◌, ◌*◌, ◌^◌, nat_lt, length, map, option_copied};
ghost use Rattle.type_tables.specs.Tables as table;
ghost use Rattle.type_tables.specs.Places.{Gives};
ghost use Rattle.cash_tree.specs.declared.Ty.TheVariants.{Int, Bool, Bytes, BytesN};

use crate::fault::TypeFault;
use crate::rules::{CastEffect, OperatorRule};
use cash_base::{Look0, LookAt, Slot, Span};
use cash_tree::{BinaryOp, Expr, ExprKind, Ty, UnaryOp};
use sqlite_items::Boxed;
use std::alloc::Global;

/// An expression whose names are slots, with its types.
pub type TypedExpr = Expr<Slot, Ty>;

// ---- types

/// Whether it is a type of bytes: `bytes`, `bytesN`, `pubkey`, `sig` and `datasig`.
pub fn is_bytes(ty: &Ty) -> bool
    ensures { result ≡ table.is_bytes ty.now }
{
    matches!(
        ty,
        Ty::Bytes | Ty::BytesN(_) | Ty::Pubkey | Ty::Sig | Ty::Datasig
    )
}

/// Whether it is neither an array nor a pair.
pub fn is_single(ty: &Ty) -> bool
    ensures { result ≡ table.is_single ty.now }
{
    !matches!(ty, Ty::Array(_) | Ty::Pair(_, _))
}

/// Whether a part of type `found` may stand where `wanted` is wanted; an array or a pair may nowhere.
pub fn fits(wanted: &Ty, found: &Ty) -> bool
    ensures { result ≡ table.fits wanted.now found.now }
{
    match wanted {
        Ty::Int => matches!(found, Ty::Int),
        Ty::Bool => matches!(found, Ty::Bool),
        Ty::Text => matches!(found, Ty::Text),
        Ty::Bytes => is_bytes(found),
        Ty::BytesN(n) => match found {
            Ty::BytesN(m) => n == m,
            Ty::Pubkey => *n == 33,
            Ty::Sig => *n == 65,
            Ty::Datasig => *n == 64,
            _ => false,
        },
        Ty::Pubkey => matches!(found, Ty::Pubkey),
        Ty::Sig => matches!(found, Ty::Sig),
        Ty::Datasig => matches!(found, Ty::Datasig),
        Ty::Array(_) | Ty::Pair(_, _) => false,
    }
}

/// Whether it is a text, or a type of bytes.
pub fn is_sequence(ty: &Ty) -> bool
    ensures { result ≡ table.is_sequence ty.now }
{
    matches!(ty, Ty::Text) || is_bytes(ty)
}

/// Refuses a part of type `found` that isn't allowed, and tells what is wanted in its place.
pub fn allowed(
    alloc: Global,
    span: Span,
    is_allowed: bool,
    wanted: Ty,
    found: &Ty,
) -> Result<(), TypeFault>
    ensures { Gives (λ x. x) result (table.allowed span is_allowed wanted found.now) }
{
    if is_allowed {
        return Ok(());
    }
    let found = found.copy(alloc)?;
    Err(TypeFault::Mismatch {
        span,
        wanted,
        found,
    })
}

/// Refuses a part of type `found` that may not stand where `wanted` is wanted.
#[tactic(auto, unfolding(crate::specs::Tables::suits))]
pub fn suits(alloc: Global, span: Span, wanted: Ty, found: &Ty) -> Result<(), TypeFault>
    ensures { Gives (λ x. x) result (table.suits span wanted found.now) }
{
    let fit = fits(&wanted, found);
    allowed(alloc, span, fit, wanted, found)
}

// ---- literals

fn in_range(span: Span, is_in_range: bool, ty: Ty) -> Result<Ty, TypeFault>
    ensures { result ≡ table.in_range span is_in_range ty }
{
    if !is_in_range {
        return Err(TypeFault::LiteralRange { span });
    }
    Ok(ty)
}

/// Whether it is at most 2^63 - 1.
fn is_number(digits: u128, unit: u64) -> bool
    ensures { result ≡ nat_lt (digits * unit) (2 ^ 63) }
{
    match digits.checked_mul(u128::from(unit)) {
        Some(n) => n < 1 << 63,
        None => false,
    }
}

/// The type of a literal number.
#[tactic(auto, unfolding(crate::specs::Tables::number_type))]
pub fn number_type(span: Span, digits: u128, unit: u64) -> Result<Ty, TypeFault>
    ensures { result ≡ table.number_type span digits unit }
{
    in_range(span, is_number(digits, unit), Ty::Int)
}

/// The type of a literal date.
#[tactic(auto, unfolding(crate::specs::Tables::date_type))]
pub fn date_type(span: Span, seconds: i64) -> Result<Ty, TypeFault>
    ensures { result ≡ table.date_type span seconds }
{
    in_range(span, seconds.unsigned_abs() < 1 << 63, Ty::Int)
}

/// The type of a hexadecimal literal of so many bytes.
#[tactic(auto, unfolding(crate::specs::Tables::hex_type))]
pub fn hex_type(span: Span, len: usize) -> Result<Ty, TypeFault>
    ensures { result ≡ table.hex_type span len }
{
    if len == 0 {
        return Ok(Ty::Bytes);
    }
    if len > 520 {
        return Err(TypeFault::LiteralRange { span });
    }
    Ok(Ty::BytesN(len as u16))
}

/// The type of a literal text of so many bytes.
#[tactic(auto, unfolding(crate::specs::Tables::text_type))]
pub fn text_type(span: Span, len: usize) -> Result<Ty, TypeFault>
    ensures { result ≡ table.text_type span len }
{
    in_range(span, len <= 520, Ty::Text)
}

// ---- operators

fn unary_operand(op: UnaryOp) -> Ty
    ensures { result ≡ table.unary_operand op }
{
    match op {
        UnaryOp::Not => Ty::Bool,
        UnaryOp::Negate => Ty::Int,
    }
}

/// The type of an operator with one side.
#[tactic(auto, unfolding(crate::specs::Tables::unary_type))]
pub fn unary_type(alloc: Global, span: Span, op: UnaryOp, ty: &Ty) -> Result<Ty, TypeFault>
    ensures { Gives (λ x. x) result (table.unary_type span op ty.now) }
{
    suits(alloc, span, unary_operand(op), ty)?;
    Ok(unary_operand(op))
}

fn rule_of(op: BinaryOp) -> OperatorRule
    ensures { result ≡ table.rule_of op }
{
    match op {
        BinaryOp::Or | BinaryOp::And => OperatorRule::Logic,
        BinaryOp::BitOr | BinaryOp::BitXor | BinaryOp::BitAnd => OperatorRule::Bitwise,
        BinaryOp::Equal | BinaryOp::NotEqual => OperatorRule::Equality,
        BinaryOp::Less | BinaryOp::LessEqual => OperatorRule::Order,
        BinaryOp::Greater | BinaryOp::GreaterEqual => OperatorRule::Order,
        BinaryOp::Add => OperatorRule::Sum,
        BinaryOp::Sub | BinaryOp::Mul => OperatorRule::Arithmetic,
        BinaryOp::Div | BinaryOp::Mod => OperatorRule::Arithmetic,
    }
}

fn numbers(alloc: Global, span: Span, given: Ty, left: &Ty, right: &Ty) -> Result<Ty, TypeFault>
    ensures { Gives (λ x. x) result (table.both_sides span Int given left.now right.now) }
{
    suits(alloc, span, Ty::Int, left)?;
    suits(alloc, span, Ty::Int, right)?;
    Ok(given)
}

fn truths(alloc: Global, span: Span, left: &Ty, right: &Ty) -> Result<Ty, TypeFault>
    ensures { Gives (λ x. x) result (table.both_sides span Bool Bool left.now right.now) }
{
    suits(alloc, span, Ty::Bool, left)?;
    suits(alloc, span, Ty::Bool, right)?;
    Ok(Ty::Bool)
}

fn joined(left: &Ty, right: &Ty) -> Ty
    ensures { result ≡ table.joined left.now right.now }
{
    match left {
        Ty::BytesN(n) => match right {
            Ty::BytesN(m) => {
                let sum = u32::from(*n) + u32::from(*m);
                if sum <= 520 {
                    Ty::BytesN(sum as u16)
                } else {
                    Ty::Bytes
                }
            }
            _ => Ty::Bytes,
        },
        _ => Ty::Bytes,
    }
}

fn bytes_sum(alloc: Global, span: Span, left: &Ty, right: &Ty) -> Result<Ty, TypeFault>
    ensures { Gives (λ x. x) result (table.bytes_sum span left.now right.now) }
{
    allowed(alloc, span, is_bytes(right), left.copy(alloc)?, right)?;
    Ok(joined(left, right))
}

fn addend(left: &Ty) -> Ty
    ensures { result ≡ table.addend left.now }
{
    match left {
        Ty::Text => Ty::Text,
        _ => Ty::Int,
    }
}

fn sum_type(alloc: Global, span: Span, left: &Ty, right: &Ty) -> Result<Ty, TypeFault>
    ensures { Gives (λ x. x) result (table.sum_type span left.now right.now) }
{
    if is_bytes(left) {
        return bytes_sum(alloc, span, left, right);
    }
    suits(alloc, span, addend(left), left)?;
    suits(alloc, span, addend(left), right)?;
    Ok(addend(left))
}

/// Whether one is cast to the other.
fn meet(left: &Ty, right: &Ty) -> bool
    ensures { result ≡ table.meet left.now right.now }
{
    fits(left, right) || fits(right, left)
}

fn equality_type(alloc: Global, span: Span, left: &Ty, right: &Ty) -> Result<Ty, TypeFault>
    ensures { Gives (λ x. x) result (table.equality_type span left.now right.now) }
{
    allowed(alloc, span, is_single(left), Ty::Int, left)?;
    allowed(alloc, span, meet(left, right), left.copy(alloc)?, right)?;
    Ok(Ty::Bool)
}

fn wider(alloc: Global, left: &Ty, right: &Ty) -> Result<Ty, TypeFault>
    ensures { Gives (λ x. x) result (table.answer (table.wider left.now right.now)) }
{
    if fits(left, right) {
        return Ok(left.copy(alloc)?);
    }
    Ok(right.copy(alloc)?)
}

fn bitwise_type(alloc: Global, span: Span, left: &Ty, right: &Ty) -> Result<Ty, TypeFault>
    ensures { Gives (λ x. x) result (table.bitwise_type span left.now right.now) }
{
    allowed(alloc, span, is_bytes(left), Ty::Bytes, left)?;
    allowed(alloc, span, meet(left, right), left.copy(alloc)?, right)?;
    Ok(wider(alloc, left, right)?)
}

/// The type of an operator between sides of these types.
#[tactic(auto, unfolding(crate::specs::Tables::binary_type))]
pub fn binary_type(
    alloc: Global,
    span: Span,
    op: BinaryOp,
    left: &Ty,
    right: &Ty,
) -> Result<Ty, TypeFault>
    ensures { Gives (λ x. x) result (table.binary_type span op left.now right.now) }
{
    match rule_of(op) {
        OperatorRule::Arithmetic => numbers(alloc, span, Ty::Int, left, right),
        OperatorRule::Order => numbers(alloc, span, Ty::Bool, left, right),
        OperatorRule::Logic => truths(alloc, span, left, right),
        OperatorRule::Sum => sum_type(alloc, span, left, right),
        OperatorRule::Equality => equality_type(alloc, span, left, right),
        OperatorRule::Bitwise => bitwise_type(alloc, span, left, right),
    }
}

// ---- parts of texts and bytes

/// The type of a length.
#[tactic(auto, unfolding(crate::specs::Tables::length_type))]
pub fn length_type(alloc: Global, span: Span, ty: &Ty) -> Result<Ty, TypeFault>
    ensures { Gives (λ x. x) result (table.length_type span ty.now) }
{
    allowed(alloc, span, is_sequence(ty), Ty::Bytes, ty)?;
    Ok(Ty::Int)
}

fn reversed(ty: &Ty) -> Ty
    ensures { result ≡ table.reversed ty.now }
{
    match ty {
        Ty::Text => Ty::Text,
        Ty::BytesN(n) => Ty::BytesN(*n),
        _ => Ty::Bytes,
    }
}

/// The type of what is reversed.
#[tactic(auto, unfolding(crate::specs::Tables::reverse_type))]
pub fn reverse_type(alloc: Global, span: Span, ty: &Ty) -> Result<Ty, TypeFault>
    ensures { Gives (λ x. x) result (table.reverse_type span ty.now) }
{
    allowed(alloc, span, is_sequence(ty), Ty::Bytes, ty)?;
    Ok(reversed(ty))
}

fn cut_parts(n: u16, literal: Option<u128>) -> (Ty, Ty)
    ensures { result ≡ table.cut_parts n literal }
{
    match literal {
        Some(k) if 0 < k && k < u128::from(n) => (Ty::BytesN(k as u16), Ty::BytesN(n - k as u16)),
        _ => (Ty::Bytes, Ty::Bytes),
    }
}

fn split_parts(ty: &Ty, literal: Option<u128>) -> (Ty, Ty)
    ensures { result ≡ table.split_parts ty.now literal }
{
    match ty {
        Ty::Text => (Ty::Text, Ty::Text),
        Ty::BytesN(n) => cut_parts(*n, literal),
        _ => (Ty::Bytes, Ty::Bytes),
    }
}

fn pair_of(alloc: Global, left: Ty, right: Ty) -> Result<Ty, TypeFault>
    ensures { Gives (λ x. x) result (table.answer (table.pair left right)) }
{
    Ok(Ty::Pair(Boxed::new(alloc, left)?, Boxed::new(alloc, right)?))
}

/// The type of a split, at an index that may be a literal.
#[tactic(auto, unfolding(crate::specs::Tables::split_type))]
pub fn split_type(
    alloc: Global,
    span: Span,
    ty: &Ty,
    at: &Ty,
    literal: Option<u128>,
) -> Result<Ty, TypeFault>
    ensures { Gives (λ x. x) result (table.split_type span ty.now at.now literal) }
{
    allowed(alloc, span, is_sequence(ty), Ty::Bytes, ty)?;
    suits(alloc, span, Ty::Int, at)?;
    let (left, right) = split_parts(ty, literal);
    Ok(pair_of(alloc, left, right)?)
}

fn part_at(alloc: Global, span: Span, number: u128, left: &Ty, right: &Ty) -> Result<Ty, TypeFault>
    ensures { Gives (λ x. x) result (table.part_at span number left.now right.now) }
{
    if number == 0 {
        return Ok(left.copy(alloc)?);
    }
    if number == 1 {
        return Ok(right.copy(alloc)?);
    }
    Err(TypeFault::BadTupleIndex { span })
}

/// Refuses what isn't a pair, where a pair of these types is wanted.
fn no_pair<T>(alloc: Global, span: Span, left: Ty, right: Ty, found: &Ty) -> Result<T, TypeFault>
    ensures { Gives (λ x. x) result (table.no_pair span left right found.now) }
{
    let wanted = pair_of(alloc, left, right)?;
    let found = found.copy(alloc)?;
    Err(TypeFault::Mismatch {
        span,
        wanted,
        found,
    })
}

/// The type of a part of a pair.
#[tactic(auto, unfolding(crate::specs::Tables::index_type))]
pub fn index_type(alloc: Global, span: Span, number: u128, ty: &Ty) -> Result<Ty, TypeFault>
    ensures { Gives (λ x. x) result (table.index_type span number ty.now) }
{
    match ty {
        Ty::Pair(left, right) => part_at(alloc, span, number, left.get(), right.get()),
        _ => no_pair(alloc, span, Ty::Bytes, Ty::Bytes, ty),
    }
}

/// Refuses the definition of two names of these types by another value than a pair that fits.
#[tactic(auto, unfolding(crate::specs::Tables::pair_suits))]
pub fn pair_suits(
    alloc: Global,
    span: Span,
    left: &Ty,
    right: &Ty,
    found: &Ty,
) -> Result<(), TypeFault>
    ensures { Gives (λ x. x) result (table.pair_suits span left.now right.now found.now) }
{
    match found {
        Ty::Pair(l, r) => {
            suits(alloc, span, left.copy(alloc)?, l.get())?;
            suits(alloc, span, right.copy(alloc)?, r.get())?;
            Ok(())
        }
        _ => no_pair(alloc, span, left.copy(alloc)?, right.copy(alloc)?, found),
    }
}

// ---- casts

/// What a cast from an int does.
fn effect_of_int(to: &Ty) -> Option<CastEffect>
    ensures { result ≡ table.explicit_effect_of to.now Int }
{
    match to {
        Ty::Bool => Some(CastEffect::NonZero),
        Ty::Bytes => Some(CastEffect::Keep),
        Ty::BytesN(n) => Some(CastEffect::Pad(*n)),
        _ => None,
    }
}

/// What a cast from bytes of any length does.
fn effect_of_bytes(to: &Ty) -> Option<CastEffect>
    ensures { result ≡ table.explicit_effect_of to.now Bytes }
{
    match to {
        Ty::Int => Some(CastEffect::ToNumber),
        Ty::BytesN(_) | Ty::Text => Some(CastEffect::Keep),
        Ty::Pubkey | Ty::Sig | Ty::Datasig => Some(CastEffect::Keep),
        _ => None,
    }
}

/// What a cast from so many bytes does.
fn effect_of_bytes_n(to: &Ty, n: u16) -> Option<CastEffect>
    ensures { result ≡ table.explicit_effect_of to.now (BytesN n) }
{
    match to {
        Ty::Int if n <= 8 => Some(CastEffect::ToNumber),
        Ty::Text => Some(CastEffect::Keep),
        Ty::Pubkey | Ty::Sig | Ty::Datasig => Some(CastEffect::Keep),
        _ => None,
    }
}

/// What a cast does that isn't an implicit one, or there is none.
fn explicit_effect(to: &Ty, from: &Ty) -> Option<CastEffect>
    ensures { result ≡ table.explicit_effect_of to.now from.now }
{
    match from {
        Ty::Int => effect_of_int(to),
        Ty::Bool => match to {
            Ty::Int => Some(CastEffect::Keep),
            _ => None,
        },
        Ty::Text => match to {
            Ty::Bytes => Some(CastEffect::Keep),
            _ => None,
        },
        Ty::Bytes => effect_of_bytes(to),
        Ty::BytesN(n) => effect_of_bytes_n(to, *n),
        _ => None,
    }
}

/// What a cast to a type does with an element of another, or `None` where there is no such cast, as to or from an array or
/// a pair.
///
/// The table is this project's own, after the CashScript documentation on types and casts.
#[tactic(auto, unfolding(crate::specs::Tables::cast_effect))]
pub fn cast_effect(to: &Ty, from: &Ty) -> Option<CastEffect>
    ensures { result ≡ table.cast_effect to.now from.now }
{
    if fits(to, from) {
        return Some(CastEffect::Keep);
    }
    explicit_effect(to, from)
}

/// What a cast with a size does, or `None` where there is no such cast: an int is padded to bytes of that size.
#[tactic(auto, unfolding(crate::specs::Tables::sized_effect))]
pub fn sized_effect(to: &Ty, from: &Ty) -> Option<CastEffect>
    ensures { result ≡ table.sized_effect to.now from.now }
{
    match to {
        Ty::Bytes => match from {
            Ty::Int => Some(CastEffect::PadToSize),
            _ => None,
        },
        _ => None,
    }
}

fn cast_by(alloc: Global, span: Span, to: &Ty, effect: Option<CastEffect>) -> Result<Ty, TypeFault>
    ensures { Gives (λ x. x) result (table.cast_by span to.now effect) }
{
    match effect {
        Some(_) => Ok(to.copy(alloc)?),
        None => Err(TypeFault::NoSuchCast { span }),
    }
}

/// The type of a cast.
#[tactic(auto, unfolding(crate::specs::Tables::cast_type))]
pub fn cast_type(alloc: Global, span: Span, to: &Ty, from: &Ty) -> Result<Ty, TypeFault>
    ensures { Gives (λ x. x) result (table.cast_type span to.now from.now) }
{
    cast_by(alloc, span, to, cast_effect(to, from))
}

/// The type of a cast with a size.
#[tactic(auto, unfolding(crate::specs::Tables::sized_cast_type))]
pub fn sized_cast_type(
    alloc: Global,
    span: Span,
    to: &Ty,
    from: &Ty,
    size: &Ty,
) -> Result<Ty, TypeFault>
    ensures { Gives (λ x. x) result (table.sized_cast_type span to.now from.now size.now) }
{
    suits(alloc, span, Ty::Int, size)?;
    Ok(cast_by(alloc, span, to, sized_effect(to, from))?)
}

// ---- look-ups

/// The type of what the transaction has one of.
#[tactic(auto, unfolding(crate::specs::Tables::look0_type))]
pub fn look0_type(look: Look0) -> Ty
    ensures { result ≡ table.look0_type look }
{
    match look {
        Look0::Version | Look0::Locktime => Ty::Int,
        Look0::InputCount | Look0::OutputCount | Look0::ActiveIndex => Ty::Int,
        Look0::ActiveBytecode => Ty::Bytes,
    }
}

fn looked_at(look: LookAt) -> Ty
    ensures { result ≡ table.looked_at look }
{
    match look {
        LookAt::UtxoValue | LookAt::OutpointIndex => Ty::Int,
        LookAt::InputSequence | LookAt::OutputValue => Ty::Int,
        LookAt::UtxoBytecode | LookAt::InputBytecode | LookAt::OutputBytecode => Ty::Bytes,
        LookAt::OutpointHash => Ty::BytesN(32),
    }
}

/// The type of what the input or output at an index of this type has.
#[tactic(auto, unfolding(crate::specs::Tables::look_at_type))]
pub fn look_at_type(alloc: Global, span: Span, look: LookAt, index: &Ty) -> Result<Ty, TypeFault>
    ensures { Gives (λ x. x) result (table.look_at_type span look index.now) }
{
    suits(alloc, span, Ty::Int, index)?;
    Ok(looked_at(look))
}
