//! The rules of calls, arrays and names, as tables.

ghost use Rattle.std.specs.Prelude.{◌≡◌, length, map, option_copied};
ghost use Rattle.type_tables.specs.Tables as table;
ghost use Rattle.type_tables.specs.Places.{Gives};

use crate::fault::TypeFault;
use crate::rules::{Binding, Item, Signature, Want};
use crate::tables::{TypedExpr, allowed, fits, is_single, suits};
use cash_base::{Slot, Span};
use cash_tree::{Builtin, Callee, ExprKind, Ty};
use sqlite_items::Boxed;
use std::alloc::Global;

// ---- arrays

/// The type of an item.
pub fn item_type(item: Item) -> Ty
    ensures { result ≡ table.item_type item }
{
    match item {
        Item::Bytes => Ty::Bytes,
        Item::Sig => Ty::Sig,
        Item::Pubkey => Ty::Pubkey,
    }
}

/// Refuses the first item that isn't cast to the wanted one.
fn items_suit(alloc: Global, span: Span, item: Item, items: &[TypedExpr]) -> Result<(), TypeFault>
    ensures { Gives (λ x. x) result (table.all_suit span (table.item_type item) (map (λ x. x.ty) items.now)) }
{
    for found in items {
        suits(alloc, span, item_type(item), &found.ty)?;
    }
    Ok(())
}

fn array_of(alloc: Global, item: Ty) -> Result<Ty, TypeFault>
    ensures { Gives (λ x. x) result (table.answer (table.array item)) }
{
    Ok(Ty::Array(Boxed::new(alloc, item)?))
}

/// The type of an array, where such items are wanted or none.
#[tactic(auto, unfolding(crate::specs::Tables::array_type))]
pub fn array_type(
    alloc: Global,
    span: Span,
    place: Option<Item>,
    items: &[TypedExpr],
) -> Result<Ty, TypeFault>
    ensures { Gives (λ x. x) result (table.array_type span place (map (λ x. x.ty) items.now)) }
{
    let Some(first) = items.first() else {
        return Err(TypeFault::EmptyArray { span });
    };
    let Some(item) = place else {
        return Ok(array_of(alloc, first.ty.copy(alloc)?)?);
    };
    items_suit(alloc, span, item, items)?;
    Ok(array_of(alloc, item_type(item))?)
}

// ---- functions and instantiations

fn takes(first: Option<Want>, second: Option<Want>, third: Option<Want>) -> Signature
    ensures { result ≡ table.takes first second third }
{
    Signature {
        first,
        second,
        third,
    }
}

/// What a call without arguments wants.
#[tactic(auto, unfolding(crate::specs::Tables::nothing))]
pub fn nothing() -> Signature
    ensures { result ≡ table.nothing }
{
    takes(None, None, None)
}

fn signature_of(builtin: Builtin) -> Signature
    ensures { result ≡ table.signature_of builtin }
{
    let int = Some(Want::Int);
    let single = Some(Want::Single);
    let pubkey = Some(Want::Pubkey);
    let hash = Some(Want::Hash);
    match builtin {
        Builtin::Abs => takes(int, None, None),
        Builtin::Min | Builtin::Max => takes(int, int, None),
        Builtin::Within => takes(int, int, int),
        Builtin::Ripemd160 | Builtin::Sha1 | Builtin::Sha256 => takes(single, None, None),
        Builtin::Hash160 | Builtin::Hash256 => takes(single, None, None),
        Builtin::CheckSig => takes(Some(Want::Sig), pubkey, None),
        Builtin::CheckDataSig => takes(Some(Want::Datasig), Some(Want::Bytes), pubkey),
        Builtin::CheckMultiSig => {
            let sigs = Some(Want::Items(Item::Sig));
            let keys = Some(Want::Items(Item::Pubkey));
            takes(sigs, keys, None)
        }
        Builtin::LockingBytecodeP2PKH | Builtin::LockingBytecodeP2SH => takes(hash, None, None),
        Builtin::LockingBytecodeNullData => takes(Some(Want::Items(Item::Bytes)), None, None),
    }
}

/// What a call wants of its arguments.
#[tactic(auto, unfolding(crate::specs::Tables::signature))]
pub fn signature(callee: Callee) -> Signature
    ensures { result ≡ table.signature callee }
{
    match callee {
        Callee::Known(builtin) => signature_of(builtin),
        Callee::Unknown(_) => nothing(),
    }
}

fn given_by(builtin: Builtin) -> Ty
    ensures { result ≡ table.given_by builtin }
{
    match builtin {
        Builtin::Abs | Builtin::Min | Builtin::Max => Ty::Int,
        Builtin::Within => Ty::Bool,
        Builtin::Ripemd160 | Builtin::Sha1 | Builtin::Hash160 => Ty::BytesN(20),
        Builtin::Sha256 | Builtin::Hash256 => Ty::BytesN(32),
        Builtin::CheckSig | Builtin::CheckDataSig | Builtin::CheckMultiSig => Ty::Bool,
        Builtin::LockingBytecodeP2PKH => Ty::BytesN(25),
        Builtin::LockingBytecodeP2SH => Ty::BytesN(23),
        Builtin::LockingBytecodeNullData => Ty::Bytes,
    }
}

fn given(callee: Callee) -> Ty
    ensures { result ≡ table.given callee }
{
    match callee {
        Callee::Known(builtin) => given_by(builtin),
        Callee::Unknown(_) => Ty::Int,
    }
}

fn want_type(alloc: Global, want: Want) -> Result<Ty, TypeFault>
    ensures { Gives (λ x. x) result (table.answer (table.want_type want)) }
{
    match want {
        Want::Int => Ok(Ty::Int),
        Want::Single | Want::Bytes => Ok(Ty::Bytes),
        Want::Sig => Ok(Ty::Sig),
        Want::Pubkey => Ok(Ty::Pubkey),
        Want::Datasig => Ok(Ty::Datasig),
        Want::Hash => Ok(Ty::BytesN(20)),
        Want::Items(item) => Ok(array_of(alloc, item_type(item))?),
    }
}

fn is_array_of(item: Item, ty: &Ty) -> bool
    ensures { result ≡ table.is_array_of item ty.now }
{
    match ty {
        Ty::Array(found) => fits(&item_type(item), found.get()),
        _ => false,
    }
}

/// Whether an argument of this type fits.
fn accepts(want: Want, ty: &Ty) -> bool
    ensures { result ≡ table.accepts want ty.now }
{
    match want {
        Want::Int => fits(&Ty::Int, ty),
        Want::Single => is_single(ty),
        Want::Sig => fits(&Ty::Sig, ty),
        Want::Pubkey => fits(&Ty::Pubkey, ty),
        Want::Datasig => fits(&Ty::Datasig, ty),
        Want::Bytes => fits(&Ty::Bytes, ty),
        Want::Hash => fits(&Ty::BytesN(20), ty),
        Want::Items(item) => is_array_of(item, ty),
    }
}

fn place_of(want: Option<Want>) -> Option<Item>
    ensures { result ≡ table.place_of want }
{
    match want {
        Some(Want::Items(item)) => Some(item),
        _ => None,
    }
}

/// What the items of an array are cast to, where it is the argument of this number.
#[tactic(auto, unfolding(crate::specs::Tables::place_at))]
pub fn place_at(signature: Signature, at: usize) -> Option<Item>
    ensures { result ≡ table.place_at signature at }
{
    match at {
        0 => place_of(signature.first),
        1 => place_of(signature.second),
        2 => place_of(signature.third),
        _ => None,
    }
}

fn filled(want: Option<Want>) -> u32
    ensures { result ≡ table.filled want }
{
    match want {
        None => 0,
        Some(_) => 1,
    }
}

/// A number of arguments or keys as a fault tells it.
fn told(n: usize) -> u32
    ensures { result ≡ table.told n }
{
    if n < 1 << 32 {
        return n as u32;
    }
    u32::MAX
}

fn counted(span: Span, signature: Signature, n: usize) -> Result<(), TypeFault>
    ensures { result ≡ table.counted span signature n }
{
    let first = filled(signature.first);
    let second = filled(signature.second);
    let third = filled(signature.third);
    let wanted = first.saturating_add(second).saturating_add(third);
    if n != wanted as usize {
        let found = told(n);
        return Err(TypeFault::WrongCount {
            span,
            wanted,
            found,
        });
    }
    Ok(())
}

fn accepted(
    alloc: Global,
    span: Span,
    want: Option<Want>,
    args: &[TypedExpr],
    at: usize,
) -> Result<(), TypeFault>
    ensures { Gives (λ x. x) result (table.accepted_at span want args.now at) }
{
    let Some(want) = want else {
        return Ok(());
    };
    let Some(arg) = args.get(at) else {
        return Ok(());
    };
    let wanted = want_type(alloc, want)?;
    allowed(alloc, span, accepts(want, &arg.ty), wanted, &arg.ty)
}

fn arguments_suit(
    alloc: Global,
    span: Span,
    signature: Signature,
    args: &[TypedExpr],
) -> Result<(), TypeFault>
    ensures { Gives (λ x. x) result (table.arguments_suit span signature args.now) }
{
    accepted(alloc, span, signature.first, args, 0)?;
    accepted(alloc, span, signature.second, args, 1)?;
    accepted(alloc, span, signature.third, args, 2)?;
    Ok(())
}

/// How many items an array has: what isn't an array has none.
#[tactic(auto, using(crate::proofs::Lists::mapped))]
fn item_count(kind: &ExprKind<Slot, Ty>) -> usize
    ensures { result ≡ table.item_count kind.now }
{
    match kind {
        ExprKind::Array(items) => items.len(),
        _ => 0,
    }
}

/// How many items the argument of this number has.
fn items_at(args: &[TypedExpr], at: usize) -> usize
    ensures { result ≡ table.items_at args.now at }
{
    match args.get(at) {
        Some(arg) => item_count(&arg.kind),
        None => 0,
    }
}

fn is_multi(callee: Callee) -> bool
    ensures { result ≡ table.is_multi callee }
{
    matches!(callee, Callee::Known(Builtin::CheckMultiSig))
}

fn keys_counted(span: Span, callee: Callee, keys: usize) -> Result<(), TypeFault>
    ensures { result ≡ table.keys_counted span callee keys }
{
    if is_multi(callee) && 20 < keys {
        let found = told(keys);
        return Err(TypeFault::WrongCount {
            span,
            wanted: 20,
            found,
        });
    }
    Ok(())
}

fn sigs_counted(span: Span, callee: Callee, sigs: usize, keys: usize) -> Result<(), TypeFault>
    ensures { result ≡ table.sigs_counted span callee sigs keys }
{
    if is_multi(callee) && keys < sigs {
        return Err(TypeFault::MoreSigsThanKeys { span });
    }
    Ok(())
}

/// The type of a call with these arguments.
#[tactic(auto, unfolding(crate::specs::Tables::call_type))]
pub fn call_type(
    alloc: Global,
    span: Span,
    callee: Callee,
    args: &[TypedExpr],
) -> Result<Ty, TypeFault>
    ensures { Gives (λ x. x) result (table.call_type span callee args.now) }
{
    counted(span, signature(callee), args.len())?;
    let sigs = items_at(args, 0);
    let keys = items_at(args, 1);
    keys_counted(span, callee, keys)?;
    arguments_suit(alloc, span, signature(callee), args)?;
    sigs_counted(span, callee, sigs, keys)?;
    Ok(given(callee))
}

// ---- names

/// The type of the name of a slot.
pub fn type_at(alloc: Global, slot: Slot, env: &[Binding]) -> Result<Ty, TypeFault>
    ensures { Gives (λ x. x) result (table.answer (table.type_at slot env.now)) }
{
    for binding in env {
        if binding.slot.0 == slot.0 {
            return Ok(binding.ty.copy(alloc)?);
        }
    }
    Ok(Ty::Int)
}

fn number_literal(digits: u128, unit: u64) -> Option<u128>
    ensures { result ≡ table.number_literal digits unit }
{
    match digits.checked_mul(u128::from(unit)) {
        Some(n) if n < 1 << 63 => Some(n),
        _ => None,
    }
}

fn date_literal(seconds: i64) -> Option<u128>
    ensures { result ≡ table.date_literal seconds }
{
    if seconds < 0 {
        return None;
    }
    Some(u128::from(seconds.unsigned_abs()))
}

/// The value of a literal number or date.
#[tactic(auto, unfolding(crate::specs::Tables::literal_of))]
pub fn literal_of(e: &TypedExpr) -> Option<u128>
    ensures { result ≡ table.literal_of e.now }
{
    match &e.kind {
        ExprKind::Int { digits, unit } => number_literal(*digits, *unit),
        ExprKind::Date(seconds) => date_literal(*seconds),
        _ => None,
    }
}
