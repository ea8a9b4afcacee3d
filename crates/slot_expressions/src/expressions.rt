//! From expressions to slot code, in the order of the text.

ghost use Rattle.std.specs.Prelude.{◌≡◌, OnOk, IfOk, MatchOption, Some, None};
ghost use Rattle.cash_tree.specs.declared.ExprKind.TheVariants as exprs;
ghost use Rattle.form_tables.specs.declared.forms.CallForm.TheVariants as forms;
ghost use Rattle.slot_expressions.specs.Ready.{Ready, ReadyAll, ReadyCall, ReadyFew, ReadyFewOf, ReadyForm, ReadyItems, ReadyKind};
ghost use Rattle.slot_expressions.specs.Pieces.{IsChunk, IsSpelled, Lowers, LowersAll, LowersArray, LowersCall, LowersChunk, LowersChunks, LowersElement, LowersForm, LowersGiven, LowersItems, OtherChunk, leaves};
ghost use Rattle.slot_expressions.specs.Room.{spelled};
ghost use Rattle.type_tables.specs.Tables.{cast_effect as effect_of};

use crate::rows;
use cash_base::{LookAt, Memory, Slot, Span};
use cash_tree::{BinaryOp, Builtin, Callee, Expr, ExprKind, Ty, UnaryOp};
use element_ops::{Op1, Op2, Op3};
use form_tables::{
    CallForm, Lock, binary_form, call_form, is_int, lock_back, lock_front, unary_op,
};
use slot_code::SlotInstr;
use sqlite_items::{Boxed, Items};
use type_tables::{CastEffect, cast_effect};

/// What an expression leaves: an element, or both parts of a split.
#[derive(Clone, Copy, Debug, PartialEq, Eq)]
pub enum Width {
    One,
    Two,
}

/// A law: the value of a ready cast is ready.
fn cast_is_ready(
    e: &Expr<Slot, Ty>,
    to: &Ty,
    value: &Boxed<Expr<Slot, Ty>>,
    size: &Option<Boxed<Expr<Slot, Ty>>>,
)
    requires kind { e.now.kind ≡ exprs.Cast to.now value.now size.now }
    requires ready { ReadyKind e.now.kind }
    ensures { Ready value.now }
{}

/// A law: so is its size.
fn size_is_ready(
    e: &Expr<Slot, Ty>,
    to: &Ty,
    value: &Boxed<Expr<Slot, Ty>>,
    size: &Boxed<Expr<Slot, Ty>>,
)
    requires kind { e.now.kind ≡ exprs.Cast to.now value.now (Some size.now) }
    requires ready { ReadyKind e.now.kind }
    ensures { Ready size.now }
{}

/// A law: the items of a ready array of few items are ready, and few.
fn items_are_ready(e: &Expr<Slot, Ty>, items: &Items<Expr<Slot, Ty>>)
    requires kind { e.now.kind ≡ exprs.Array items.now }
    requires ready { ReadyFew e.now }
    ensures { ReadyFewOf items.now }
{}

/// Adds the code of an expression to that of its statement, whose place is `checking`, and answers what it leaves.
///
/// It calls itself as deep as the expression is, so no instruction is in a local variable here, and most forms have a function of
/// their own.
#[tactic(auto, using(crate::proofs::Lowered::lowers_int, crate::proofs::Lowered::lowers_bool, crate::proofs::Lowered::lowers_hex, crate::proofs::Lowered::lowers_text, crate::proofs::Lowered::lowers_date, crate::proofs::Lowered::lowers_name, crate::proofs::Lowered::lowers_look0, crate::proofs::Lowered::lowers_cast, crate::proofs::Lowered::lowers_sized_cast, crate::proofs::Readies::int_in_range, crate::proofs::Readies::date_in_range, crate::proofs::Readies::hex_fits, crate::proofs::Readies::text_fits, crate::proofs::Readies::unary_readies, crate::proofs::Readies::binary_first, crate::proofs::Readies::binary_second, crate::proofs::Readies::length_readies, crate::proofs::Readies::reverse_readies, crate::proofs::Readies::split_first, crate::proofs::Readies::split_second, crate::proofs::Readies::index_readies, crate::proofs::Readies::call_readies, crate::proofs::Readies::new_readies, crate::proofs::Readies::no_array, crate::proofs::Readies::look_at_readies))]
#[cycle(expression)]
fn kind(e: &Expr<Slot, Ty>, code: &mut Items<SlotInstr>, checking: Span) -> Result<Width, Memory>
    requires { ReadyKind e.now.kind }
    ensures { IfOk result (λ width. Lowers code.old code.new checking e.now.kind e.now.span width) }
{
    let span = e.span;
    match &e.kind {
        ExprKind::Int { digits, unit } => {
            rows::spelled(code, *digits, *unit, span, checking)?;
            Ok(Width::One)
        }
        ExprKind::Bool(b) => {
            rows::truth(code, *b, span, checking)?;
            Ok(Width::One)
        }
        ExprKind::Hex(bytes) => {
            rows::bytes(code, bytes.as_slice(), span, checking)?;
            Ok(Width::One)
        }
        ExprKind::Text(bytes) => {
            rows::bytes(code, bytes.as_slice(), span, checking)?;
            Ok(Width::One)
        }
        ExprKind::Date(seconds) => {
            rows::date(code, *seconds, span, checking)?;
            Ok(Width::One)
        }
        ExprKind::Name(slot) => {
            rows::get(code, *slot, span, checking)?;
            Ok(Width::One)
        }
        ExprKind::Unary(op, a) => on_unary(e, code, *op, a, checking),
        ExprKind::Binary(op, a, b) => on_binary(e, code, *op, a, b, checking),
        ExprKind::Length(a) => on_length(e, code, a, checking),
        ExprKind::Reverse(a) => on_reverse(e, code, a, checking),
        ExprKind::Split(a, b) => on_split(e, code, a, b, checking),
        ExprKind::Index(a, number) => on_index(e, code, a, *number, checking),
        ExprKind::Cast { to, value, size } => {
            cast_is_ready(e, to, value, size);
            element(value.get(), code, checking)?;
            match size {
                None => {
                    rows::cast(code, cast_effect(to, &value.get().ty), span, checking)?;
                    Ok(Width::One)
                }
                Some(size) => {
                    size_is_ready(e, to, value, size);
                    element(size.get(), code, checking)?;
                    rows::do2(code, Op2::Pad, span, checking)?;
                    Ok(Width::One)
                }
            }
        }
        ExprKind::Call { callee, args } => on_call(e, code, *callee, args, checking),
        ExprKind::New { callee, args } => on_new(e, code, *callee, args, checking),
        ExprKind::Array(_) => unreachable!(),
        ExprKind::Look0(what) => {
            rows::look0(code, *what, span, checking)?;
            Ok(Width::One)
        }
        ExprKind::LookAt(what, a) => on_look_at(e, code, *what, a, checking),
    }
}

/// Adds the code of an expression, and answers what it leaves.
#[tactic(auto, using(crate::proofs::Lowered::lowers_given, crate::proofs::Readies::whole_readies))]
#[cycle(expression)]
pub fn given(
    e: &Expr<Slot, Ty>,
    code: &mut Items<SlotInstr>,
    checking: Span,
) -> Result<Width, Memory>
    requires { Ready e.now }
    ensures { IfOk result (λ width. LowersGiven code.old code.new checking e.now width) }
{
    let width = kind(e, code, checking)?;
    Ok(width)
}

/// Adds the code of an expression whose element is wanted.
#[tactic(auto, using(crate::proofs::Lowered::lowers_element))]
#[cycle(expression)]
pub fn element(
    e: &Expr<Slot, Ty>,
    code: &mut Items<SlotInstr>,
    checking: Span,
) -> Result<(), Memory>
    requires { Ready e.now }
    ensures { OnOk result (LowersElement code.old code.new checking e.now) }
{
    let width = given(e, code, checking)?;
    rows::part(code, width, false, checking, checking)?;
    Ok(())
}

/// An operator with one side.
#[tactic(auto, using(crate::proofs::Lowered::lowers_unary))]
#[cycle(expression)]
#[inline(never)]
fn on_unary(
    e: &Expr<Slot, Ty>,
    code: &mut Items<SlotInstr>,
    op: UnaryOp,
    a: &Boxed<Expr<Slot, Ty>>,
    checking: Span,
) -> Result<Width, Memory>
    requires kind { e.now.kind ≡ exprs.Unary op a.now }
    requires first { Ready a.now }
    ensures { IfOk result (λ width. Lowers code.old code.new checking e.now.kind e.now.span width) }
{
    element(a.get(), code, checking)?;
    rows::do1(code, unary_op(op), e.span, checking)?;
    Ok(Width::One)
}

/// An operator with two sides.
#[tactic(auto, using(crate::proofs::Lowered::lowers_binary))]
#[cycle(expression)]
#[inline(never)]
fn on_binary(
    e: &Expr<Slot, Ty>,
    code: &mut Items<SlotInstr>,
    op: BinaryOp,
    left: &Boxed<Expr<Slot, Ty>>,
    right: &Boxed<Expr<Slot, Ty>>,
    checking: Span,
) -> Result<Width, Memory>
    requires kind { e.now.kind ≡ exprs.Binary op left.now right.now }
    requires first { Ready left.now }
    requires second { Ready right.now }
    ensures { IfOk result (λ width. Lowers code.old code.new checking e.now.kind e.now.span width) }
{
    element(left.get(), code, checking)?;
    element(right.get(), code, checking)?;
    rows::binary(
        code,
        binary_form(is_int(&left.get().ty), op),
        e.span,
        checking,
    )?;
    Ok(Width::One)
}

/// `a.length`
#[tactic(auto, using(crate::proofs::Lowered::lowers_length))]
#[cycle(expression)]
#[inline(never)]
fn on_length(
    e: &Expr<Slot, Ty>,
    code: &mut Items<SlotInstr>,
    a: &Boxed<Expr<Slot, Ty>>,
    checking: Span,
) -> Result<Width, Memory>
    requires kind { e.now.kind ≡ exprs.Length a.now }
    requires first { Ready a.now }
    ensures { IfOk result (λ width. Lowers code.old code.new checking e.now.kind e.now.span width) }
{
    element(a.get(), code, checking)?;
    rows::do1(code, Op1::Size, e.span, checking)?;
    Ok(Width::One)
}

/// `a.reverse()`
#[tactic(auto, using(crate::proofs::Lowered::lowers_reverse))]
#[cycle(expression)]
#[inline(never)]
fn on_reverse(
    e: &Expr<Slot, Ty>,
    code: &mut Items<SlotInstr>,
    a: &Boxed<Expr<Slot, Ty>>,
    checking: Span,
) -> Result<Width, Memory>
    requires kind { e.now.kind ≡ exprs.Reverse a.now }
    requires first { Ready a.now }
    ensures { IfOk result (λ width. Lowers code.old code.new checking e.now.kind e.now.span width) }
{
    element(a.get(), code, checking)?;
    rows::do1(code, Op1::Reverse, e.span, checking)?;
    Ok(Width::One)
}

/// `a.split(b)`
#[tactic(auto, using(crate::proofs::Lowered::lowers_split))]
#[cycle(expression)]
#[inline(never)]
fn on_split(
    e: &Expr<Slot, Ty>,
    code: &mut Items<SlotInstr>,
    a: &Boxed<Expr<Slot, Ty>>,
    b: &Boxed<Expr<Slot, Ty>>,
    checking: Span,
) -> Result<Width, Memory>
    requires kind { e.now.kind ≡ exprs.Split a.now b.now }
    requires first { Ready a.now }
    requires second { Ready b.now }
    ensures { IfOk result (λ width. Lowers code.old code.new checking e.now.kind e.now.span width) }
{
    element(a.get(), code, checking)?;
    element(b.get(), code, checking)?;
    rows::split(code, e.span, checking)?;
    Ok(Width::Two)
}

/// `a[number]`
#[tactic(auto, using(crate::proofs::Lowered::lowers_index))]
#[cycle(expression)]
#[inline(never)]
fn on_index(
    e: &Expr<Slot, Ty>,
    code: &mut Items<SlotInstr>,
    a: &Boxed<Expr<Slot, Ty>>,
    number: u128,
    checking: Span,
) -> Result<Width, Memory>
    requires kind { e.now.kind ≡ exprs.Index a.now number }
    requires first { Ready a.now }
    ensures { IfOk result (λ width. Lowers code.old code.new checking e.now.kind e.now.span width) }
{
    let width = given(a.get(), code, checking)?;
    rows::part(code, width, number != 0, e.span, checking)?;
    Ok(Width::One)
}

/// What the input or output at an index has.
#[tactic(auto, using(crate::proofs::Lowered::lowers_look_at))]
#[cycle(expression)]
#[inline(never)]
fn on_look_at(
    e: &Expr<Slot, Ty>,
    code: &mut Items<SlotInstr>,
    what: LookAt,
    a: &Boxed<Expr<Slot, Ty>>,
    checking: Span,
) -> Result<Width, Memory>
    requires kind { e.now.kind ≡ exprs.LookAt what a.now }
    requires first { Ready a.now }
    ensures { IfOk result (λ width. Lowers code.old code.new checking e.now.kind e.now.span width) }
{
    element(a.get(), code, checking)?;
    rows::look_at(code, what, e.span, checking)?;
    Ok(Width::One)
}

/// A call of a built-in function.
#[tactic(auto, using(crate::proofs::Lowered::lowers_called))]
#[cycle(expression)]
#[inline(never)]
fn on_call(
    e: &Expr<Slot, Ty>,
    code: &mut Items<SlotInstr>,
    callee: Callee,
    args: &Items<Expr<Slot, Ty>>,
    checking: Span,
) -> Result<Width, Memory>
    requires kind { e.now.kind ≡ exprs.Call callee args.now }
    requires args { ReadyCall callee args.now }
    ensures { IfOk result (λ width. Lowers code.old code.new checking e.now.kind e.now.span width) }
{
    call(args.as_slice(), code, e.span, callee, checking)?;
    Ok(Width::One)
}

/// `new` and the call of an instantiation.
#[tactic(auto, using(crate::proofs::Lowered::lowers_new))]
#[cycle(expression)]
#[inline(never)]
fn on_new(
    e: &Expr<Slot, Ty>,
    code: &mut Items<SlotInstr>,
    callee: Callee,
    args: &Items<Expr<Slot, Ty>>,
    checking: Span,
) -> Result<Width, Memory>
    requires kind { e.now.kind ≡ exprs.New callee args.now }
    requires args { ReadyCall callee args.now }
    ensures { IfOk result (λ width. Lowers code.old code.new checking e.now.kind e.now.span width) }
{
    call(args.as_slice(), code, e.span, callee, checking)?;
    Ok(Width::One)
}

/// A call of a built-in function or of an instantiation.
#[tactic(auto, using(crate::proofs::Lowered::lowers_call, crate::proofs::Readies::known_readies, crate::proofs::Readies::unknown_never))]
#[cycle(expression)]
#[inline(never)]
fn call(
    args: &[Expr<Slot, Ty>],
    code: &mut Items<SlotInstr>,
    span: Span,
    callee: Callee,
    checking: Span,
) -> Result<(), Memory>
    requires { ReadyCall callee args.now }
    ensures { OnOk result (LowersCall code.old code.new checking span callee args.now) }
{
    let Callee::Known(builtin) = callee else {
        unreachable!()
    };
    match call_form(builtin) {
        CallForm::One(op) => form_of_one(args, code, span, op, checking)?,
        CallForm::Two(op) => form_of_two(args, code, span, op, checking)?,
        CallForm::Three(op) => form_of_three(args, code, span, op, checking)?,
        CallForm::CheckSig => form_of_sig(args, code, span, checking)?,
        CallForm::CheckData => form_of_data_sig(args, code, span, checking)?,
        CallForm::CheckMulti => form_of_sigs(args, code, span, checking)?,
        CallForm::Locks(lock) => form_of_lock(args, code, span, lock, checking)?,
        CallForm::HoldsData => form_of_data(args, code, span, checking)?,
    }
    Ok(())
}

/// A function of one element.
#[tactic(auto, using(crate::proofs::Lowered::lowers_form_one, crate::proofs::Readies::one_readies))]
#[cycle(expression)]
#[inline(never)]
fn form_of_one(
    args: &[Expr<Slot, Ty>],
    code: &mut Items<SlotInstr>,
    span: Span,
    op: Op1,
    checking: Span,
) -> Result<(), Memory>
    requires { ReadyForm (forms.One op) args.now }
    ensures { OnOk result (LowersForm code.old code.new checking span (forms.One op) args.now) }
{
    let [a] = args else { unreachable!() };
    element(a, code, checking)?;
    rows::do1(code, op, span, checking)?;
    Ok(())
}

/// A function of two elements.
#[tactic(auto, using(crate::proofs::Lowered::lowers_form_two, crate::proofs::Readies::two_first, crate::proofs::Readies::two_second))]
#[cycle(expression)]
#[inline(never)]
fn form_of_two(
    args: &[Expr<Slot, Ty>],
    code: &mut Items<SlotInstr>,
    span: Span,
    op: Op2,
    checking: Span,
) -> Result<(), Memory>
    requires { ReadyForm (forms.Two op) args.now }
    ensures { OnOk result (LowersForm code.old code.new checking span (forms.Two op) args.now) }
{
    let [a, b] = args else { unreachable!() };
    element(a, code, checking)?;
    element(b, code, checking)?;
    rows::do2(code, op, span, checking)?;
    Ok(())
}

/// A function of three elements.
#[tactic(auto, using(crate::proofs::Lowered::lowers_form_three, crate::proofs::Readies::three_first, crate::proofs::Readies::three_second, crate::proofs::Readies::three_third))]
#[cycle(expression)]
#[inline(never)]
fn form_of_three(
    args: &[Expr<Slot, Ty>],
    code: &mut Items<SlotInstr>,
    span: Span,
    op: Op3,
    checking: Span,
) -> Result<(), Memory>
    requires { ReadyForm (forms.Three op) args.now }
    ensures { OnOk result (LowersForm code.old code.new checking span (forms.Three op) args.now) }
{
    let [a, b, c] = args else { unreachable!() };
    element(a, code, checking)?;
    element(b, code, checking)?;
    element(c, code, checking)?;
    rows::do3(code, op, span, checking)?;
    Ok(())
}

/// `checkSig`
#[tactic(auto, using(crate::proofs::Lowered::lowers_form_sig, crate::proofs::Readies::sig_first, crate::proofs::Readies::sig_second))]
#[cycle(expression)]
#[inline(never)]
fn form_of_sig(
    args: &[Expr<Slot, Ty>],
    code: &mut Items<SlotInstr>,
    span: Span,
    checking: Span,
) -> Result<(), Memory>
    requires { ReadyForm forms.CheckSig args.now }
    ensures { OnOk result (LowersForm code.old code.new checking span forms.CheckSig args.now) }
{
    let [sig, key] = args else { unreachable!() };
    element(sig, code, checking)?;
    element(key, code, checking)?;
    rows::check_sig(code, span, checking)?;
    Ok(())
}

/// `checkDataSig`
#[tactic(auto, using(crate::proofs::Lowered::lowers_form_data_sig, crate::proofs::Readies::data_sig_first, crate::proofs::Readies::data_sig_second, crate::proofs::Readies::data_sig_third))]
#[cycle(expression)]
#[inline(never)]
fn form_of_data_sig(
    args: &[Expr<Slot, Ty>],
    code: &mut Items<SlotInstr>,
    span: Span,
    checking: Span,
) -> Result<(), Memory>
    requires { ReadyForm forms.CheckData args.now }
    ensures { OnOk result (LowersForm code.old code.new checking span forms.CheckData args.now) }
{
    let [sig, message, key] = args else {
        unreachable!()
    };
    element(sig, code, checking)?;
    element(message, code, checking)?;
    element(key, code, checking)?;
    rows::check_data(code, span, checking)?;
    Ok(())
}

/// `new LockingBytecodeP2PKH` and `new LockingBytecodeP2SH`
#[tactic(auto, using(crate::proofs::Lowered::lowers_form_lock, crate::proofs::Readies::lock_readies))]
#[cycle(expression)]
#[inline(never)]
fn form_of_lock(
    args: &[Expr<Slot, Ty>],
    code: &mut Items<SlotInstr>,
    span: Span,
    lock: Lock,
    checking: Span,
) -> Result<(), Memory>
    requires { ReadyForm (forms.Locks lock) args.now }
    ensures { OnOk result (LowersForm code.old code.new checking span (forms.Locks lock) args.now) }
{
    let [hash] = args else { unreachable!() };
    rows::literal(code, lock_front(lock), span, checking)?;
    element(hash, code, checking)?;
    rows::do2(code, Op2::Cat, span, checking)?;
    rows::literal(code, lock_back(lock), span, checking)?;
    rows::do2(code, Op2::Cat, span, checking)?;
    Ok(())
}

/// `checkMultiSig`
#[tactic(auto, using(crate::proofs::Arrays::lowers_form_sigs, crate::proofs::Readies::sigs_first, crate::proofs::Readies::sigs_second))]
#[cycle(expression)]
#[inline(never)]
fn form_of_sigs(
    args: &[Expr<Slot, Ty>],
    code: &mut Items<SlotInstr>,
    span: Span,
    checking: Span,
) -> Result<(), Memory>
    requires { ReadyForm forms.CheckMulti args.now }
    ensures { OnOk result (LowersForm code.old code.new checking span forms.CheckMulti args.now) }
{
    let [sigs, keys] = args else { unreachable!() };
    rows::literal(code, &[], span, checking)?;
    let sigs = items(sigs, code, checking)?;
    rows::count(code, sigs, span, checking)?;
    let keys = items(keys, code, checking)?;
    rows::count(code, keys, span, checking)?;
    rows::check_multi(code, sigs, keys, span, checking)?;
    Ok(())
}

/// `new LockingBytecodeNullData`
#[tactic(auto, using(crate::proofs::Arrays::lowers_form_data, crate::proofs::Readies::data_readies))]
#[cycle(expression)]
#[inline(never)]
fn form_of_data(
    args: &[Expr<Slot, Ty>],
    code: &mut Items<SlotInstr>,
    span: Span,
    checking: Span,
) -> Result<(), Memory>
    requires { ReadyForm forms.HoldsData args.now }
    ensures { OnOk result (LowersForm code.old code.new checking span forms.HoldsData args.now) }
{
    let [chunks] = args else { unreachable!() };
    rows::literal(code, &[0x6a], span, checking)?;
    chunks_of(chunks, code, span, checking)?;
    Ok(())
}

/// Adds the code of the items of an array, and answers how many they are. What is no array has none.
#[tactic(auto, using(crate::proofs::Arrays::no_items))]
#[cycle(expression)]
#[inline(never)]
fn items(e: &Expr<Slot, Ty>, code: &mut Items<SlotInstr>, checking: Span) -> Result<u8, Memory>
    requires { ReadyFew e.now }
    ensures { IfOk result (λ count. LowersItems code.old code.new checking e.now count) }
{
    match &e.kind {
        ExprKind::Array(items) => {
            items_are_ready(e, items);
            on_items(e, code, items, checking)
        }
        _ => Ok(0),
    }
}

/// Adds the code of the items of an array, and answers how many they are.
#[tactic(auto, using(crate::proofs::Arrays::lowers_items, crate::proofs::Readies::few_all, crate::proofs::Readies::few_count))]
#[cycle(expression)]
#[inline(never)]
fn on_items(
    e: &Expr<Slot, Ty>,
    code: &mut Items<SlotInstr>,
    items: &Items<Expr<Slot, Ty>>,
    checking: Span,
) -> Result<u8, Memory>
    requires kind { e.now.kind ≡ exprs.Array items.now }
    requires ready { ReadyFewOf items.now }
    ensures { IfOk result (λ count. LowersItems code.old code.new checking e.now count) }
{
    all(items.as_slice(), code, checking)?;
    Ok(items.len() as u8)
}

/// Adds the code of expressions, one after the other.
#[tactic(auto, using(crate::proofs::Arrays::left_all_none, crate::proofs::Arrays::left_all_item))]
#[cycle(expression)]
fn all(parts: &[Expr<Slot, Ty>], code: &mut Items<SlotInstr>, checking: Span) -> Result<(), Memory>
    requires { ReadyAll parts.now }
    ensures { OnOk result (LowersAll code.old code.new checking parts.now) }
{
    for part in parts {
        element(part, code, checking)?;
    }
    Ok(())
}

/// Adds the code that appends the items of an array, as chunks, to the script of data on top. What is no array has none.
#[tactic(auto, using(crate::proofs::Arrays::no_chunks, crate::proofs::Readies::items_ready))]
#[cycle(expression)]
#[inline(never)]
fn chunks_of(
    e: &Expr<Slot, Ty>,
    code: &mut Items<SlotInstr>,
    span: Span,
    checking: Span,
) -> Result<(), Memory>
    requires { ReadyItems e.now }
    ensures { OnOk result (LowersArray code.old code.new checking span e.now) }
{
    match &e.kind {
        ExprKind::Array(items) => on_chunks(e, code, span, items, checking),
        _ => Ok(()),
    }
}

/// Adds the code that appends the items of an array, as chunks.
#[tactic(auto, using(crate::proofs::Arrays::lowers_array))]
#[cycle(expression)]
#[inline(never)]
fn on_chunks(
    e: &Expr<Slot, Ty>,
    code: &mut Items<SlotInstr>,
    span: Span,
    items: &Items<Expr<Slot, Ty>>,
    checking: Span,
) -> Result<(), Memory>
    requires kind { e.now.kind ≡ exprs.Array items.now }
    requires ready { ReadyAll items.now }
    ensures { OnOk result (LowersArray code.old code.new checking span e.now) }
{
    chunks(items.as_slice(), code, span, checking)?;
    Ok(())
}

/// Adds the code that appends expressions, as chunks. Each is evaluated only when those before are appended.
#[tactic(auto, using(crate::proofs::Arrays::left_chunks_none, crate::proofs::Arrays::left_chunks_item))]
#[cycle(expression)]
fn chunks(
    parts: &[Expr<Slot, Ty>],
    code: &mut Items<SlotInstr>,
    span: Span,
    checking: Span,
) -> Result<(), Memory>
    requires { ReadyAll parts.now }
    ensures { OnOk result (LowersChunks code.old code.new checking span parts.now) }
{
    for part in parts {
        chunk(part, code, span, checking)?;
    }
    Ok(())
}

/// Adds the code that appends an expression, as a chunk. A literal is put with its prefix, where an element holds both.
#[tactic(auto, using(crate::proofs::Chunks::lowers_chunk, crate::proofs::Chunks::lowers_spelled, crate::proofs::Chunks::chunk_fits))]
#[cycle(expression)]
#[inline(never)]
fn chunk(
    part: &Expr<Slot, Ty>,
    code: &mut Items<SlotInstr>,
    span: Span,
    checking: Span,
) -> Result<(), Memory>
    requires { Ready part.now }
    ensures { OnOk result (LowersChunk code.old code.new checking span part.now) }
{
    let Some(bytes) = short_literal(part) else {
        element(part, code, checking)?;
        rows::chunk(code, span, checking)?;
        return Ok(());
    };
    rows::pushed(code, bytes, span, checking)?;
    rows::do2(code, Op2::Cat, span, checking)?;
    Ok(())
}

/// The bytes of a literal that an element holds behind their prefix.
#[tactic(auto, using(crate::proofs::Chunks::no_literal, crate::proofs::Chunks::long_literal, crate::proofs::Chunks::is_chunk))]
fn short_literal(e: &Expr<Slot, Ty>) -> Option<&[u8]>
    requires { Ready e.now }
    ensures { MatchOption result (OtherChunk e.now) (λ bytes. IsChunk e.now bytes.now) }
{
    let bytes = literal_of(e)?;
    if bytes.len() > 517 {
        return None;
    }
    Some(bytes)
}

/// The bytes of a literal, also under casts that leave it as it is.
#[tactic(auto, using(crate::proofs::Readies::whole_readies, crate::proofs::Chunks::spelled_hex, crate::proofs::Chunks::spelled_text, crate::proofs::Chunks::spelled_cast, crate::proofs::Chunks::changed_cast, crate::proofs::Chunks::empty_cast, crate::proofs::Chunks::plain_kind))]
fn literal_of(e: &Expr<Slot, Ty>) -> Option<&[u8]>
    requires { Ready e.now }
    ensures { MatchOption result (spelled e.now ≡ None) (λ bytes. IsSpelled e.now bytes.now) }
{
    match &e.kind {
        ExprKind::Hex(bytes) => Some(bytes.as_slice()),
        ExprKind::Text(bytes) => Some(bytes.as_slice()),
        ExprKind::Cast { to, value, size } => {
            cast_is_ready(e, to, value, size);
            let inner = value.get();
            if !leaves_it(to, &inner.ty, size) {
                return None;
            }
            let bytes = literal_of(inner)?;
            Some(bytes)
        }
        _ => None,
    }
}

/// Whether a cast has no operation.
fn leaves_it(to: &Ty, from: &Ty, size: &Option<Boxed<Expr<Slot, Ty>>>) -> bool
    ensures { result ≡ leaves (effect_of to.now from.now) size.now }
{
    match size {
        Some(_) => false,
        None => matches!(cast_effect(to, from), Some(CastEffect::Keep)),
    }
}
