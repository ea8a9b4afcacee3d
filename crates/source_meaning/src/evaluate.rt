//! The values of expressions, from left to right.

ghost use Rattle.std.specs.Prelude.{◌≡◌, ◌+◌, ◌≤◌, length, map, IfOk, IfErr, OnOk, Ok, Err, Some, None, [], ◌∷◌};
ghost use Rattle.cash_base.specs.declared.fault.Cause.TheVariants.{CheckFailed};
ghost use Rattle.cash_tree.specs.declared.ExprKind.TheVariants as exprs;
ghost use Rattle.cash_tree.specs.Nodes.{total};
ghost use Rattle.form_tables.specs.Forms.{data_front};
ghost use Rattle.form_tables.specs.declared.forms.CallForm.TheVariants as forms;
ghost use Rattle.meaning_room.specs.Meaning.{One as GivenOne, element, call_value, form_value, items_of, kind_gives, kind_lists, node_of, value_of, with_chunks};
ghost use Rattle.source_meaning.specs.Runnable.{node_count, kind_count};
ghost use Rattle.meaning_room.specs.Names.{env_of};
ghost use Rattle.meaning_room.specs.Stack.{top, below, size, given_on, under, pushed_all};

use cash_base::{Cause, LookAt, Slot, Span};
use cash_tree::{BinaryOp, Callee, Expr, ExprKind, Ty, UnaryOp};
use element_ops::{Op1, Op2, Op3};
use form_tables::{BinaryForm, CallForm, Lock, binary_form, call_form, is_int, unary_op};
use meaning_room::{Failure, Names, Operands, Width, World};
use sqlite_items::{Boxed, Items};
use type_tables::cast_effect;

/// What has no type, and so no value.
fn untyped(span: Span) -> Failure
    ensures { result ≡ record { span = span; cause = CheckFailed } }
{
    let cause = Cause::CheckFailed;
    Failure { span, cause }
}

/// A law: a cast has more nodes than its value.
fn cast_is_counted(
    e: &Expr<Slot, Ty>,
    to: &Ty,
    value: &Boxed<Expr<Slot, Ty>>,
    size: &Option<Boxed<Expr<Slot, Ty>>>,
)
    requires { e.now.kind ≡ exprs.Cast to.now value.now size.now }
    ensures { node_count value.now + 1 ≤ kind_count e.now.kind }
{}

/// A law: a cast with a size has one node more than its parts.
fn sized_cast_is_counted(
    e: &Expr<Slot, Ty>,
    to: &Ty,
    value: &Boxed<Expr<Slot, Ty>>,
    size: &Boxed<Expr<Slot, Ty>>,
)
    requires { e.now.kind ≡ exprs.Cast to.now value.now (Some size.now) }
    ensures { node_count value.now + node_count size.now + 1 ≡ kind_count e.now.kind }
{}

/// Puts what an expression gives, and answers how many values that are.
///
/// It calls itself as deep as the expression is, so no element is in a local variable here, and most forms have a function of
/// their own, whose parts stand in no other frame.
#[tactic(auto, using(crate::proofs::Steps::int_gives, crate::proofs::Steps::bool_gives, crate::proofs::Steps::hex_gives, crate::proofs::Steps::text_gives, crate::proofs::Steps::date_gives, crate::proofs::Steps::name_gives, crate::proofs::Steps::array_gives, crate::proofs::Steps::look0_gives, crate::proofs::Steps::cast_gives, crate::proofs::Steps::sized_cast_gives, crate::proofs::Steps::int_counted, crate::proofs::Steps::bool_counted, crate::proofs::Steps::hex_counted, crate::proofs::Steps::text_counted, crate::proofs::Steps::date_counted, crate::proofs::Steps::name_counted, crate::proofs::Steps::array_counted, crate::proofs::Steps::look0_counted, crate::proofs::Steps::unary_counted, crate::proofs::Steps::binary_counted, crate::proofs::Steps::length_counted, crate::proofs::Steps::reverse_counted, crate::proofs::Steps::split_counted, crate::proofs::Steps::index_counted, crate::proofs::Steps::look_at_counted, crate::proofs::Steps::call_counted, crate::proofs::Steps::new_counted))]
#[cycle(expression)]
pub fn evaluate(
    operands: &mut Operands,
    e: &Expr<Slot, Ty>,
    names: &Names,
    world: &World<'_>,
) -> Result<Width, Failure>
    requires places { length operands.old + kind_count e.now.kind ≤ 1000 }
    ensures value { IfOk result (λ width.
        kind_gives world.now (env_of names.now) e.now.kind e.now.span ≡ Ok (given_on width operands.new)) }
    ensures rest { IfOk result (λ width. under width operands.new ≡ operands.old) }
    ensures height { IfOk result (λ width. length operands.new ≡ length operands.old + size width) }
    ensures err { IfErr result (λ failure. kind_gives world.now (env_of names.now) e.now.kind e.now.span ≡ Err failure) }
{
    let span = e.span;
    match &e.kind {
        ExprKind::Int { digits, unit } => {
            operands.literal(*digits, *unit, span)?;
            Ok(Width::One)
        }
        ExprKind::Bool(b) => {
            operands.truth_value(*b);
            Ok(Width::One)
        }
        ExprKind::Hex(bytes) => {
            operands.bytes(bytes.as_slice(), span)?;
            Ok(Width::One)
        }
        ExprKind::Text(bytes) => {
            operands.bytes(bytes.as_slice(), span)?;
            Ok(Width::One)
        }
        ExprKind::Date(seconds) => {
            operands.date(*seconds, span)?;
            Ok(Width::One)
        }
        ExprKind::Name(slot) => {
            operands.name(*slot, names);
            Ok(Width::One)
        }
        ExprKind::Unary(op, a) => on_unary(operands, e, *op, a, names, world),
        ExprKind::Binary(op, a, b) => on_binary(operands, e, *op, a, b, names, world),
        ExprKind::Length(a) => on_length(operands, e, a, names, world),
        ExprKind::Reverse(a) => on_reverse(operands, e, a, names, world),
        ExprKind::Split(a, b) => on_split(operands, e, a, b, names, world),
        ExprKind::Index(a, number) => on_index(operands, e, a, *number, names, world),
        ExprKind::Cast { to, value, size } => {
            cast_is_counted(e, to, value, size);
            one(operands, value.get(), names, world)?;
            match size {
                None => {
                    let effect = cast_effect(to, &value.get().ty);
                    operands.cast(effect, span)?;
                    Ok(Width::One)
                }
                Some(size) => {
                    sized_cast_is_counted(e, to, value, size);
                    one(operands, size.get(), names, world)?;
                    operands.binary(BinaryForm::Is(Op2::Pad), span)?;
                    Ok(Width::One)
                }
            }
        }
        ExprKind::Call { callee, args } => on_call(operands, e, *callee, args, names, world),
        ExprKind::New { callee, args } => on_new(operands, e, *callee, args, names, world),
        ExprKind::Array(_) => Err(untyped(span)),
        ExprKind::Look0(what) => {
            operands.look0(*what, world, span)?;
            Ok(Width::One)
        }
        ExprKind::LookAt(what, a) => on_look_at(operands, e, *what, a, names, world),
    }
}

/// Puts the element of an expression.
#[tactic(auto, using(crate::proofs::Steps::whole_given, crate::proofs::Steps::whole_counted, crate::proofs::Steps::some_node))]
#[cycle(expression)]
pub fn one(
    operands: &mut Operands,
    e: &Expr<Slot, Ty>,
    names: &Names,
    world: &World<'_>,
) -> Result<(), Failure>
    requires places { length operands.old + node_count e.now ≤ 1000 }
    ensures value { OnOk result (element (value_of world.now (env_of names.now) e.now) ≡ Ok (top operands.new)) }
    ensures rest { OnOk result (below operands.new ≡ operands.old) }
    ensures height { OnOk result (length operands.new ≡ length operands.old + 1) }
    ensures some { 1 ≤ node_count e.now }
    ensures err { IfErr result (λ failure. element (value_of world.now (env_of names.now) e.now) ≡ Err failure) }
{
    let width = evaluate(operands, e, names, world)?;
    operands.keep_left(width);
    Ok(())
}

/// Puts what an expression gives, both parts of a split too.
#[tactic(auto, using(crate::proofs::Steps::whole_given, crate::proofs::Steps::whole_counted))]
#[cycle(expression)]
pub fn given(
    operands: &mut Operands,
    e: &Expr<Slot, Ty>,
    names: &Names,
    world: &World<'_>,
) -> Result<Width, Failure>
    requires places { length operands.old + node_count e.now ≤ 1000 }
    ensures value { IfOk result (λ width. value_of world.now (env_of names.now) e.now ≡ Ok (given_on width operands.new)) }
    ensures rest { IfOk result (λ width. under width operands.new ≡ operands.old) }
    ensures height { IfOk result (λ width. length operands.new ≡ length operands.old + size width) }
    ensures err { IfErr result (λ failure. value_of world.now (env_of names.now) e.now ≡ Err failure) }
{
    let width = evaluate(operands, e, names, world)?;
    Ok(width)
}

/// An operator with one side.
#[tactic(auto, using(crate::proofs::Steps::unary_gives))]
#[cycle(expression)]
#[inline(never)]
fn on_unary(
    operands: &mut Operands,
    e: &Expr<Slot, Ty>,
    op: UnaryOp,
    a: &Boxed<Expr<Slot, Ty>>,
    names: &Names,
    world: &World<'_>,
) -> Result<Width, Failure>
    requires kind { e.now.kind ≡ exprs.Unary op a.now }
    requires places { length operands.old + (node_count a.now + 1) ≤ 1000 }
    ensures value { IfOk result (λ width.
        kind_gives world.now (env_of names.now) e.now.kind e.now.span ≡ Ok (given_on width operands.new)) }
    ensures rest { IfOk result (λ width. under width operands.new ≡ operands.old) }
    ensures height { IfOk result (λ width. length operands.new ≡ length operands.old + size width) }
    ensures err { IfErr result (λ failure. kind_gives world.now (env_of names.now) e.now.kind e.now.span ≡ Err failure) }
{
    one(operands, a.get(), names, world)?;
    operands.unary(unary_op(op), e.span)?;
    Ok(Width::One)
}

/// An operator with two sides.
#[tactic(auto, using(crate::proofs::Steps::binary_gives))]
#[cycle(expression)]
#[inline(never)]
fn on_binary(
    operands: &mut Operands,
    e: &Expr<Slot, Ty>,
    op: BinaryOp,
    left: &Boxed<Expr<Slot, Ty>>,
    right: &Boxed<Expr<Slot, Ty>>,
    names: &Names,
    world: &World<'_>,
) -> Result<Width, Failure>
    requires kind { e.now.kind ≡ exprs.Binary op left.now right.now }
    requires places { length operands.old + (node_count left.now + node_count right.now + 1) ≤ 1000 }
    ensures value { IfOk result (λ width.
        kind_gives world.now (env_of names.now) e.now.kind e.now.span ≡ Ok (given_on width operands.new)) }
    ensures rest { IfOk result (λ width. under width operands.new ≡ operands.old) }
    ensures height { IfOk result (λ width. length operands.new ≡ length operands.old + size width) }
    ensures err { IfErr result (λ failure. kind_gives world.now (env_of names.now) e.now.kind e.now.span ≡ Err failure) }
{
    one(operands, left.get(), names, world)?;
    one(operands, right.get(), names, world)?;
    let form = binary_form(is_int(&left.get().ty), op);
    operands.binary(form, e.span)?;
    Ok(Width::One)
}

/// `a.length`
#[tactic(auto, using(crate::proofs::Steps::length_gives))]
#[cycle(expression)]
#[inline(never)]
fn on_length(
    operands: &mut Operands,
    e: &Expr<Slot, Ty>,
    a: &Boxed<Expr<Slot, Ty>>,
    names: &Names,
    world: &World<'_>,
) -> Result<Width, Failure>
    requires kind { e.now.kind ≡ exprs.Length a.now }
    requires places { length operands.old + (node_count a.now + 1) ≤ 1000 }
    ensures value { IfOk result (λ width.
        kind_gives world.now (env_of names.now) e.now.kind e.now.span ≡ Ok (given_on width operands.new)) }
    ensures rest { IfOk result (λ width. under width operands.new ≡ operands.old) }
    ensures height { IfOk result (λ width. length operands.new ≡ length operands.old + size width) }
    ensures err { IfErr result (λ failure. kind_gives world.now (env_of names.now) e.now.kind e.now.span ≡ Err failure) }
{
    one(operands, a.get(), names, world)?;
    operands.unary(Op1::Size, e.span)?;
    Ok(Width::One)
}

/// `a.reverse()`
#[tactic(auto, using(crate::proofs::Steps::reverse_gives))]
#[cycle(expression)]
#[inline(never)]
fn on_reverse(
    operands: &mut Operands,
    e: &Expr<Slot, Ty>,
    a: &Boxed<Expr<Slot, Ty>>,
    names: &Names,
    world: &World<'_>,
) -> Result<Width, Failure>
    requires kind { e.now.kind ≡ exprs.Reverse a.now }
    requires places { length operands.old + (node_count a.now + 1) ≤ 1000 }
    ensures value { IfOk result (λ width.
        kind_gives world.now (env_of names.now) e.now.kind e.now.span ≡ Ok (given_on width operands.new)) }
    ensures rest { IfOk result (λ width. under width operands.new ≡ operands.old) }
    ensures height { IfOk result (λ width. length operands.new ≡ length operands.old + size width) }
    ensures err { IfErr result (λ failure. kind_gives world.now (env_of names.now) e.now.kind e.now.span ≡ Err failure) }
{
    one(operands, a.get(), names, world)?;
    operands.unary(Op1::Reverse, e.span)?;
    Ok(Width::One)
}

/// `a.split(b)`
#[tactic(auto, using(crate::proofs::Steps::split_gives))]
#[cycle(expression)]
#[inline(never)]
fn on_split(
    operands: &mut Operands,
    e: &Expr<Slot, Ty>,
    a: &Boxed<Expr<Slot, Ty>>,
    b: &Boxed<Expr<Slot, Ty>>,
    names: &Names,
    world: &World<'_>,
) -> Result<Width, Failure>
    requires kind { e.now.kind ≡ exprs.Split a.now b.now }
    requires places { length operands.old + (node_count a.now + node_count b.now + 1) ≤ 1000 }
    ensures value { IfOk result (λ width.
        kind_gives world.now (env_of names.now) e.now.kind e.now.span ≡ Ok (given_on width operands.new)) }
    ensures rest { IfOk result (λ width. under width operands.new ≡ operands.old) }
    ensures height { IfOk result (λ width. length operands.new ≡ length operands.old + size width) }
    ensures err { IfErr result (λ failure. kind_gives world.now (env_of names.now) e.now.kind e.now.span ≡ Err failure) }
{
    one(operands, a.get(), names, world)?;
    one(operands, b.get(), names, world)?;
    operands.split(e.span)?;
    Ok(Width::Two)
}

/// `a[number]`
#[tactic(auto, using(crate::proofs::Steps::index_gives))]
#[cycle(expression)]
#[inline(never)]
fn on_index(
    operands: &mut Operands,
    e: &Expr<Slot, Ty>,
    a: &Boxed<Expr<Slot, Ty>>,
    number: u128,
    names: &Names,
    world: &World<'_>,
) -> Result<Width, Failure>
    requires kind { e.now.kind ≡ exprs.Index a.now number }
    requires places { length operands.old + (node_count a.now + 1) ≤ 1000 }
    ensures value { IfOk result (λ width.
        kind_gives world.now (env_of names.now) e.now.kind e.now.span ≡ Ok (given_on width operands.new)) }
    ensures rest { IfOk result (λ width. under width operands.new ≡ operands.old) }
    ensures height { IfOk result (λ width. length operands.new ≡ length operands.old + size width) }
    ensures err { IfErr result (λ failure. kind_gives world.now (env_of names.now) e.now.kind e.now.span ≡ Err failure) }
{
    let width = given(operands, a.get(), names, world)?;
    operands.part(width, number);
    Ok(Width::One)
}

/// What the input or output at an index has.
#[tactic(auto, using(crate::proofs::Steps::look_at_gives))]
#[cycle(expression)]
#[inline(never)]
fn on_look_at(
    operands: &mut Operands,
    e: &Expr<Slot, Ty>,
    what: LookAt,
    a: &Boxed<Expr<Slot, Ty>>,
    names: &Names,
    world: &World<'_>,
) -> Result<Width, Failure>
    requires kind { e.now.kind ≡ exprs.LookAt what a.now }
    requires places { length operands.old + (node_count a.now + 1) ≤ 1000 }
    ensures value { IfOk result (λ width.
        kind_gives world.now (env_of names.now) e.now.kind e.now.span ≡ Ok (given_on width operands.new)) }
    ensures rest { IfOk result (λ width. under width operands.new ≡ operands.old) }
    ensures height { IfOk result (λ width. length operands.new ≡ length operands.old + size width) }
    ensures err { IfErr result (λ failure. kind_gives world.now (env_of names.now) e.now.kind e.now.span ≡ Err failure) }
{
    one(operands, a.get(), names, world)?;
    operands.look_at(what, world, e.span)?;
    Ok(Width::One)
}

/// A call of a built-in function.
#[tactic(auto, using(crate::proofs::Steps::call_gives))]
#[cycle(expression)]
#[inline(never)]
fn on_call(
    operands: &mut Operands,
    e: &Expr<Slot, Ty>,
    callee: Callee,
    args: &Items<Expr<Slot, Ty>>,
    names: &Names,
    world: &World<'_>,
) -> Result<Width, Failure>
    requires kind { e.now.kind ≡ exprs.Call callee args.now }
    requires places { length operands.old + (total (map node_count args.now) + 1) ≤ 1000 }
    ensures value { IfOk result (λ width.
        kind_gives world.now (env_of names.now) e.now.kind e.now.span ≡ Ok (given_on width operands.new)) }
    ensures rest { IfOk result (λ width. under width operands.new ≡ operands.old) }
    ensures height { IfOk result (λ width. length operands.new ≡ length operands.old + size width) }
    ensures err { IfErr result (λ failure. kind_gives world.now (env_of names.now) e.now.kind e.now.span ≡ Err failure) }
{
    let width = call(operands, e.span, callee, args.as_slice(), names, world)?;
    Ok(width)
}

/// `new` and the call of an instantiation.
#[tactic(auto, using(crate::proofs::Steps::new_gives))]
#[cycle(expression)]
#[inline(never)]
fn on_new(
    operands: &mut Operands,
    e: &Expr<Slot, Ty>,
    callee: Callee,
    args: &Items<Expr<Slot, Ty>>,
    names: &Names,
    world: &World<'_>,
) -> Result<Width, Failure>
    requires kind { e.now.kind ≡ exprs.New callee args.now }
    requires places { length operands.old + (total (map node_count args.now) + 1) ≤ 1000 }
    ensures value { IfOk result (λ width.
        kind_gives world.now (env_of names.now) e.now.kind e.now.span ≡ Ok (given_on width operands.new)) }
    ensures rest { IfOk result (λ width. under width operands.new ≡ operands.old) }
    ensures height { IfOk result (λ width. length operands.new ≡ length operands.old + size width) }
    ensures err { IfErr result (λ failure. kind_gives world.now (env_of names.now) e.now.kind e.now.span ≡ Err failure) }
{
    let width = call(operands, e.span, callee, args.as_slice(), names, world)?;
    Ok(width)
}

/// A call of a built-in function or of an instantiation.
#[cycle(expression)]
#[inline(never)]
fn call(
    operands: &mut Operands,
    span: Span,
    callee: Callee,
    args: &[Expr<Slot, Ty>],
    names: &Names,
    world: &World<'_>,
) -> Result<Width, Failure>
    requires places { length operands.old + (total (map node_count args.now) + 1) ≤ 1000 }
    ensures value { IfOk result (λ width. call_value world.now span callee (map (node_of world.now (env_of names.now)) args.now)
        ≡ Ok (given_on width operands.new)) }
    ensures rest { IfOk result (λ width. under width operands.new ≡ operands.old) }
    ensures height { IfOk result (λ width. length operands.new ≡ length operands.old + size width) }
    ensures err { IfErr result (λ failure.
        call_value world.now span callee (map (node_of world.now (env_of names.now)) args.now) ≡ Err failure) }
{
    let Callee::Known(builtin) = callee else {
        return Err(untyped(span));
    };
    match call_form(builtin) {
        CallForm::One(op) => form_of_one(operands, span, op, args, names, world)?,
        CallForm::Two(op) => form_of_two(operands, span, op, args, names, world)?,
        CallForm::Three(op) => form_of_three(operands, span, op, args, names, world)?,
        CallForm::CheckSig => form_of_sig(operands, span, args, names, world)?,
        CallForm::CheckData => form_of_data_sig(operands, span, args, names, world)?,
        CallForm::CheckMulti => form_of_sigs(operands, span, args, names, world)?,
        CallForm::Locks(lock) => form_of_lock(operands, span, lock, args, names, world)?,
        CallForm::HoldsData => form_of_data(operands, span, args, names, world)?,
    }
    Ok(Width::One)
}

/// A function of one element.
#[cycle(expression)]
#[inline(never)]
fn form_of_one(
    operands: &mut Operands,
    span: Span,
    op: Op1,
    args: &[Expr<Slot, Ty>],
    names: &Names,
    world: &World<'_>,
) -> Result<(), Failure>
    requires places { length operands.old + (total (map node_count args.now) + 1) ≤ 1000 }
    ensures value { OnOk result (form_value world.now span (forms.One op) (map (node_of world.now (env_of names.now)) args.now)
        ≡ Ok (GivenOne (top operands.new))) }
    ensures rest { OnOk result (below operands.new ≡ operands.old) }
    ensures height { OnOk result (length operands.new ≡ length operands.old + 1) }
    ensures err { IfErr result (λ failure.
        form_value world.now span (forms.One op) (map (node_of world.now (env_of names.now)) args.now) ≡ Err failure) }
{
    let [a] = args else {
        return Err(untyped(span));
    };
    one(operands, a, names, world)?;
    operands.unary(op, span)?;
    Ok(())
}

/// A function of two elements.
#[cycle(expression)]
#[inline(never)]
fn form_of_two(
    operands: &mut Operands,
    span: Span,
    op: Op2,
    args: &[Expr<Slot, Ty>],
    names: &Names,
    world: &World<'_>,
) -> Result<(), Failure>
    requires places { length operands.old + (total (map node_count args.now) + 1) ≤ 1000 }
    ensures value { OnOk result (form_value world.now span (forms.Two op) (map (node_of world.now (env_of names.now)) args.now)
        ≡ Ok (GivenOne (top operands.new))) }
    ensures rest { OnOk result (below operands.new ≡ operands.old) }
    ensures height { OnOk result (length operands.new ≡ length operands.old + 1) }
    ensures err { IfErr result (λ failure.
        form_value world.now span (forms.Two op) (map (node_of world.now (env_of names.now)) args.now) ≡ Err failure) }
{
    let [a, b] = args else {
        return Err(untyped(span));
    };
    one(operands, a, names, world)?;
    one(operands, b, names, world)?;
    operands.binary(BinaryForm::Is(op), span)?;
    Ok(())
}

/// A function of three elements.
#[tactic(auto, using(crate::proofs::Steps::some_node))]
#[cycle(expression)]
#[inline(never)]
fn form_of_three(
    operands: &mut Operands,
    span: Span,
    op: Op3,
    args: &[Expr<Slot, Ty>],
    names: &Names,
    world: &World<'_>,
) -> Result<(), Failure>
    requires places { length operands.old + (total (map node_count args.now) + 1) ≤ 1000 }
    ensures value { OnOk result (form_value world.now span (forms.Three op) (map (node_of world.now (env_of names.now)) args.now)
        ≡ Ok (GivenOne (top operands.new))) }
    ensures rest { OnOk result (below operands.new ≡ operands.old) }
    ensures height { OnOk result (length operands.new ≡ length operands.old + 1) }
    ensures err { IfErr result (λ failure.
        form_value world.now span (forms.Three op) (map (node_of world.now (env_of names.now)) args.now) ≡ Err failure) }
{
    let [a, b, c] = args else {
        return Err(untyped(span));
    };
    one(operands, a, names, world)?;
    one(operands, b, names, world)?;
    one(operands, c, names, world)?;
    operands.three(op, span)?;
    Ok(())
}

/// `checkSig`
#[cycle(expression)]
#[inline(never)]
fn form_of_sig(
    operands: &mut Operands,
    span: Span,
    args: &[Expr<Slot, Ty>],
    names: &Names,
    world: &World<'_>,
) -> Result<(), Failure>
    requires places { length operands.old + (total (map node_count args.now) + 1) ≤ 1000 }
    ensures value { OnOk result (form_value world.now span forms.CheckSig (map (node_of world.now (env_of names.now)) args.now)
        ≡ Ok (GivenOne (top operands.new))) }
    ensures rest { OnOk result (below operands.new ≡ operands.old) }
    ensures height { OnOk result (length operands.new ≡ length operands.old + 1) }
    ensures err { IfErr result (λ failure.
        form_value world.now span forms.CheckSig (map (node_of world.now (env_of names.now)) args.now) ≡ Err failure) }
{
    let [sig, key] = args else {
        return Err(untyped(span));
    };
    one(operands, sig, names, world)?;
    one(operands, key, names, world)?;
    operands.check_sig(world, span)?;
    Ok(())
}

/// `checkDataSig`
#[tactic(auto, using(crate::proofs::Steps::some_node))]
#[cycle(expression)]
#[inline(never)]
fn form_of_data_sig(
    operands: &mut Operands,
    span: Span,
    args: &[Expr<Slot, Ty>],
    names: &Names,
    world: &World<'_>,
) -> Result<(), Failure>
    requires places { length operands.old + (total (map node_count args.now) + 1) ≤ 1000 }
    ensures value { OnOk result (form_value world.now span forms.CheckData (map (node_of world.now (env_of names.now)) args.now)
        ≡ Ok (GivenOne (top operands.new))) }
    ensures rest { OnOk result (below operands.new ≡ operands.old) }
    ensures height { OnOk result (length operands.new ≡ length operands.old + 1) }
    ensures err { IfErr result (λ failure.
        form_value world.now span forms.CheckData (map (node_of world.now (env_of names.now)) args.now) ≡ Err failure) }
{
    let [sig, message, key] = args else {
        return Err(untyped(span));
    };
    one(operands, sig, names, world)?;
    one(operands, message, names, world)?;
    one(operands, key, names, world)?;
    operands.check_data(world, span)?;
    Ok(())
}

/// `checkMultiSig`
#[cycle(expression)]
#[inline(never)]
fn form_of_sigs(
    operands: &mut Operands,
    span: Span,
    args: &[Expr<Slot, Ty>],
    names: &Names,
    world: &World<'_>,
) -> Result<(), Failure>
    requires places { length operands.old + (total (map node_count args.now) + 1) ≤ 1000 }
    ensures value { OnOk result (form_value world.now span forms.CheckMulti (map (node_of world.now (env_of names.now)) args.now)
        ≡ Ok (GivenOne (top operands.new))) }
    ensures rest { OnOk result (below operands.new ≡ operands.old) }
    ensures height { OnOk result (length operands.new ≡ length operands.old + 1) }
    ensures err { IfErr result (λ failure.
        form_value world.now span forms.CheckMulti (map (node_of world.now (env_of names.now)) args.now) ≡ Err failure) }
{
    let [sigs, keys] = args else {
        return Err(untyped(span));
    };
    let sigs = items(operands, sigs, names, world)?;
    let keys = items(operands, keys, names, world)?;
    operands.check_multi(sigs, keys, world, span)?;
    Ok(())
}

/// `new LockingBytecodeP2PKH` and `new LockingBytecodeP2SH`
#[cycle(expression)]
#[inline(never)]
fn form_of_lock(
    operands: &mut Operands,
    span: Span,
    lock: Lock,
    args: &[Expr<Slot, Ty>],
    names: &Names,
    world: &World<'_>,
) -> Result<(), Failure>
    requires places { length operands.old + (total (map node_count args.now) + 1) ≤ 1000 }
    ensures value { OnOk result (form_value world.now span (forms.Locks lock) (map (node_of world.now (env_of names.now)) args.now)
        ≡ Ok (GivenOne (top operands.new))) }
    ensures rest { OnOk result (below operands.new ≡ operands.old) }
    ensures height { OnOk result (length operands.new ≡ length operands.old + 1) }
    ensures err { IfErr result (λ failure.
        form_value world.now span (forms.Locks lock) (map (node_of world.now (env_of names.now)) args.now) ≡ Err failure) }
{
    let [hash] = args else {
        return Err(untyped(span));
    };
    one(operands, hash, names, world)?;
    operands.lock(lock, span)?;
    Ok(())
}

/// `new LockingBytecodeNullData`
#[cycle(expression)]
#[inline(never)]
fn form_of_data(
    operands: &mut Operands,
    span: Span,
    args: &[Expr<Slot, Ty>],
    names: &Names,
    world: &World<'_>,
) -> Result<(), Failure>
    requires places { length operands.old + (total (map node_count args.now) + 1) ≤ 1000 }
    ensures value { OnOk result (form_value world.now span forms.HoldsData (map (node_of world.now (env_of names.now)) args.now)
        ≡ Ok (GivenOne (top operands.new))) }
    ensures rest { OnOk result (below operands.new ≡ operands.old) }
    ensures height { OnOk result (length operands.new ≡ length operands.old + 1) }
    ensures err { IfErr result (λ failure.
        form_value world.now span forms.HoldsData (map (node_of world.now (env_of names.now)) args.now) ≡ Err failure) }
{
    let [chunks] = args else {
        return Err(untyped(span));
    };
    operands.begin_data();
    chunks_of(operands, span, chunks, names, world)?;
    Ok(())
}

/// Puts the items of an array, and answers how many they are. What is no array has none.
#[tactic(auto, using(crate::proofs::Steps::whole_listed, crate::proofs::Steps::whole_counted, crate::proofs::Steps::array_counted))]
#[cycle(expression)]
#[inline(never)]
fn items(
    operands: &mut Operands,
    e: &Expr<Slot, Ty>,
    names: &Names,
    world: &World<'_>,
) -> Result<usize, Failure>
    requires places { length operands.old + node_count e.now ≤ 1000 }
    ensures value { IfOk result (λ count.
        pushed_all (items_of world.now (env_of names.now) e.now) operands.old ≡ Ok operands.new) }
    ensures count { IfOk result (λ count. length (items_of world.now (env_of names.now) e.now) ≡ count) }
    ensures height { IfOk result (λ count. length operands.new ≡ length operands.old + count) }
    ensures few { IfOk result (λ count. count ≤ node_count e.now) }
    ensures err { IfErr result (λ failure.
        pushed_all (items_of world.now (env_of names.now) e.now) operands.old ≡ Err failure) }
{
    match &e.kind {
        ExprKind::Array(items) => on_items(operands, e, items, names, world),
        _ => Ok(0),
    }
}

/// Puts the items of an array, and answers how many they are.
#[tactic(auto, using(crate::proofs::Steps::array_listed, crate::proofs::Steps::array_count, crate::proofs::Steps::few_items))]
#[cycle(expression)]
#[inline(never)]
fn on_items(
    operands: &mut Operands,
    e: &Expr<Slot, Ty>,
    items: &Items<Expr<Slot, Ty>>,
    names: &Names,
    world: &World<'_>,
) -> Result<usize, Failure>
    requires kind { e.now.kind ≡ exprs.Array items.now }
    requires places { length operands.old + total (map node_count items.now) ≤ 1000 }
    ensures value { IfOk result (λ count.
        pushed_all (kind_lists world.now (env_of names.now) e.now.kind) operands.old ≡ Ok operands.new) }
    ensures count { IfOk result (λ count. length (kind_lists world.now (env_of names.now) e.now.kind) ≡ count) }
    ensures height { IfOk result (λ count. length operands.new ≡ length operands.old + count) }
    ensures few { IfOk result (λ count. count ≤ total (map node_count items.now)) }
    ensures err { IfErr result (λ failure.
        pushed_all (kind_lists world.now (env_of names.now) e.now.kind) operands.old ≡ Err failure) }
{
    all(operands, items.as_slice(), names, world)?;
    Ok(items.len())
}

/// Puts the elements of expressions, one after the other.
#[tactic(auto, using(crate::proofs::Steps::some_node))]
#[cycle(expression)]
fn all(
    operands: &mut Operands,
    parts: &[Expr<Slot, Ty>],
    names: &Names,
    world: &World<'_>,
) -> Result<(), Failure>
    requires places { length operands.old + total (map node_count parts.now) ≤ 1000 }
    ensures value { OnOk result (pushed_all (map (value_of world.now (env_of names.now)) parts.now) operands.old ≡ Ok operands.new) }
    ensures height { OnOk result (length operands.new ≡ length operands.old + length parts.now) }
    ensures err { IfErr result (λ failure.
        pushed_all (map (value_of world.now (env_of names.now)) parts.now) operands.old ≡ Err failure) }
{
    for part in parts {
        one(operands, part, names, world)?;
    }
    Ok(())
}

/// Appends the items of an array, as chunks, to the script of data that is the latest value. What is no array has none.
#[tactic(auto, using(crate::proofs::Steps::whole_listed, crate::proofs::Steps::whole_counted, crate::proofs::Steps::array_counted))]
#[cycle(expression)]
#[inline(never)]
fn chunks_of(
    operands: &mut Operands,
    span: Span,
    e: &Expr<Slot, Ty>,
    names: &Names,
    world: &World<'_>,
) -> Result<(), Failure>
    requires script { 1 ≤ length operands.old }
    requires places { length operands.old + node_count e.now ≤ 1000 }
    ensures value { OnOk result (with_chunks span (top operands.old) (items_of world.now (env_of names.now) e.now)
        ≡ Ok (top operands.new)) }
    ensures rest { OnOk result (below operands.new ≡ below operands.old) }
    ensures height { OnOk result (length operands.new ≡ length operands.old) }
    ensures err { IfErr result (λ failure.
        with_chunks span (top operands.old) (items_of world.now (env_of names.now) e.now) ≡ Err failure) }
{
    match &e.kind {
        ExprKind::Array(items) => on_chunks(operands, span, e, items, names, world),
        _ => Ok(()),
    }
}

/// Appends the items of an array, as chunks, to the script of data that is the latest value.
#[tactic(auto, using(crate::proofs::Steps::array_listed))]
#[cycle(expression)]
#[inline(never)]
fn on_chunks(
    operands: &mut Operands,
    span: Span,
    e: &Expr<Slot, Ty>,
    items: &Items<Expr<Slot, Ty>>,
    names: &Names,
    world: &World<'_>,
) -> Result<(), Failure>
    requires kind { e.now.kind ≡ exprs.Array items.now }
    requires script { 1 ≤ length operands.old }
    requires places { length operands.old + total (map node_count items.now) ≤ 1000 }
    ensures value { OnOk result (with_chunks span (top operands.old) (kind_lists world.now (env_of names.now) e.now.kind)
        ≡ Ok (top operands.new)) }
    ensures rest { OnOk result (below operands.new ≡ below operands.old) }
    ensures height { OnOk result (length operands.new ≡ length operands.old) }
    ensures err { IfErr result (λ failure.
        with_chunks span (top operands.old) (kind_lists world.now (env_of names.now) e.now.kind) ≡ Err failure) }
{
    chunks(operands, span, items.as_slice(), names, world)?;
    Ok(())
}

/// Appends expressions, as chunks, to the script of data that is the latest value. Each is evaluated only when those before are
/// appended.
#[tactic(auto, using(crate::proofs::Steps::some_node))]
#[cycle(expression)]
fn chunks(
    operands: &mut Operands,
    span: Span,
    parts: &[Expr<Slot, Ty>],
    names: &Names,
    world: &World<'_>,
) -> Result<(), Failure>
    requires script { 1 ≤ length operands.old }
    requires places { length operands.old + total (map node_count parts.now) ≤ 1000 }
    ensures value { OnOk result (with_chunks span (top operands.old) (map (value_of world.now (env_of names.now)) parts.now)
        ≡ Ok (top operands.new)) }
    ensures rest { OnOk result (below operands.new ≡ below operands.old) }
    ensures height { OnOk result (length operands.new ≡ length operands.old) }
    ensures err { IfErr result (λ failure.
        with_chunks span (top operands.old) (map (value_of world.now (env_of names.now)) parts.now) ≡ Err failure) }
{
    for part in parts {
        one(operands, part, names, world)?;
        operands.append_chunk(span)?;
    }
    Ok(())
}
