//! The nodes of expressions, each with its span.

ghost use Rattle.std.specs.Prelude.{◌≡◌, IfOk};
ghost use Rattle.cash_expressions.specs.Grammar;
ghost use Rattle.cash_expressions.specs.Reading;

use cash_base::{Look0, LookAt, Span};
use cash_symbols::front::across;
use cash_tree::{BinaryOp, Builtin, Callee, Ty, UnaryOp};
use sqlite_items::{Boxed, Items};
use std::alloc::{AllocError, Global};

/// An expression whose names are spans, without types.
pub type Expr = cash_tree::Expr<Span, ()>;

/// What such an expression is.
pub type ExprKind = cash_tree::ExprKind<Span, ()>;

pub fn expr(kind: ExprKind, span: Span) -> Expr
    ensures { result ≡ Grammar.expr kind span }
{
    Expr { kind, ty: (), span }
}

pub fn binary_of(alloc: Global, op: BinaryOp, left: Expr, right: Expr) -> Result<Expr, AllocError>
    ensures { IfOk result (λ e. e ≡ Grammar.binary_of op left right) }
{
    let span = across(left.span, right.span);
    let left = Boxed::new(alloc, left)?;
    let right = Boxed::new(alloc, right)?;
    Ok(expr(ExprKind::Binary(op, left, right), span))
}

pub fn unary_of(alloc: Global, op: UnaryOp, sign: Span, e: Expr) -> Result<Expr, AllocError>
    ensures { IfOk result (λ n. n ≡ Grammar.unary_of op sign e) }
{
    let span = across(sign, e.span);
    Ok(expr(ExprKind::Unary(op, Boxed::new(alloc, e)?), span))
}

pub fn length_of(alloc: Global, e: Expr, word: Span) -> Result<Expr, AllocError>
    ensures { IfOk result (λ n. n ≡ Grammar.length_of e word) }
{
    let span = across(e.span, word);
    Ok(expr(ExprKind::Length(Boxed::new(alloc, e)?), span))
}

pub fn reverse_of(alloc: Global, e: Expr, close: Span) -> Result<Expr, AllocError>
    ensures { IfOk result (λ n. n ≡ Grammar.reverse_of e close) }
{
    let span = across(e.span, close);
    Ok(expr(ExprKind::Reverse(Boxed::new(alloc, e)?), span))
}

pub fn split_of(alloc: Global, e: Expr, at: Expr, close: Span) -> Result<Expr, AllocError>
    ensures { IfOk result (λ n. n ≡ Grammar.split_of e at close) }
{
    let span = across(e.span, close);
    let e = Boxed::new(alloc, e)?;
    let at = Boxed::new(alloc, at)?;
    Ok(expr(ExprKind::Split(e, at), span))
}

pub fn index_of(alloc: Global, e: Expr, number: u128, close: Span) -> Result<Expr, AllocError>
    ensures { IfOk result (λ n. n ≡ Grammar.index_of e number close) }
{
    let span = across(e.span, close);
    Ok(expr(ExprKind::Index(Boxed::new(alloc, e)?, number), span))
}

/// A known name, or the span of an unknown one.
pub fn callee_of(builtin: Option<Builtin>, span: Span) -> Callee
    ensures { result ≡ Grammar.callee_of builtin span }
{
    match builtin {
        Some(builtin) => Callee::Known(builtin),
        None => Callee::Unknown(span),
    }
}

/// A cast has one or two expressions: what is cast, and a size.
pub fn cast_of(
    alloc: Global,
    to: Ty,
    word: Span,
    values: Items<Expr>,
    close: Span,
) -> Result<Option<Expr>, AllocError>
    ensures { IfOk result (λ o. o ≡ Reading.cast_of to word values close) }
{
    let mut values = values;
    let Some(last) = values.pop() else {
        return Ok(None);
    };
    let Some(before) = values.pop() else {
        let value = Boxed::new(alloc, last)?;
        let kind = ExprKind::Cast {
            to,
            value,
            size: None,
        };
        return Ok(Some(expr(kind, across(word, close))));
    };
    if !values.is_empty() {
        return Ok(None);
    }
    let value = Boxed::new(alloc, before)?;
    let size = Some(Boxed::new(alloc, last)?);
    let kind = ExprKind::Cast { to, value, size };
    Ok(Some(expr(kind, across(word, close))))
}

pub fn look_at_of(
    alloc: Global,
    first: Span,
    look: LookAt,
    index: Expr,
    last: Span,
) -> Result<Expr, AllocError>
    ensures { IfOk result (λ n. n ≡ Grammar.look_at_of first look index last) }
{
    let kind = ExprKind::LookAt(look, Boxed::new(alloc, index)?);
    Ok(expr(kind, across(first, last)))
}

pub fn look_of(first: Span, look: Look0, last: Span) -> Expr
    ensures { result ≡ Grammar.look_of first look last }
{
    expr(ExprKind::Look0(look), across(first, last))
}
