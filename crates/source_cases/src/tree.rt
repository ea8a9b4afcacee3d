//! The tree of a source, with its spans.

use anyhow::{Context, Result, bail};
use cash_base::Span;
use cash_lexer::tokens;
use cash_parser::{ParseFault, parse};
use cash_tree::{Constraint, Expr, ExprKind, Param, Stmt, StmtKind, Tree};
use std::alloc::{AllocError, Global};

/// The longest source that is handed on.
const LONGEST: usize = 1_000_000;

fn show_span(text: &mut String, span: Span) -> Result<(), AllocError> {
    let from = span.from;
    let to = span.to;
    write!(text, "{from}-{to}")
}

#[cycle(shown)]
fn show(text: &mut String, e: &Expr<Span, ()>) -> Result<(), AllocError> {
    show_kind(text, &e.kind)?;
    text.push_str("@")?;
    show_span(text, e.span)
}

#[cycle(shown)]
fn show_all(text: &mut String, items: &[Expr<Span, ()>]) -> Result<(), AllocError> {
    for (i, e) in items.iter().enumerate() {
        if i > 0 {
            text.push_str(" ")?;
        }
        show(text, e)?;
    }
    text.push_str(")")
}

#[cycle(shown)]
fn show_kind(text: &mut String, kind: &ExprKind<Span, ()>) -> Result<(), AllocError> {
    match kind {
        ExprKind::Int { digits, unit } => write!(text, "{digits}*{unit}"),
        ExprKind::Bool(b) => write!(text, "{b}"),
        ExprKind::Hex(bytes) => {
            let bytes = bytes.as_slice();
            write!(text, "Hex{bytes:?}")
        }
        ExprKind::Text(bytes) => {
            let bytes = bytes.as_slice();
            write!(text, "Text{bytes:?}")
        }
        ExprKind::Date(seconds) => write!(text, "Date({seconds})"),
        ExprKind::Name(span) => {
            text.push_str("Name ")?;
            show_span(text, *span)
        }
        ExprKind::Unary(op, value) => {
            write!(text, "{op:?}(")?;
            show(text, value.get())?;
            text.push_str(")")
        }
        ExprKind::Binary(op, left, right) => {
            write!(text, "{op:?}(")?;
            show(text, left.get())?;
            text.push_str(" ")?;
            show(text, right.get())?;
            text.push_str(")")
        }
        ExprKind::Length(value) => {
            text.push_str("Length(")?;
            show(text, value.get())?;
            text.push_str(")")
        }
        ExprKind::Reverse(value) => {
            text.push_str("Reverse(")?;
            show(text, value.get())?;
            text.push_str(")")
        }
        ExprKind::Split(value, at) => {
            text.push_str("Split(")?;
            show(text, value.get())?;
            text.push_str(" ")?;
            show(text, at.get())?;
            text.push_str(")")
        }
        ExprKind::Index(pair, number) => {
            text.push_str("Index(")?;
            show(text, pair.get())?;
            write!(text, " {number})")
        }
        ExprKind::Cast { to, value, size } => {
            write!(text, "Cast({to:?} ")?;
            show(text, value.get())?;
            if let Some(size) = size {
                text.push_str(" ")?;
                show(text, size.get())?;
            }
            text.push_str(")")
        }
        ExprKind::Call { callee, args } => {
            write!(text, "Call({callee:?}")?;
            if !args.is_empty() {
                text.push_str(" ")?;
            }
            show_all(text, args.as_slice())
        }
        ExprKind::New { callee, args } => {
            write!(text, "New({callee:?}")?;
            if !args.is_empty() {
                text.push_str(" ")?;
            }
            show_all(text, args.as_slice())
        }
        ExprKind::Array(items) => {
            text.push_str("Array(")?;
            show_all(text, items.as_slice())
        }
        ExprKind::Look0(look) => write!(text, "{look:?}"),
        ExprKind::LookAt(look, index) => {
            write!(text, "{look:?}(")?;
            show(text, index.get())?;
            text.push_str(")")
        }
    }
}

fn show_param(text: &mut String, param: &Param<Span>) -> Result<(), AllocError> {
    let ty = &param.ty;
    write!(text, "{ty:?} ")?;
    show_span(text, param.place)
}

#[cycle(shown_statements)]
fn show_statement(text: &mut String, statement: &Stmt<Span, ()>) -> Result<(), AllocError> {
    show_statement_kind(text, &statement.kind)?;
    text.push_str("@")?;
    show_span(text, statement.span)
}

#[cycle(shown_statements)]
fn show_statement_kind(text: &mut String, kind: &StmtKind<Span, ()>) -> Result<(), AllocError> {
    match kind {
        StmtKind::Define {
            ty,
            constant,
            name,
            place: _,
            value,
        } => {
            write!(text, "Define({ty:?} {constant} ")?;
            show_span(text, *name)?;
            text.push_str(" ")?;
            show(text, value)?;
        }
        StmtKind::Pair { left, right, value } => {
            text.push_str("Pair(")?;
            show_param(text, left)?;
            text.push_str(" ")?;
            show_param(text, right)?;
            text.push_str(" ")?;
            show(text, value)?;
        }
        StmtKind::Assign { name, value } => {
            text.push_str("Assign(")?;
            show_span(text, *name)?;
            text.push_str(" ")?;
            show(text, value)?;
        }
        StmtKind::Time { value } => {
            text.push_str("Time(")?;
            show(text, value)?;
        }
        StmtKind::Age { value } => {
            text.push_str("Age(")?;
            show(text, value)?;
        }
        StmtKind::Require { value } => {
            text.push_str("Require(")?;
            show(text, value)?;
        }
        StmtKind::If { test, yes, no } => {
            text.push_str("If(")?;
            show(text, test)?;
            text.push_str("){")?;
            show_statements(text, yes.as_slice())?;
            if let Some(no) = no {
                text.push_str(" else{")?;
                show_statements(text, no.as_slice())?;
            }
            return Ok(());
        }
    }
    text.push_str(")")
}

#[cycle(shown_statements)]
fn show_statements(text: &mut String, statements: &[Stmt<Span, ()>]) -> Result<(), AllocError> {
    for (i, statement) in statements.iter().enumerate() {
        if i > 0 {
            text.push_str(" ")?;
        }
        show_statement(text, statement)?;
    }
    text.push_str("}")
}

fn show_params(text: &mut String, params: &[Param<Span>]) -> Result<(), AllocError> {
    text.push_str("(")?;
    for (i, param) in params.iter().enumerate() {
        if i > 0 {
            text.push_str(", ")?;
        }
        show_param(text, param)?;
    }
    text.push_str("){")
}

fn show_constraint(text: &mut String, constraint: &Constraint) -> Result<(), AllocError> {
    if let Some(sign) = constraint.sign {
        show_span(text, sign)?;
        text.push_str(" ")?;
    }
    show_span(text, constraint.version)?;
    text.push_str("@")?;
    show_span(text, constraint.span)?;
    text.push_str("; ")
}

fn show_tree(text: &mut String, tree: &Tree) -> Result<(), AllocError> {
    for constraint in tree.pragmas.as_slice() {
        show_constraint(text, constraint)?;
    }
    show_span(text, tree.name)?;
    text.push_str("@")?;
    show_span(text, tree.span)?;
    show_params(text, tree.params.as_slice())?;
    for (i, function) in tree.functions.as_slice().iter().enumerate() {
        if i > 0 {
            text.push_str(" ")?;
        }
        text.push_str("fn ")?;
        show_span(text, function.name)?;
        text.push_str("@")?;
        show_span(text, function.span)?;
        show_params(text, function.params.as_slice())?;
        show_statements(text, function.body.as_slice())?;
    }
    text.push_str("}")
}

/// The tree, or the fault of the parser.
pub fn answer(alloc: Global, source: &[u8]) -> Result<String> {
    let source = str::from_utf8(source)?;
    if source.len() > LONGEST {
        bail!("a source of over {LONGEST} bytes");
    }
    let tokens = tokens(alloc, source).ok().context("tokens")?;
    let mut text = String::new(alloc);
    match parse(alloc, source, &tokens) {
        Ok(tree) => show_tree(&mut text, &tree)?,
        Err(ParseFault::Syntax { token }) => write!(text, "Syntax {token}")?,
        Err(ParseFault::TooDeep { rule, span }) => {
            write!(text, "TooDeep {rule:?} ")?;
            show_span(&mut text, span)?;
        }
        Err(ParseFault::Memory) => bail!("out of memory"),
    }
    Ok(text)
}
