//! The slots of a source's names.

use anyhow::{Context, Result, bail};
use cash_lexer::tokens;
use cash_names::resolve;
use cash_parser::parse;
use cash_tree::{Expr, ExprKind, NamedTree, Param, Slot, Stmt, StmtKind};
use std::alloc::Global;

/// The longest source that is handed on.
const LONGEST: usize = 1_000_000;

fn show_slot(out: &mut String, slot: Slot) -> Result<()> {
    let number = slot.0;
    write!(out, " {number}")?;
    Ok(())
}

fn show_params(out: &mut String, params: &[Param<Slot>]) -> Result<()> {
    out.push_str(" |")?;
    for param in params {
        show_slot(out, param.name)?;
    }
    Ok(())
}

/// The names that an operator's sides read.
fn show_expr(out: &mut String, e: &Expr<Slot, ()>) -> Result<()> {
    match &e.kind {
        ExprKind::Name(slot) => show_slot(out, *slot)?,
        ExprKind::Binary(_, left, right) => {
            show_expr(out, left.get())?;
            show_expr(out, right.get())?;
        }
        _ => {}
    }
    Ok(())
}

#[cycle(statement)]
fn show_all(out: &mut String, statements: &[Stmt<Slot, ()>]) -> Result<()> {
    for statement in statements {
        show(out, statement)?;
    }
    Ok(())
}

#[cycle(statement)]
fn show(out: &mut String, statement: &Stmt<Slot, ()>) -> Result<()> {
    match &statement.kind {
        StmtKind::Define { name, value, .. } => {
            show_slot(out, *name)?;
            show_expr(out, value)?;
        }
        StmtKind::Pair { left, right, value } => {
            show_slot(out, left.name)?;
            show_slot(out, right.name)?;
            show_expr(out, value)?;
        }
        StmtKind::Assign { name, value } => {
            show_slot(out, *name)?;
            show_expr(out, value)?;
        }
        StmtKind::Time { value } => show_expr(out, value)?,
        StmtKind::Age { value } => show_expr(out, value)?,
        StmtKind::Require { value } => show_expr(out, value)?,
        StmtKind::If { test, yes, no } => {
            show_expr(out, test)?;
            show_all(out, yes.as_slice())?;
            if let Some(no) = no {
                show_all(out, no.as_slice())?;
            }
        }
    }
    Ok(())
}

fn show_tree(out: &mut String, tree: &NamedTree) -> Result<()> {
    show_params(out, tree.params.as_slice())?;
    for function in tree.functions.as_slice() {
        show_params(out, function.params.as_slice())?;
        show_all(out, function.body.as_slice())?;
    }
    Ok(())
}

/// The slots, or the fault.
pub fn answer(alloc: Global, source: &[u8]) -> Result<String> {
    let source = str::from_utf8(source)?;
    if source.len() > LONGEST {
        bail!("a source of over {LONGEST} bytes");
    }
    let tokens = tokens(alloc, source).ok().context("tokens")?;
    let tree = parse(alloc, source, &tokens).ok().context("a tree")?;
    let mut out = String::new(alloc);
    match resolve(alloc, source, &tree) {
        Ok(named) => {
            out.push_str("accepted")?;
            show_tree(&mut out, &named)?;
        }
        Err(fault) => write!(out, "{fault:?}")?,
    }
    Ok(out)
}
