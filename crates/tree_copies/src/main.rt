//! Copies a contract and a type, and prints of each what stands in the original and in the copy.
#![tactic(auto)]

use anyhow::Result;
use cash_tree::{
    Builtin, Callee, Contract, Expr, ExprKind, Function, Look0, LookAt, Param, Slot, Span, Stmt,
    StmtKind, Ty, TypedContract,
};
use sqlite_items::{Boxed, Items};
use std::alloc::{AllocError, Global};

const PLACE: Span = Span { from: 3, to: 4 };

fn expression(kind: ExprKind<Slot, Ty>) -> Expr<Slot, Ty> {
    Expr {
        kind,
        ty: Ty::Int,
        span: PLACE,
    }
}

fn boxed(alloc: Global, kind: ExprKind<Slot, Ty>) -> Result<Boxed<Expr<Slot, Ty>>, AllocError> {
    Boxed::new(alloc, expression(kind))
}

fn statement(kind: StmtKind<Slot, Ty>) -> Stmt<Slot, Ty> {
    Stmt { kind, span: PLACE }
}

/// Four expressions, of which some hold others.
fn expressions(alloc: Global) -> Result<Items<Expr<Slot, Ty>>, AllocError> {
    let mut all = Items::new(alloc);
    let bytes = Items::from_slice(alloc, b"ab")?;
    all.push(expression(ExprKind::Hex(bytes)))?;
    let index = boxed(alloc, ExprKind::Date(-1))?;
    all.push(expression(ExprKind::LookAt(LookAt::UtxoValue, index)))?;
    let value = boxed(alloc, ExprKind::Bool(true))?;
    let size = boxed(alloc, ExprKind::Name(Slot(7)))?;
    all.push(expression(ExprKind::Cast {
        to: Ty::BytesN(520),
        value,
        size: Some(size),
    }))?;
    let mut args = Items::new(alloc);
    args.push(expression(ExprKind::Look0(Look0::ActiveBytecode)))?;
    all.push(expression(ExprKind::New {
        callee: Callee::Known(Builtin::LockingBytecodeNullData),
        args,
    }))?;
    Ok(all)
}

/// A contract whose one function has an `if`, with that list of expressions in the test.
fn contract(alloc: Global) -> Result<TypedContract, AllocError> {
    let test = expression(ExprKind::Array(expressions(alloc)?));
    let mut yes = Items::new(alloc);
    yes.push(statement(StmtKind::Require {
        value: expression(ExprKind::Int {
            digits: 9,
            unit: 60,
        }),
    }))?;
    let mut body = Items::new(alloc);
    body.push(statement(StmtKind::If {
        test,
        yes,
        no: Some(Items::new(alloc)),
    }))?;
    let mut params = Items::new(alloc);
    params.push(Param {
        ty: Ty::Array(Boxed::new(alloc, Ty::Sig)?),
        name: Slot(1),
        place: PLACE,
    })?;
    let mut functions = Items::new(alloc);
    functions.push(Function {
        name: PLACE,
        span: PLACE,
        params,
        body,
    })?;
    Ok(Contract {
        name: PLACE,
        span: PLACE,
        pragmas: Items::new(alloc),
        params: Items::new(alloc),
        functions,
    })
}

/// How many expressions the test of the `if` lists, where the contract is that of `contract`.
fn listed(contract: &TypedContract) -> Option<usize> {
    let function = contract.functions.get(0)?;
    match &function.body.get(0)?.kind {
        StmtKind::If {
            test,
            yes: _,
            no: Some(_),
        } => match &test.kind {
            ExprKind::Array(items) => Some(items.len()),
            _ => None,
        },
        _ => None,
    }
}

/// What a type is, where it is a pair of two bytes and an array of public keys.
fn shown(ty: &Ty) -> &'static str {
    match ty {
        Ty::Pair(left, right) => match (left.get(), right.get()) {
            (Ty::BytesN(2), Ty::Array(item)) => match item.get() {
                Ty::Pubkey => "pair of bytes2 and pubkey[]",
                _ => "another array",
            },
            _ => "another pair",
        },
        _ => "another type",
    }
}

fn pair(alloc: Global) -> Result<Ty, AllocError> {
    let left = Boxed::new(alloc, Ty::BytesN(2))?;
    let item = Boxed::new(alloc, Ty::Pubkey)?;
    let right = Boxed::new(alloc, Ty::Array(item))?;
    Ok(Ty::Pair(left, right))
}

fn show_contracts(rt: &impl Print, contract: &TypedContract, copy: &TypedContract) -> Result<()> {
    let count = listed(contract).unwrap_or(0);
    println!(rt; "contract: {count} expressions")?;
    let count = listed(copy).unwrap_or(0);
    println!(rt; "copy: {count} expressions")?;
    Ok(())
}

fn show_types(rt: &impl Print, ty: &Ty, copy: &Ty) -> Result<()> {
    let text = shown(ty);
    println!(rt; "type: {text}")?;
    let text = shown(copy);
    println!(rt; "copy: {text}")?;
    Ok(())
}

fn main(rt: HostRuntime) -> Result<()> {
    let contract = contract(rt.alloc())?;
    if let Ok(copy) = contract.copy(rt.alloc()) {
        show_contracts(&rt, &contract, &copy)?;
    }
    let ty = pair(rt.alloc())?;
    if let Ok(copy) = ty.copy(rt.alloc()) {
        show_types(&rt, &ty, &copy)?;
    }
    Ok(())
}
