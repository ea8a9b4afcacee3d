//! Copies of types and of the parts of a typed contract: each is equal to its original, and `Memory` is the only error.

ghost use Rattle.std.specs.Prelude.{◌≡◌, IfOk};

use crate::{Expr, ExprKind, Function, Param, Slot, Stmt, StmtKind, Ty, TypedContract};
use cash_base::Memory;
use sqlite_items::{Boxed, Items};
use std::alloc::Global;

impl Ty {
    /// A type that equals this one.
    ///
    /// # Errors
    ///
    /// `Memory`, where memory ran out.
    pub fn copy(&self, alloc: Global) -> Result<Ty, Memory>
        ensures { IfOk result (λ copy. copy ≡ self.now) }
    {
        match self {
            Ty::Int => Ok(Ty::Int),
            Ty::Bool => Ok(Ty::Bool),
            Ty::Text => Ok(Ty::Text),
            Ty::Bytes => Ok(Ty::Bytes),
            Ty::BytesN(n) => Ok(Ty::BytesN(*n)),
            Ty::Pubkey => Ok(Ty::Pubkey),
            Ty::Sig => Ok(Ty::Sig),
            Ty::Datasig => Ok(Ty::Datasig),
            Ty::Array(item) => {
                let item = item.get().copy(alloc)?;
                Ok(Ty::Array(Boxed::new(alloc, item)?))
            }
            Ty::Pair(left, right) => {
                let left = left.get().copy(alloc)?;
                let right = right.get().copy(alloc)?;
                Ok(Ty::Pair(Boxed::new(alloc, left)?, Boxed::new(alloc, right)?))
            }
        }
    }
}

impl Param<Slot> {
    /// A parameter that equals this one.
    ///
    /// # Errors
    ///
    /// `Memory`, where memory ran out.
    pub fn copy(&self, alloc: Global) -> Result<Param<Slot>, Memory>
        ensures { IfOk result (λ copy. copy ≡ self.now) }
    {
        Ok(Param {
            ty: self.ty.copy(alloc)?,
            name: self.name,
            place: self.place,
        })
    }
}

impl Expr<Slot, Ty> {
    /// An expression that equals this one.
    ///
    /// # Errors
    ///
    /// `Memory`, where memory ran out.
    #[cycle(expression)]
    pub fn copy(&self, alloc: Global) -> Result<Expr<Slot, Ty>, Memory>
        ensures { IfOk result (λ copy. copy ≡ self.now) }
    {
        Ok(Expr {
            kind: self.kind.copy(alloc)?,
            ty: self.ty.copy(alloc)?,
            span: self.span,
        })
    }

    #[cycle(expression)]
    fn boxed_copy(&self, alloc: Global) -> Result<Boxed<Expr<Slot, Ty>>, Memory>
        ensures { IfOk result (λ copy. copy ≡ self.now) }
    {
        let copy = self.copy(alloc)?;
        Ok(Boxed::new(alloc, copy)?)
    }
}

impl ExprKind<Slot, Ty> {
    #[cycle(expression)]
    fn copy(&self, alloc: Global) -> Result<ExprKind<Slot, Ty>, Memory>
        ensures { IfOk result (λ copy. copy ≡ self.now) }
    {
        match self {
            ExprKind::Int { digits, unit } => Ok(ExprKind::Int {
                digits: *digits,
                unit: *unit,
            }),
            ExprKind::Bool(b) => Ok(ExprKind::Bool(*b)),
            ExprKind::Hex(bytes) => Ok(ExprKind::Hex(Items::from_slice(alloc, bytes.as_slice())?)),
            ExprKind::Text(bytes) => Ok(ExprKind::Text(Items::from_slice(
                alloc,
                bytes.as_slice(),
            )?)),
            ExprKind::Date(seconds) => Ok(ExprKind::Date(*seconds)),
            ExprKind::Name(slot) => Ok(ExprKind::Name(*slot)),
            ExprKind::Unary(op, value) => Ok(ExprKind::Unary(*op, value.get().boxed_copy(alloc)?)),
            ExprKind::Binary(op, left, right) => Ok(ExprKind::Binary(
                *op,
                left.get().boxed_copy(alloc)?,
                right.get().boxed_copy(alloc)?,
            )),
            ExprKind::Length(value) => Ok(ExprKind::Length(value.get().boxed_copy(alloc)?)),
            ExprKind::Reverse(value) => Ok(ExprKind::Reverse(value.get().boxed_copy(alloc)?)),
            ExprKind::Split(value, at) => Ok(ExprKind::Split(
                value.get().boxed_copy(alloc)?,
                at.get().boxed_copy(alloc)?,
            )),
            ExprKind::Index(pair, number) => Ok(ExprKind::Index(
                pair.get().boxed_copy(alloc)?,
                *number,
            )),
            ExprKind::Cast { to, value, size } => Ok(ExprKind::Cast {
                to: to.copy(alloc)?,
                value: value.get().boxed_copy(alloc)?,
                size: match size {
                    Some(size) => Some(size.get().boxed_copy(alloc)?),
                    None => None,
                },
            }),
            ExprKind::Call { callee, args } => Ok(ExprKind::Call {
                callee: *callee,
                args: copy_of_expressions(alloc, args.as_slice())?,
            }),
            ExprKind::New { callee, args } => Ok(ExprKind::New {
                callee: *callee,
                args: copy_of_expressions(alloc, args.as_slice())?,
            }),
            ExprKind::Array(items) => Ok(ExprKind::Array(copy_of_expressions(
                alloc,
                items.as_slice(),
            )?)),
            ExprKind::Look0(what) => Ok(ExprKind::Look0(*what)),
            ExprKind::LookAt(what, index) => Ok(ExprKind::LookAt(
                *what,
                index.get().boxed_copy(alloc)?,
            )),
        }
    }
}

#[cycle(expression)]
fn copy_of_expressions(
    alloc: Global,
    expressions: &[Expr<Slot, Ty>],
) -> Result<Items<Expr<Slot, Ty>>, Memory>
    ensures { IfOk result (λ copy. copy ≡ expressions.now) }
{
    let mut copies = Items::new(alloc);
    for expression in expressions {
        copies.push(expression.copy(alloc)?)?;
    }
    Ok(copies)
}

fn copy_of_params(alloc: Global, params: &[Param<Slot>]) -> Result<Items<Param<Slot>>, Memory>
    ensures { IfOk result (λ copy. copy ≡ params.now) }
{
    let mut copies = Items::new(alloc);
    for param in params {
        copies.push(param.copy(alloc)?)?;
    }
    Ok(copies)
}

impl Stmt<Slot, Ty> {
    /// A statement that equals this one.
    ///
    /// # Errors
    ///
    /// `Memory`, where memory ran out.
    #[cycle(statement)]
    pub fn copy(&self, alloc: Global) -> Result<Stmt<Slot, Ty>, Memory>
        ensures { IfOk result (λ copy. copy ≡ self.now) }
    {
        Ok(Stmt {
            kind: self.kind.copy(alloc)?,
            span: self.span,
        })
    }
}

impl StmtKind<Slot, Ty> {
    #[cycle(statement)]
    fn copy(&self, alloc: Global) -> Result<StmtKind<Slot, Ty>, Memory>
        ensures { IfOk result (λ copy. copy ≡ self.now) }
    {
        match self {
            StmtKind::Define {
                ty,
                constant,
                name,
                place,
                value,
            } => Ok(StmtKind::Define {
                ty: ty.copy(alloc)?,
                constant: *constant,
                name: *name,
                place: *place,
                value: value.copy(alloc)?,
            }),
            StmtKind::Pair { left, right, value } => Ok(StmtKind::Pair {
                left: left.copy(alloc)?,
                right: right.copy(alloc)?,
                value: value.copy(alloc)?,
            }),
            StmtKind::Assign { name, value } => Ok(StmtKind::Assign {
                name: *name,
                value: value.copy(alloc)?,
            }),
            StmtKind::Time { value } => Ok(StmtKind::Time {
                value: value.copy(alloc)?,
            }),
            StmtKind::Age { value } => Ok(StmtKind::Age {
                value: value.copy(alloc)?,
            }),
            StmtKind::Require { value } => Ok(StmtKind::Require {
                value: value.copy(alloc)?,
            }),
            StmtKind::If { test, yes, no } => Ok(StmtKind::If {
                test: test.copy(alloc)?,
                yes: copy_of_statements(alloc, yes.as_slice())?,
                no: match no {
                    Some(no) => Some(copy_of_statements(alloc, no.as_slice())?),
                    None => None,
                },
            }),
        }
    }
}

#[cycle(statement)]
fn copy_of_statements(
    alloc: Global,
    statements: &[Stmt<Slot, Ty>],
) -> Result<Items<Stmt<Slot, Ty>>, Memory>
    ensures { IfOk result (λ copy. copy ≡ statements.now) }
{
    let mut copies = Items::new(alloc);
    for statement in statements {
        copies.push(statement.copy(alloc)?)?;
    }
    Ok(copies)
}

impl Function<Slot, Ty> {
    /// A function that equals this one.
    ///
    /// # Errors
    ///
    /// `Memory`, where memory ran out.
    pub fn copy(&self, alloc: Global) -> Result<Function<Slot, Ty>, Memory>
        ensures { IfOk result (λ copy. copy ≡ self.now) }
    {
        Ok(Function {
            name: self.name,
            span: self.span,
            params: copy_of_params(alloc, self.params.as_slice())?,
            body: copy_of_statements(alloc, self.body.as_slice())?,
        })
    }
}

fn copy_of_functions(
    alloc: Global,
    functions: &[Function<Slot, Ty>],
) -> Result<Items<Function<Slot, Ty>>, Memory>
    ensures { IfOk result (λ copy. copy ≡ functions.now) }
{
    let mut copies = Items::new(alloc);
    for function in functions {
        copies.push(function.copy(alloc)?)?;
    }
    Ok(copies)
}

impl TypedContract {
    /// A contract that equals this one.
    ///
    /// # Errors
    ///
    /// `Memory`, where memory ran out.
    pub fn copy(&self, alloc: Global) -> Result<TypedContract, Memory>
        ensures { IfOk result (λ copy. copy ≡ self.now) }
    {
        Ok(TypedContract {
            name: self.name,
            span: self.span,
            pragmas: Items::from_slice(alloc, self.pragmas.as_slice())?,
            params: copy_of_params(alloc, self.params.as_slice())?,
            functions: copy_of_functions(alloc, self.functions.as_slice())?,
        })
    }
}
