//! Tokens, and the tree of a contract: generic in its names (spans of the source, or slots) and in the types on its
//! nodes.
//!
//! Lists are `Items` and children `Boxed`, so that a contract sees a tree as plain data.
#![tactic(auto)]

mod copies;

pub use cash_base::{Look0, LookAt, Slot, Span};
use sqlite_items::{Boxed, Items};

/// What a token is. Which text is which token is the rule of the lexer.
#[derive(Clone, Copy, Debug, PartialEq, Eq)]
pub enum TokenKind {
    /// A letter or `_`, and then letters, digits and `_`.
    Word,
    /// A number, with its value.
    Number(u128),
    /// `0x` or `0X`, and hexadecimal digits.
    Hex,
    /// A text between quotes.
    Text,
    /// `date("..")`, with the seconds since 1970-01-01T00:00:00 in UTC.
    Date(i64),
    /// Three numbers with dots between.
    Version,
    /// A sign of one or two characters.
    Sign,
}

/// A token of a source; its text is the slice of the source at its span.
#[derive(Clone, Copy, Debug, PartialEq, Eq)]
pub struct Token {
    pub kind: TokenKind,
    pub span: Span,
}

/// A type of the language.
///
/// It has no `==`, since the box of a type inside another has none: match on it.
#[cycle(ty)]
#[derive(Debug, Drop)]
pub enum Ty {
    Int,
    Bool,
    /// `string`
    Text,
    /// `bytes`, of any length.
    Bytes,
    /// `bytesN`, of this length.
    BytesN(u16),
    Pubkey,
    Sig,
    Datasig,
    /// An array of one type.
    Array(Boxed<Ty>),
    /// What a split gives.
    Pair(Boxed<Ty>, Boxed<Ty>),
}

/// A contract with names of type `N` and a `T` on each expression. Its span runs from the word `contract` to its
/// last `}`; `name` is the span of its name.
#[derive(Drop)]
pub struct Contract<N, T> {
    pub name: Span,
    pub span: Span,
    pub pragmas: Items<Constraint>,
    pub params: Items<Param<N>>,
    pub functions: Items<Function<N, T>>,
}

/// A constraint of a pragma on the compiler's version; its span takes in its sign.
#[derive(Clone, Copy, Debug, PartialEq, Eq)]
pub struct Constraint {
    pub sign: Option<Span>,
    pub version: Span,
    pub span: Span,
}

/// A parameter of the constructor or of a function, or a name of a definition of two; `place` is the span of its name.
#[derive(Drop)]
pub struct Param<N> {
    pub ty: Ty,
    pub name: N,
    pub place: Span,
}

/// A function. Its span runs from the word `function` to its last `}`; `name` is the span of its name.
#[derive(Drop)]
pub struct Function<N, T> {
    pub name: Span,
    pub span: Span,
    pub params: Items<Param<N>>,
    pub body: Items<Stmt<N, T>>,
}

/// A statement. Its span runs from its first token to its last `;` or `}`.
#[cycle(statement)]
#[derive(Drop)]
pub struct Stmt<N, T> {
    pub kind: StmtKind<N, T>,
    pub span: Span,
}

/// What a statement says.
#[cycle(statement)]
#[derive(Drop)]
pub enum StmtKind<N, T> {
    /// `ty name = value;`, where `place` is the span of the name.
    Define {
        ty: Ty,
        constant: bool,
        name: N,
        place: Span,
        value: Expr<N, T>,
    },
    /// `left, right = value;`, where each name has its type.
    Pair {
        left: Param<N>,
        right: Param<N>,
        value: Expr<N, T>,
    },
    /// `name = value;`
    Assign {
        name: N,
        value: Expr<N, T>,
    },
    /// `require(tx.time >= value);`
    Time {
        value: Expr<N, T>,
    },
    /// `require(this.age >= value);`
    Age {
        value: Expr<N, T>,
    },
    /// `require(value);`
    Require {
        value: Expr<N, T>,
    },
    /// `if (test) yes else no`
    If {
        test: Expr<N, T>,
        yes: Items<Stmt<N, T>>,
        no: Option<Items<Stmt<N, T>>>,
    },
}

/// An expression. Its span runs from its first token to its last, and brackets round it belong to it.
#[cycle(expression)]
#[derive(Drop)]
pub struct Expr<N, T> {
    pub kind: ExprKind<N, T>,
    pub ty: T,
    pub span: Span,
}

/// What an expression is.
#[cycle(expression)]
#[derive(Drop)]
pub enum ExprKind<N, T> {
    /// The number `digits` times `unit`; the unit is 1 where the source has no unit word.
    Int {
        digits: u128,
        unit: u64,
    },
    /// `true` or `false`
    Bool(bool),
    /// The bytes that hexadecimal digits spell.
    Hex(Items<u8>),
    /// The bytes of a text, escapes resolved.
    Text(Items<u8>),
    /// The seconds since 1970 of a date.
    Date(i64),
    Name(N),
    Unary(UnaryOp, Boxed<Expr<N, T>>),
    Binary(BinaryOp, Boxed<Expr<N, T>>, Boxed<Expr<N, T>>),
    /// `value.length`
    Length(Boxed<Expr<N, T>>),
    /// `value.reverse()`
    Reverse(Boxed<Expr<N, T>>),
    /// `value.split(at)`
    Split(Boxed<Expr<N, T>>, Boxed<Expr<N, T>>),
    /// `pair[number]`
    Index(Boxed<Expr<N, T>>, u128),
    /// `to(value)` or `to(value, size)`
    Cast {
        to: Ty,
        value: Boxed<Expr<N, T>>,
        size: Option<Boxed<Expr<N, T>>>,
    },
    /// A call of a built-in function.
    Call {
        callee: Callee,
        args: Items<Expr<N, T>>,
    },
    /// `new` and the call of an instantiation.
    New {
        callee: Callee,
        args: Items<Expr<N, T>>,
    },
    /// `[item, ..]`
    Array(Items<Expr<N, T>>),
    /// What `tx` or `this` has one of.
    Look0(Look0),
    /// What the input or output at an index has.
    LookAt(LookAt, Boxed<Expr<N, T>>),
}

/// What is called: in a `Call` a name is `Known` exactly where it is that of a built-in function, in a `New` exactly
/// where it is that of an instantiation, and else `Unknown` with its span.
#[derive(Clone, Copy, Debug, PartialEq, Eq)]
pub enum Callee {
    Known(Builtin),
    Unknown(Span),
}

/// An operator with one side.
#[derive(Clone, Copy, Debug, PartialEq, Eq)]
pub enum UnaryOp {
    /// `!`
    Not,
    /// `-`
    Negate,
}

/// An operator with two sides.
#[derive(Clone, Copy, Debug, PartialEq, Eq)]
pub enum BinaryOp {
    /// `||`
    Or,
    /// `&&`
    And,
    /// `|`
    BitOr,
    /// `^`
    BitXor,
    /// `&`
    BitAnd,
    /// `==`
    Equal,
    /// `!=`
    NotEqual,
    /// `<`
    Less,
    /// `<=`
    LessEqual,
    /// `>`
    Greater,
    /// `>=`
    GreaterEqual,
    /// `+`
    Add,
    /// `-`
    Sub,
    /// `*`
    Mul,
    /// `/`
    Div,
    /// `%`
    Mod,
}

/// The built-in functions, and after them the instantiations, which stand after `new`.
#[derive(Clone, Copy, Debug, PartialEq, Eq)]
pub enum Builtin {
    Abs,
    Min,
    Max,
    Within,
    Ripemd160,
    Sha1,
    Sha256,
    Hash160,
    Hash256,
    CheckSig,
    CheckDataSig,
    CheckMultiSig,
    LockingBytecodeP2PKH,
    LockingBytecodeP2SH,
    LockingBytecodeNullData,
}

/// A contract as the parser spells it: names are spans, and nothing has a type yet.
pub type Tree = Contract<Span, ()>;

/// A contract whose names are slots.
pub type NamedTree = Contract<Slot, ()>;

/// A contract whose names are slots, and whose expressions have their types.
pub type TypedContract = Contract<Slot, Ty>;
