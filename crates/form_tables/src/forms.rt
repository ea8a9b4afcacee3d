//! The tables of operators, casts and built-in functions.

ghost use Rattle.std.specs.Prelude.{◌≡◌};
ghost use Rattle.form_tables.specs.Forms as table;

use cash_tree::{BinaryOp, Builtin, Ty, UnaryOp};
use element_ops::{Op1, Op2, Op3};

/// What an operator with two sides does with their elements.
#[derive(Clone, Copy, Debug, PartialEq, Eq)]
pub enum BinaryForm {
    /// This operation.
    Is(Op2),
    /// This operation, and then whether the number that it gives is zero.
    IsNot(Op2),
}

/// The script of a lock around a hash. Source: the Bitcoin Cash specification, the standard forms of locking scripts.
#[derive(Clone, Copy, Debug, PartialEq, Eq)]
pub enum Lock {
    /// By the hash of a key: P2PKH.
    KeyHash,
    /// By the hash of a script: P2SH.
    ScriptHash,
}

/// What a built-in function or an instantiation does with its arguments.
#[derive(Clone, Copy, Debug, PartialEq, Eq)]
pub enum CallForm {
    /// This operation on one element.
    One(Op1),
    /// This operation on two elements.
    Two(Op2),
    /// This operation on three elements.
    Three(Op3),
    /// The check of a signature of the transaction, by a signature and a key.
    CheckSig,
    /// The check of a signature of a message, by a signature, the message and a key.
    CheckData,
    /// The check of several signatures of the transaction, by an array of signatures and one of keys.
    CheckMulti,
    /// The script of a lock around a hash.
    Locks(Lock),
    /// The script that holds the chunks of an array.
    HoldsData,
}

/// The operation of an operator with one side.
pub fn unary_op(op: UnaryOp) -> Op1
    ensures { result ≡ table.unary_op op }
{
    match op {
        UnaryOp::Not => Op1::Not,
        UnaryOp::Negate => Op1::Negate,
    }
}

/// Whether it is the type of numbers.
pub fn is_int(ty: &Ty) -> bool
    ensures { result ≡ table.is_int ty.now }
{
    matches!(ty, Ty::Int)
}

/// What an operator with two sides does, where they are numbers or not. It is this project's own, after the CashScript
/// documentation on operators.
pub fn binary_form(numbers: bool, op: BinaryOp) -> BinaryForm
    ensures { result ≡ table.binary_form numbers op }
{
    match op {
        BinaryOp::Or => BinaryForm::Is(Op2::BoolOr),
        BinaryOp::And => BinaryForm::Is(Op2::BoolAnd),
        BinaryOp::BitOr => BinaryForm::Is(Op2::Or),
        BinaryOp::BitXor => BinaryForm::Is(Op2::Xor),
        BinaryOp::BitAnd => BinaryForm::Is(Op2::And),
        BinaryOp::Equal if numbers => BinaryForm::Is(Op2::NumEqual),
        BinaryOp::Equal => BinaryForm::Is(Op2::Equal),
        BinaryOp::NotEqual if numbers => BinaryForm::Is(Op2::NumNotEqual),
        BinaryOp::NotEqual => BinaryForm::IsNot(Op2::Equal),
        BinaryOp::Less => BinaryForm::Is(Op2::Less),
        BinaryOp::LessEqual => BinaryForm::Is(Op2::LessEqual),
        BinaryOp::Greater => BinaryForm::Is(Op2::Greater),
        BinaryOp::GreaterEqual => BinaryForm::Is(Op2::GreaterEqual),
        BinaryOp::Add if numbers => BinaryForm::Is(Op2::Add),
        BinaryOp::Add => BinaryForm::Is(Op2::Cat),
        BinaryOp::Sub => BinaryForm::Is(Op2::Sub),
        BinaryOp::Mul => BinaryForm::Is(Op2::Mul),
        BinaryOp::Div => BinaryForm::Is(Op2::Div),
        BinaryOp::Mod => BinaryForm::Is(Op2::Mod),
    }
}

/// What a built-in function or an instantiation does.
pub fn call_form(builtin: Builtin) -> CallForm
    ensures { result ≡ table.call_form builtin }
{
    match builtin {
        Builtin::Abs => CallForm::One(Op1::Abs),
        Builtin::Min => CallForm::Two(Op2::Min),
        Builtin::Max => CallForm::Two(Op2::Max),
        Builtin::Within => CallForm::Three(Op3::Within),
        Builtin::Ripemd160 => CallForm::One(Op1::Ripemd160),
        Builtin::Sha1 => CallForm::One(Op1::Sha1),
        Builtin::Sha256 => CallForm::One(Op1::Sha256),
        Builtin::Hash160 => CallForm::One(Op1::Hash160),
        Builtin::Hash256 => CallForm::One(Op1::Hash256),
        Builtin::CheckSig => CallForm::CheckSig,
        Builtin::CheckDataSig => CallForm::CheckData,
        Builtin::CheckMultiSig => CallForm::CheckMulti,
        Builtin::LockingBytecodeP2PKH => CallForm::Locks(Lock::KeyHash),
        Builtin::LockingBytecodeP2SH => CallForm::Locks(Lock::ScriptHash),
        Builtin::LockingBytecodeNullData => CallForm::HoldsData,
    }
}

/// The bytes of a lock in front of its hash.
pub fn lock_front(lock: Lock) -> &'static [u8]
    ensures { result.now ≡ table.lock_front lock }
{
    match lock {
        Lock::KeyHash => &[0x76, 0xa9, 0x14],
        Lock::ScriptHash => &[0xa9, 0x14],
    }
}

/// The bytes of a lock after its hash.
pub fn lock_back(lock: Lock) -> &'static [u8]
    ensures { result.now ≡ table.lock_back lock }
{
    match lock {
        Lock::KeyHash => &[0x88, 0xac],
        Lock::ScriptHash => &[0x87],
    }
}
