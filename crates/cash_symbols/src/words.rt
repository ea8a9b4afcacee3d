//! The words and signs of the grammar, as tables of texts.

ghost use Rattle.std.specs.Prelude.{◌≡◌, map};
ghost use Rattle.std.specs.List.{list_any};
ghost use Rattle.cash_symbols.specs.Words;

use cash_base::{Look0, LookAt};
use cash_tree::{BinaryOp, Builtin, Ty, UnaryOp};

/// What a transaction has: one value, or a list.
#[derive(Clone, Copy, Debug, PartialEq, Eq)]
pub enum Property {
    Whole(Look0),
    Listed(Side),
}

/// A list that a transaction has.
#[derive(Clone, Copy, Debug, PartialEq, Eq)]
pub enum Side {
    Inputs,
    Outputs,
}

/// What may stand after an expression and a dot.
#[derive(Clone, Copy, Debug, PartialEq, Eq)]
pub enum Suffix {
    Length,
    Reverse,
    Split,
}

const OPERATORS: [(&[u8], (u8, BinaryOp)); 16] = [
    (b"*", (1, BinaryOp::Mul)),
    (b"/", (1, BinaryOp::Div)),
    (b"%", (1, BinaryOp::Mod)),
    (b"+", (2, BinaryOp::Add)),
    (b"-", (2, BinaryOp::Sub)),
    (b"<", (3, BinaryOp::Less)),
    (b"<=", (3, BinaryOp::LessEqual)),
    (b">", (3, BinaryOp::Greater)),
    (b">=", (3, BinaryOp::GreaterEqual)),
    (b"==", (4, BinaryOp::Equal)),
    (b"!=", (4, BinaryOp::NotEqual)),
    (b"&", (5, BinaryOp::BitAnd)),
    (b"^", (6, BinaryOp::BitXor)),
    (b"|", (7, BinaryOp::BitOr)),
    (b"&&", (8, BinaryOp::And)),
    (b"||", (9, BinaryOp::Or)),
];

const PREFIXES: [(&[u8], UnaryOp); 2] = [(b"!", UnaryOp::Not), (b"-", UnaryOp::Negate)];

const KEYWORDS: [&[u8]; 13] = [
    b"pragma",
    b"cashscript",
    b"contract",
    b"function",
    b"if",
    b"else",
    b"require",
    b"new",
    b"true",
    b"false",
    b"constant",
    b"tx",
    b"this",
];

const CONSTRAINT_SIGNS: [&[u8]; 7] = [b"^", b"~", b">=", b">", b"<", b"<=", b"="];

const UNITS: [(&[u8], u64); 10] = [
    (b"satoshis", 1),
    (b"sats", 1),
    (b"finney", 10),
    (b"bits", 100),
    (b"bitcoin", 100_000_000),
    (b"seconds", 1),
    (b"minutes", 60),
    (b"hours", 3600),
    (b"days", 86400),
    (b"weeks", 604800),
];

const FUNCTIONS: [(&[u8], Builtin); 12] = [
    (b"abs", Builtin::Abs),
    (b"min", Builtin::Min),
    (b"max", Builtin::Max),
    (b"within", Builtin::Within),
    (b"ripemd160", Builtin::Ripemd160),
    (b"sha1", Builtin::Sha1),
    (b"sha256", Builtin::Sha256),
    (b"hash160", Builtin::Hash160),
    (b"hash256", Builtin::Hash256),
    (b"checkSig", Builtin::CheckSig),
    (b"checkDataSig", Builtin::CheckDataSig),
    (b"checkMultiSig", Builtin::CheckMultiSig),
];

const INSTANTIATIONS: [(&[u8], Builtin); 3] = [
    (b"LockingBytecodeP2PKH", Builtin::LockingBytecodeP2PKH),
    (b"LockingBytecodeP2SH", Builtin::LockingBytecodeP2SH),
    (b"LockingBytecodeNullData", Builtin::LockingBytecodeNullData),
];

const SUFFIXES: [(&[u8], Suffix); 3] = [
    (b"length", Suffix::Length),
    (b"reverse", Suffix::Reverse),
    (b"split", Suffix::Split),
];

const PROPERTIES: [(&[u8], Property); 4] = [
    (b"version", Property::Whole(Look0::Version)),
    (b"locktime", Property::Whole(Look0::Locktime)),
    (b"inputs", Property::Listed(Side::Inputs)),
    (b"outputs", Property::Listed(Side::Outputs)),
];

const ACTIVE: [(&[u8], Look0); 2] = [
    (b"activeInputIndex", Look0::ActiveIndex),
    (b"activeBytecode", Look0::ActiveBytecode),
];

const INPUT_MEMBERS: [(&[u8], LookAt); 6] = [
    (b"value", LookAt::UtxoValue),
    (b"lockingBytecode", LookAt::UtxoBytecode),
    (b"outpointTransactionHash", LookAt::OutpointHash),
    (b"outpointIndex", LookAt::OutpointIndex),
    (b"unlockingBytecode", LookAt::InputBytecode),
    (b"sequenceNumber", LookAt::InputSequence),
];

const OUTPUT_MEMBERS: [(&[u8], LookAt); 2] = [
    (b"value", LookAt::OutputValue),
    (b"lockingBytecode", LookAt::OutputBytecode),
];

/// Whether two texts are the same bytes.
pub fn is_text(text: &[u8], other: &[u8]) -> bool
    ensures { result ≡ Words.is_text text.now other.now }
{
    text == other
}

/// The value of the first row of a table with this text.
fn row_value<A: Copy>(rows: &[(&[u8], A)], text: &[u8]) -> Option<A>
    ensures { result ≡ Words.row_value (map (λ row. (row.0.now, row.1)) rows.now) text.now }
{
    match rows {
        [] => None,
        [row, others @ ..] => {
            if is_text(text, row.0) {
                Some(row.1)
            } else {
                row_value(others, text)
            }
        }
    }
}

/// The level and the operator with two sides of a sign.
#[tactic(auto, unfolding(crate::specs::Words::operator_of))]
pub fn operator_of(text: &[u8]) -> Option<(u8, BinaryOp)>
    ensures { result ≡ Words.operator_of text.now }
{
    row_value(&OPERATORS, text)
}

/// The operator with one side of a sign.
#[tactic(auto, unfolding(crate::specs::Words::prefix_of))]
pub fn prefix_of(text: &[u8]) -> Option<UnaryOp>
    ensures { result ≡ Words.prefix_of text.now }
{
    row_value(&PREFIXES, text)
}

/// Whether a text is among some words.
fn is_among(text: &[u8], words: &[&[u8]]) -> bool
    ensures { result ≡ list_any (λ word. Words.is_text text.now word.now) words.now }
{
    words.iter().any(|word| is_text(text, word))
}

/// Whether a word is reserved, and names no type.
#[tactic(auto, unfolding(crate::specs::Words::is_keyword))]
pub fn is_keyword(text: &[u8]) -> bool
    ensures { result ≡ Words.is_keyword text.now }
{
    is_among(text, &KEYWORDS)
}

/// Whether a sign may stand in front of a version.
#[tactic(auto, unfolding(crate::specs::Words::is_constraint_sign))]
pub fn is_constraint_sign(text: &[u8]) -> bool
    ensures { result ≡ Words.is_constraint_sign text.now }
{
    is_among(text, &CONSTRAINT_SIGNS)
}

/// The number of up to three digits, from 1 to 520, without a leading zero.
fn size_of(digits: &[u8]) -> Option<u16>
    ensures { result ≡ Words.size_of digits.now }
{
    match digits {
        [a @ b'1'..=b'9'] => Some(u16::from(*a - b'0')),
        [a @ b'1'..=b'9', b @ b'0'..=b'9'] => Some(
            10 * u16::from(*a - b'0') + u16::from(*b - b'0'),
        ),
        [a @ b'1'..=b'9', b @ b'0'..=b'9', c @ b'0'..=b'9'] => {
            let size = 100 * u16::from(*a - b'0')
                + 10 * u16::from(*b - b'0')
                + u16::from(*c - b'0');
            if size <= 520 { Some(size) } else { None }
        }
        _ => None,
    }
}

/// The type of a word `bytesN`.
fn sized_bytes(text: &[u8]) -> Option<Ty>
    ensures { result ≡ Words.sized_bytes text.now }
{
    match text.strip_prefix(b"bytes".as_slice()) {
        Some(digits) => match size_of(digits) {
            Some(size) => Some(Ty::BytesN(size)),
            None => None,
        },
        None => None,
    }
}

/// The type that a word names.
#[tactic(auto, unfolding(crate::specs::Words::type_of))]
pub fn type_of(text: &[u8]) -> Option<Ty>
    ensures { result ≡ Words.type_of text.now }
{
    if is_text(text, b"int") {
        Some(Ty::Int)
    } else if is_text(text, b"bool") {
        Some(Ty::Bool)
    } else if is_text(text, b"string") {
        Some(Ty::Text)
    } else if is_text(text, b"pubkey") {
        Some(Ty::Pubkey)
    } else if is_text(text, b"sig") {
        Some(Ty::Sig)
    } else if is_text(text, b"datasig") {
        Some(Ty::Datasig)
    } else if is_text(text, b"byte") {
        Some(Ty::BytesN(1))
    } else if is_text(text, b"bytes") {
        Some(Ty::Bytes)
    } else {
        sized_bytes(text)
    }
}

/// How many of the smallest unit there are in a unit of money or time.
#[tactic(auto, unfolding(crate::specs::Words::unit_of))]
pub fn unit_of(text: &[u8]) -> Option<u64>
    ensures { result ≡ Words.unit_of text.now }
{
    row_value(&UNITS, text)
}

/// The built-in function of a name.
#[tactic(auto, unfolding(crate::specs::Words::function_of))]
pub fn function_of(text: &[u8]) -> Option<Builtin>
    ensures { result ≡ Words.function_of text.now }
{
    row_value(&FUNCTIONS, text)
}

/// The instantiation of a name.
#[tactic(auto, unfolding(crate::specs::Words::instantiation_of))]
pub fn instantiation_of(text: &[u8]) -> Option<Builtin>
    ensures { result ≡ Words.instantiation_of text.now }
{
    row_value(&INSTANTIATIONS, text)
}

/// What a name after an expression and a dot stands for.
#[tactic(auto, unfolding(crate::specs::Words::suffix_of))]
pub fn suffix_of(text: &[u8]) -> Option<Suffix>
    ensures { result ≡ Words.suffix_of text.now }
{
    row_value(&SUFFIXES, text)
}

/// What a name after `tx.` stands for.
#[tactic(auto, unfolding(crate::specs::Words::property_of))]
pub fn property_of(text: &[u8]) -> Option<Property>
    ensures { result ≡ Words.property_of text.now }
{
    row_value(&PROPERTIES, text)
}

/// What a name after `this.` stands for.
#[tactic(auto, unfolding(crate::specs::Words::active_of))]
pub fn active_of(text: &[u8]) -> Option<Look0>
    ensures { result ≡ Words.active_of text.now }
{
    row_value(&ACTIVE, text)
}

/// The number of inputs, or of outputs.
pub fn count_of(side: Side) -> Look0
    ensures { result ≡ Words.count_of side }
{
    match side {
        Side::Inputs => Look0::InputCount,
        Side::Outputs => Look0::OutputCount,
    }
}

/// What a name after an input and a dot stands for.
#[tactic(auto, unfolding(crate::specs::Words::input_member_of))]
fn input_member_of(text: &[u8]) -> Option<LookAt>
    ensures { result ≡ Words.input_member_of text.now }
{
    row_value(&INPUT_MEMBERS, text)
}

/// What a name after an output and a dot stands for.
#[tactic(auto, unfolding(crate::specs::Words::output_member_of))]
fn output_member_of(text: &[u8]) -> Option<LookAt>
    ensures { result ≡ Words.output_member_of text.now }
{
    row_value(&OUTPUT_MEMBERS, text)
}

/// What a name after an input, or an output, and a dot stands for.
pub fn member_of(side: Side, text: &[u8]) -> Option<LookAt>
    ensures { result ≡ Words.member_of side text.now }
{
    match side {
        Side::Inputs => input_member_of(text),
        Side::Outputs => output_member_of(text),
    }
}
