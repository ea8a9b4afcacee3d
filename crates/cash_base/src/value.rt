//! Values that a contract is called with.

use crate::element::Element;

/// A value for a parameter of a contract's constructor or of one of its functions, as its writer gave it.
#[derive(Debug, Drop, PartialEq, Eq)]
pub enum TypedValue {
    /// A whole number.
    Int(i64),
    /// A truth value.
    Bool(bool),
    /// A text, or the bytes that it spells in hexadecimal.
    Text(String),
    /// An element of the machine's stack, as it is.
    Raw(Element),
}
