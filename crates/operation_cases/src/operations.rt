//! The operations on elements, and RIPEMD-160 of any bytes.

use crate::words::{bytes, element, outcome, word};
use anyhow::{Result, ensure};
use cash_base::Element;
use element_ops::{Op1, Op2, Op3, apply1, apply2, apply3, of_width, shortest, split};
use ripemd160::ripemd160;
use std::alloc::Global;

const ONE: [(&str, Op1); 14] = [
    ("negate", Op1::Negate),
    ("abs", Op1::Abs),
    ("not", Op1::Not),
    ("non_zero", Op1::NonZero),
    ("add_one", Op1::AddOne),
    ("sub_one", Op1::SubOne),
    ("size", Op1::Size),
    ("reverse", Op1::Reverse),
    ("to_number", Op1::ToNumber),
    ("ripemd160", Op1::Ripemd160),
    ("sha1", Op1::Sha1),
    ("sha256", Op1::Sha256),
    ("hash160", Op1::Hash160),
    ("hash256", Op1::Hash256),
];

const TWO: [(&str, Op2); 21] = [
    ("add", Op2::Add),
    ("sub", Op2::Sub),
    ("mul", Op2::Mul),
    ("div", Op2::Div),
    ("mod", Op2::Mod),
    ("min", Op2::Min),
    ("max", Op2::Max),
    ("less", Op2::Less),
    ("greater", Op2::Greater),
    ("less_equal", Op2::LessEqual),
    ("greater_equal", Op2::GreaterEqual),
    ("num_equal", Op2::NumEqual),
    ("num_not_equal", Op2::NumNotEqual),
    ("bool_and", Op2::BoolAnd),
    ("bool_or", Op2::BoolOr),
    ("equal", Op2::Equal),
    ("and", Op2::And),
    ("or", Op2::Or),
    ("xor", Op2::Xor),
    ("cat", Op2::Cat),
    ("pad", Op2::Pad),
];

/// The operation of a name.
fn named<T: Copy>(operations: &[(&str, T)], name: &str) -> Option<T> {
    for (other, operation) in operations {
        if *other == name {
            return Some(*operation);
        }
    }
    None
}

/// What a call of these gives, or `None` where it is none of them.
pub fn answer(alloc: Global, call: &str, a: &str, b: &str, c: &str) -> Result<Option<String>> {
    if let Some(op) = named(&ONE, call) {
        let a = element(alloc, a)?;
        return Ok(Some(outcome(alloc, apply1(op, a.as_slice()))?));
    }
    if let Some(op) = named(&TWO, call) {
        let (a, b) = (element(alloc, a)?, element(alloc, b)?);
        let result = apply2(op, a.as_slice(), b.as_slice());
        return Ok(Some(outcome(alloc, result)?));
    }
    Ok(Some(match call {
        "within" => {
            let (a, b, c) = (element(alloc, a)?, element(alloc, b)?, element(alloc, c)?);
            let result = apply3(Op3::Within, a.as_slice(), b.as_slice(), c.as_slice());
            outcome(alloc, result)?
        }
        "split" => {
            let (a, b) = (element(alloc, a)?, element(alloc, b)?);
            parts(alloc, &a, &b)?
        }
        "shortest" => {
            let a = element(alloc, a)?;
            word(alloc, shortest(a.as_slice()).as_slice())?
        }
        "of_width" => {
            let a = element(alloc, a)?;
            let width = b.parse::<usize>()?;
            ensure!(width <= 520, "no element is so wide");
            ensure!(shortest(a.as_slice()).len() <= width, "it is wider");
            word(alloc, of_width(a.as_slice(), width).as_slice())?
        }
        "digest" => {
            let message = bytes(alloc, a)?;
            word(alloc, &ripemd160(message.as_slice()))?
        }
        _ => return Ok(None),
    }))
}

/// The two parts of a split, or its cause.
fn parts(alloc: Global, a: &Element, n: &Element) -> Result<String> {
    match split(a.as_slice(), n.as_slice()) {
        Ok((front, back)) => {
            let front = word(alloc, front.as_slice())?;
            let back = word(alloc, back.as_slice())?;
            Ok(format!(in alloc; "{front} {back}")?)
        }
        Err(cause) => outcome(alloc, Err(cause)),
    }
}
