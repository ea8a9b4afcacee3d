//! Operations that read their operands as numbers.

ghost use Rattle.std.specs.Prelude.{◌≡◌, Ok, Err, IfOk, IfErr, IsTrue, int_div, int_rem};
ghost use Rattle.element_ops.specs.Operation.{divided, table1, table2};
ghost use Rattle.element_ops.specs.Reads.{reads_number, reads_numbers, number_result, numbers_result, within};

use crate::op::{Op1, Op2, Op3};
use crate::operand::{number_element, truth_element};
use cash_base::{Cause, Element};

/// What an operation on a number gives.
pub fn on_number(op: Op1, x: i64) -> Result<Element, Cause>
    requires { IsTrue (reads_number op) }
    ensures value { IfOk result (λ e. number_result (table1 op) x ≡ Ok e.items) }
    ensures cause { IfErr result (λ cause. number_result (table1 op) x ≡ Err cause) }
{
    match op {
        Op1::Negate => number_element(-i128::from(x)),
        Op1::Abs => number_element(i128::from(x).abs()),
        Op1::AddOne => number_element(i128::from(x) + 1),
        Op1::SubOne => number_element(i128::from(x) - 1),
        Op1::Not => Ok(truth_element(x == 0)),
        Op1::NonZero => Ok(truth_element(x != 0)),
        _ => unreachable!(),
    }
}

/// What an operation on two numbers gives.
pub fn on_numbers(op: Op2, x: i64, y: i64) -> Result<Element, Cause>
    requires { IsTrue (reads_numbers op) }
    ensures value { IfOk result (λ e. numbers_result (table2 op) x y ≡ Ok e.items) }
    ensures cause { IfErr result (λ cause. numbers_result (table2 op) x y ≡ Err cause) }
{
    match op {
        Op2::Add => number_element(i128::from(x) + i128::from(y)),
        Op2::Sub => number_element(i128::from(x) - i128::from(y)),
        Op2::Mul => number_element(i128::from(x) * i128::from(y)),
        Op2::Div => quotient(x, y),
        Op2::Mod => remainder(x, y),
        Op2::Min => number_element(i128::from(x.min(y))),
        Op2::Max => number_element(i128::from(x.max(y))),
        Op2::Less => Ok(truth_element(x < y)),
        Op2::Greater => Ok(truth_element(x > y)),
        Op2::LessEqual => Ok(truth_element(x <= y)),
        Op2::GreaterEqual => Ok(truth_element(x >= y)),
        Op2::NumEqual => Ok(truth_element(x == y)),
        Op2::NumNotEqual => Ok(truth_element(x != y)),
        Op2::BoolAnd => Ok(truth_element(x != 0 && y != 0)),
        Op2::BoolOr => Ok(truth_element(x != 0 || y != 0)),
        _ => unreachable!(),
    }
}

fn quotient(x: i64, y: i64) -> Result<Element, Cause>
    ensures value { IfOk result (λ e. divided int_div x y ≡ Ok e.items) }
    ensures cause { IfErr result (λ cause. divided int_div x y ≡ Err cause) }
{
    if y == 0 {
        return Err(Cause::DivideByZero);
    }
    number_element(i128::from(x) / i128::from(y))
}

fn remainder(x: i64, y: i64) -> Result<Element, Cause>
    ensures value { IfOk result (λ e. divided int_rem x y ≡ Ok e.items) }
    ensures cause { IfErr result (λ cause. divided int_rem x y ≡ Err cause) }
{
    if y == 0 {
        return Err(Cause::DivideByZero);
    }
    number_element(i128::from(x) % i128::from(y))
}

/// What an operation on three numbers gives.
pub fn on_three(op: Op3, x: i64, y: i64, z: i64) -> bool
    ensures { result ≡ within op x y z }
{
    match op {
        Op3::Within => y <= x && x < z,
    }
}
