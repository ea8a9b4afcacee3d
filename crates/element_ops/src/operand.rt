//! Reading and writing numbers and truth values.

ghost use Rattle.std.specs.Prelude.{◌≡◌, Ok, Err, IfOk, IfErr};
ghost use Rattle.element_ops.specs.Operand;
ghost use Rattle.cash_base.specs.Operand.{truth_bytes};

use cash_base::{Cause, Element, write_number};

/// The element of a number, or `NumberRange` where no element stands for it.
pub fn number_element(n: i128) -> Result<Element, Cause>
    ensures value { IfOk result (λ e. Operand.number_element n ≡ Ok e.items) }
    ensures cause { IfErr result (λ cause. Operand.number_element n ≡ Err cause) }
{
    if n.unsigned_abs() >= 1 << 63 {
        return Err(Cause::NumberRange);
    }
    Ok(write_number(n as i64))
}

/// The element of a truth value: 01, or the empty one.
pub fn truth_element(value: bool) -> Element
    ensures { result.items ≡ truth_bytes value }
{
    let mut element = Element::new();
    if value {
        element.push(1);
    }
    element
}
