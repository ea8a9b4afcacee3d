//! The elements that values stand for.

ghost use Rattle.std.specs.Prelude.{◌≡◌, ◌⊎◌, ℕ, List, Ok, Err, IfOk, IfErr};
ghost use Rattle.cash_tree.specs.declared.Ty.{Ty};
ghost use Rattle.cash_tree.specs.declared.Ty.TheViews.{out-Ty};
ghost use Rattle.source_meaning.specs.Fits.{Fits};
ghost use Rattle.spend_json.specs.Given.{ValueParts, value_parts};
ghost use Rattle.unlocker.specs.declared.BuildFault.TheVariants as faults;
ghost use Rattle.unlocker.specs.Values;
ghost use Rattle.unlocker.specs.Values.{element_for, IsTyped};

use crate::{BuildFault, capped};
use cash_base::element::copy_of;
use cash_base::number::number_of_written;
use cash_base::{Element, MAX_ELEMENT_LEN, TypedValue, write_number};
use cash_tree::Ty;
use json_fields::hex_bytes;
use std::alloc::Global;

/// The element that a value stands for, as a parameter of a type.
///
/// A raw value is its element, whatever the type. Else `int` takes a number, `bool` a truth value (01, or the empty element),
/// `string` a text (its bytes), and each type of bytes a text of hexadecimal digits in pairs, which may begin with `0x`.
/// `WrongValue` comes exactly for a value of another kind, and for a text that should spell bytes and doesn't; `IntRange` for
/// -9,223,372,036,854,775,808; `TooLong` for more than 520 bytes; and then `WrongLength` for a `bytesN` of other than N bytes.
/// Arrays and pairs, which no parameter has, take raw values alone. Memory may be wanting for a text that spells bytes.
pub fn element_of(alloc: Global, ty: &Ty, value: &TypedValue) -> Result<Element, BuildFault>
    ensures is { IfOk result (λ e. element_for ty.now (value_parts value.now) ≡ Ok e.items) }
    ensures refused { IfErr result (λ fault. (fault ≡ faults.Memory) ⊎ (element_for ty.now (value_parts value.now) ≡ Err fault)) }
{
    match value {
        TypedValue::Int(number) => Ok(number_for(ty, *number)?),
        TypedValue::Bool(truth) => Ok(truth_for(ty, *truth)?),
        TypedValue::Text(text) => Ok(text_for(alloc, ty, text.as_str())?),
        TypedValue::Raw(element) => Ok(copy_of(element.as_slice())),
    }
}

/// The element of a value that isn't raw is a value of the type: of `int` it is a number, and of `bool` the empty element or 01.
pub fn elements_fit()
    ensures { (ty : Ty) (value : ValueParts) (e : List ℕ) → IsTyped value → element_for ty value ≡ Ok e → Fits ty e }
{
    number_of_written();
}

fn number_for(ty: &Ty, number: i64) -> Result<Element, BuildFault>
    ensures is { IfOk result (λ e. Values.number_for (out-Ty ty.now) number ≡ Ok e.items) }
    ensures refused { IfErr result (λ fault. Values.number_for (out-Ty ty.now) number ≡ Err fault) }
{
    match ty {
        Ty::Int => {
            if number == i64::MIN {
                return Err(BuildFault::IntRange);
            }
            Ok(write_number(number))
        }
        _ => Err(BuildFault::WrongValue),
    }
}

fn truth_for(ty: &Ty, truth: bool) -> Result<Element, BuildFault>
    ensures is { IfOk result (λ e. Values.truth_for (out-Ty ty.now) truth ≡ Ok e.items) }
    ensures refused { IfErr result (λ fault. Values.truth_for (out-Ty ty.now) truth ≡ Err fault) }
{
    match ty {
        Ty::Bool if truth => Ok(copy_of(&[1])),
        Ty::Bool => Ok(Element::new()),
        _ => Err(BuildFault::WrongValue),
    }
}

fn text_for(alloc: Global, ty: &Ty, text: &str) -> Result<Element, BuildFault>
    ensures is { IfOk result (λ e. Values.text_for (out-Ty ty.now) text.now ≡ Ok e.items) }
    ensures refused { IfErr result (λ fault. (fault ≡ faults.Memory) ⊎ (Values.text_for (out-Ty ty.now) text.now ≡ Err fault)) }
{
    match ty {
        Ty::Text => Ok(within_element(text.as_bytes())?),
        Ty::Bytes | Ty::Pubkey | Ty::Sig | Ty::Datasig => Ok(spelled(alloc, text)?),
        Ty::BytesN(wanted) => {
            let element = spelled(alloc, text)?;
            Ok(exactly(*wanted, element)?)
        }
        _ => Err(BuildFault::WrongValue),
    }
}

/// An element has at most 520 bytes.
fn within_element(bytes: &[u8]) -> Result<Element, BuildFault>
    ensures is { IfOk result (λ e. Values.within_element bytes.now ≡ Ok e.items) }
    ensures refused { IfErr result (λ fault. Values.within_element bytes.now ≡ Err fault) }
{
    if bytes.len() > MAX_ELEMENT_LEN {
        let bytes = capped(bytes.len());
        return Err(BuildFault::TooLong { bytes });
    }
    Ok(copy_of(bytes))
}

fn exactly(wanted: u16, element: Element) -> Result<Element, BuildFault>
    ensures is { IfOk result (λ e. Values.exactly wanted element.items ≡ Ok e.items) }
    ensures refused { IfErr result (λ fault. Values.exactly wanted element.items ≡ Err fault) }
{
    if element.len() == usize::from(wanted) {
        return Ok(element);
    }
    let wanted = u32::from(wanted);
    let found = capped(element.len());
    Err(BuildFault::WrongLength { wanted, found })
}

/// The bytes that a text spells in hexadecimal.
fn spelled(alloc: Global, text: &str) -> Result<Element, BuildFault>
    ensures is { IfOk result (λ e. Values.spelled text.now ≡ Ok e.items) }
    ensures refused { IfErr result (λ fault. (fault ≡ faults.Memory) ⊎ (Values.spelled text.now ≡ Err fault)) }
{
    let decoded = hex_bytes(alloc, digits_of(text))?;
    match decoded {
        None => Err(BuildFault::WrongValue),
        Some(bytes) => Ok(within_element(bytes.as_slice())?),
    }
}

/// The digits of a text, which may begin with `0x`.
fn digits_of(text: &str) -> &str
    ensures { result.now ≡ Values.digits_of text.now }
{
    match text.strip_prefix("0x") {
        Some(digits) => digits,
        None => text,
    }
}
