//! How the contract is spent: by a call, or by pushes.

ghost use Rattle.std.specs.Prelude.{◌≡◌, Ok, map, option_map, string_bytes};
ghost use Rattle.serde_json.specs.View.{view, items_view};
ghost use Rattle.json_fields.specs.Fields.{all_of, each};
ghost use Rattle.spend_json.specs.Fields.{Gives};
ghost use Rattle.spend_json.specs.Given.{choice_parts};
ghost use Rattle.spend_json.specs.Choices.{function_at, is_called, is_hex_push, push_of, pushes_of, choice_at};

use crate::fault::{SpendFault, SpendField};
use crate::fields::text_of;
use crate::values::{element_of, is_hex, values_at};
use cash_base::{Element, TypedValue};
use json_fields::texts_of;
use serde_json::Value;
use std::alloc::Global;

/// At most so many elements are pushed.
const MOST_PUSHES: usize = 1000;

/// How the contract is spent.
#[derive(Debug, Drop)]
pub enum Choice {
    /// By a call of one of its functions.
    Call {
        /// The name of the function, or none where the file leaves it open: then it is the only one.
        function: Option<String>,
        /// The values of its parameters, in the order of the source; at most 16.
        args: Vec<TypedValue>,
    },
    /// By pushes of these elements in order; at most 1,000.
    Pushes(Vec<Element>),
}

#[tactic(auto, unfolding(crate::specs::Choices::function_at))]
fn function_at(alloc: Global, value: &Value) -> Result<Option<String>, SpendFault>
    ensures { Gives (λ o. option_map string_bytes o) result (function_at (view value.now)) }
{
    match value.get(SpendField::Function.key()) {
        None => Ok(None),
        Some(value) => {
            let text = text_of(value, SpendField::Function)?;
            let name = String::from_str(alloc, text)?;
            Ok(Some(name))
        }
    }
}

// Whether a part of a call is there.
fn is_called(value: &Value) -> bool
    ensures { result ≡ is_called (view value.now) }
{
    value.get(SpendField::Function.key()).is_some()
        || value.get(SpendField::Arguments.key()).is_some()
}

#[tactic(auto, unfolding(crate::specs::Choices::is_hex_push))]
fn is_hex_push(alloc: Global, value: &Value) -> Result<bool, SpendFault>
    ensures { Gives (λ b. b) result (Ok (is_hex_push (view value.now))) }
{
    match value.as_str() {
        None => Ok(true),
        Some(text) => {
            let is = is_hex(alloc, text)?;
            Ok(is)
        }
    }
}

fn are_hex_pushes(alloc: Global, items: &[Value]) -> Result<bool, SpendFault>
    ensures { Gives (λ b. b) result (Ok (all_of is_hex_push (items_view items.now))) }
{
    for item in items {
        if !is_hex_push(alloc, item)? {
            return Ok(false);
        }
    }
    Ok(true)
}

#[tactic(auto, unfolding(crate::specs::Choices::push_of))]
fn push_of(alloc: Global, value: &Value) -> Result<Element, SpendFault>
    ensures { Gives (λ e. e.items) result (push_of (view value.now)) }
{
    let text = text_of(value, SpendField::Pushes)?;
    let element = element_of(alloc, text, SpendField::Pushes)?;
    Ok(element)
}

fn each_push(alloc: Global, items: &[Value]) -> Result<Vec<Element>, SpendFault>
    ensures { Gives (λ v. map (λ e. e.items) v.items) result (each push_of (items_view items.now)) }
{
    let mut pushes = Vec::new(alloc);
    for item in items {
        let push = push_of(alloc, item)?;
        pushes.push(push)?;
    }
    Ok(pushes)
}

#[tactic(auto, unfolding(crate::specs::Choices::pushes_of), using(json_fields::proofs::Items::count_items))]
fn pushes_of(alloc: Global, value: &Value, is_called: bool) -> Result<Vec<Element>, SpendFault>
    ensures { Gives (λ v. map (λ e. e.items) v.items) result (pushes_of is_called (view value.now)) }
{
    let field = SpendField::Pushes;
    let items = texts_of(value).ok_or(SpendFault::WrongKind { field })?;
    if is_called {
        return Err(SpendFault::WrongKind { field });
    }
    if items.len() > MOST_PUSHES {
        return Err(SpendFault::TooMany { field });
    }
    if !are_hex_pushes(alloc, items)? {
        return Err(SpendFault::BadHex { field });
    }
    let pushes = each_push(alloc, items)?;
    Ok(pushes)
}

/// The call, or the pushes, of a file.
#[tactic(auto, unfolding(crate::specs::Choices::choice_at))]
pub(crate) fn choice_at(alloc: Global, value: &Value) -> Result<Choice, SpendFault>
    ensures { Gives choice_parts result (choice_at (view value.now)) }
{
    let function = function_at(alloc, value)?;
    let args = values_at(alloc, value, SpendField::Arguments)?;
    match value.get(SpendField::Pushes.key()) {
        None => Ok(Choice::Call { function, args }),
        Some(pushes) => {
            let pushes = pushes_of(alloc, pushes, is_called(value))?;
            Ok(Choice::Pushes(pushes))
        }
    }
}
