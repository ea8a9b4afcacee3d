//! Lists whose items are all of one kind.

ghost use Rattle.std.specs.Prelude.{◌≡◌, option_map};
ghost use Rattle.serde_json.specs.View.{view, items_view};
ghost use Rattle.json_fields.specs.Fields.{all_of, is_object, is_text};
ghost use Rattle.json_fields.specs.Fields as fields;

use serde_json::Value;

/// Whether each item is an object. It takes no memory.
pub fn are_objects(items: &[Value]) -> bool
    ensures { result ≡ all_of is_object (items_view items.now) }
{
    for item in items {
        if !item.is_object() {
            return false;
        }
    }
    true
}

/// Whether each item is a text. It takes no memory.
pub fn are_texts(items: &[Value]) -> bool
    ensures { result ≡ all_of is_text (items_view items.now) }
{
    for item in items {
        if !item.is_string() {
            return false;
        }
    }
    true
}

/// The items of a list of objects, or `None` where the value is no list or an item is no object. It takes no memory.
#[tactic(auto, unfolding(crate::specs::Fields::objects_of))]
pub fn objects_of(value: &Value) -> Option<&Vec<Value>>
    ensures { option_map (λ v. items_view v.now.items) result ≡ fields.objects_of (view value.now) }
{
    let items = value.as_array()?;
    if are_objects(items) {
        Some(items)
    } else {
        None
    }
}

/// The items of a list of texts, or `None` where the value is no list or an item is no text. It takes no memory.
#[tactic(auto, unfolding(crate::specs::Fields::texts_of))]
pub fn texts_of(value: &Value) -> Option<&Vec<Value>>
    ensures { option_map (λ v. items_view v.now.items) result ≡ fields.texts_of (view value.now) }
{
    let items = value.as_array()?;
    if are_texts(items) { Some(items) } else { None }
}
