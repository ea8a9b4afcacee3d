//! Fields of an artifact that hold a text, a list of objects or an object.

ghost use Rattle.std.specs.Prelude.{◌≡◌};
ghost use Rattle.serde_json.specs.View.{view, items_view};
ghost use Rattle.artifact_json.specs.Fields.{Gives, needed, text_at, object_at, objects_at};

use crate::fault::{ArtifactFault, Field};
use json_fields::objects_of;
use serde_json::Value;

/// A field that has to be there.
#[tactic(auto, unfolding(crate::specs::Fields::needed))]
fn needed(value: &Value, field: Field) -> Result<&Value, ArtifactFault>
    ensures { Gives (λ v. view v.now) result (needed field (view value.now)) }
{
    value
        .get(field.key())
        .ok_or(ArtifactFault::Missing { field })
}

/// A text.
#[tactic(auto, unfolding(crate::specs::Fields::text_at))]
pub fn text_at(value: &Value, field: Field) -> Result<&str, ArtifactFault>
    ensures { Gives (λ s. s.now) result (text_at field (view value.now)) }
{
    let value = needed(value, field)?;
    value.as_str().ok_or(ArtifactFault::WrongKind { field })
}

/// An object.
#[tactic(auto, unfolding(crate::specs::Fields::object_at))]
pub fn object_at(value: &Value, field: Field) -> Result<&Value, ArtifactFault>
    ensures { Gives (λ v. view v.now) result (object_at field (view value.now)) }
{
    let value = needed(value, field)?;
    if !value.is_object() {
        return Err(ArtifactFault::WrongKind { field });
    }
    Ok(value)
}

/// A list of objects, from `least` to `most`; fewer are of the wrong kind, and more are too many.
#[tactic(auto, unfolding(crate::specs::Fields::objects_at), using(json_fields::proofs::Items::count_items))]
pub fn objects_at(
    value: &Value,
    field: Field,
    least: usize,
    most: usize,
) -> Result<&Vec<Value>, ArtifactFault>
    ensures { Gives (λ v. items_view v.now.items) result (objects_at least most field (view value.now)) }
{
    let value = needed(value, field)?;
    let items = objects_of(value).ok_or(ArtifactFault::WrongKind { field })?;
    if items.len() < least {
        return Err(ArtifactFault::WrongKind { field });
    }
    if items.len() > most {
        return Err(ArtifactFault::TooMany { field });
    }
    Ok(items)
}
