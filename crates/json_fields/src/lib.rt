//! What the readers of JSON files share: the object of a file, lists of objects or texts, whole numbers, hexadecimal.
#![tactic(auto)]

pub mod document;
pub mod list;
pub mod value;

pub use document::object_in;
pub use list::{are_objects, are_texts, objects_of, texts_of};
pub use value::{Whole, hex_bytes, natural_within, whole_of};
