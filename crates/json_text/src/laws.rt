//! Reading undoes writing.

ghost use Rattle.std.specs.Prelude.{◌≡◌, ◌≤◌, Some};
ghost use Rattle.serde_json.specs.Data.{Data, depth};
ghost use Rattle.serde_json.specs.Read.{max_depth, read};
ghost use Rattle.json_text.specs.Text.{IsPlain, pretty_text};

/// The text of a plain value reads as the value, where lists and objects nest to at most 127 levels.
pub fn text_is_read_back()
    ensures { (value : Data) → IsPlain value → depth value ≤ max_depth → read (pretty_text value) ≡ Some value }
{}
