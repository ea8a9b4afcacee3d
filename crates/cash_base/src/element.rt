//! Elements of the machine's stack.

ghost use Rattle.std.specs.Prelude.{◌≡◌, ◌≤◌, length};

use arrayvec::ArrayVec;

/// An element of the stack: at most 520 bytes. It takes no memory, and contracts see it as its bytes, `e.items`.
///
/// The limit is the Bitcoin Cash specification's maximum size of a stack element.
pub type Element = ArrayVec<u8, 520>;

/// The most bytes of an element, and so of a redeem script.
///
/// Source: the Bitcoin Cash specification, the maximum size of a stack element.
pub const MAX_ELEMENT_LEN: usize = 520;

/// The element of these bytes, of which there are at most 520. It takes no memory.
pub fn copy_of(bytes: &[u8]) -> Element
    requires { length bytes.now ≤ 520 }
    ensures { result.items ≡ bytes.now }
{
    let mut element = Element::new();
    let _ = element.try_extend_from_slice(bytes);
    element
}
