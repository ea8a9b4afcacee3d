//! Texts of cases, cut from the front: lines, and bytes whose number was told by a line.
#![tactic(auto)]

ghost use Rattle.std.specs.Prelude.{◌≡◌, ℕ, List, ◌∷◌, ◌++◌, length, IfSome};

/// The first line, without its line feed, and what stands after that; nothing where no line feed is left.
pub fn line(cases: &[u8]) -> Option<(&[u8], &[u8])>
    ensures cut { IfSome result (λ cut. cases.now ≡ cut.0.now ++ (10 ∷ cut.1.now)) }
{
    let at = cases.iter().position(|byte| *byte == b'\n')?;
    let (line, rest) = cases.split_at(at);
    let (_feed, after) = rest.split_first()?;
    Some((line, after))
}

/// So many bytes, and what stands after the line feed that follows them; nothing where it isn't there.
pub fn block(cases: &[u8], len: usize) -> Option<(&[u8], &[u8])>
    ensures cut { IfSome result (λ cut. cases.now ≡ cut.0.now ++ (10 ∷ cut.1.now)) }
    ensures len { IfSome result (λ cut. length cut.0.now ≡ len) }
{
    if len > cases.len() {
        return None;
    }
    let (block, rest) = cases.split_at(len);
    let (feed, after) = rest.split_first()?;
    if *feed != b'\n' {
        return None;
    }
    Some((block, after))
}
