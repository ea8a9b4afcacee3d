//! Places in a source, and the slots of its names.

ghost use Rattle.std.specs.Prelude.{◌≡◌};
ghost use Rattle.cash_base.specs.Source;

/// The bytes of a source from `from` up to but not including `to`, counted from 0.
///
/// `from` is meant to be at most `to`; where it isn't, the text of the span is empty.
#[derive(Clone, Copy, Debug, PartialEq, Eq)]
pub struct Span {
    pub from: u32,
    pub to: u32,
}

/// The number of a variable: the constructor's parameters from 0, then in each function anew its parameters and
/// definitions in the order of the text.
#[derive(Clone, Copy, Debug, PartialEq, Eq)]
pub struct Slot(pub u16);

/// The text of a source at a span; of a span that reaches past the source, what there is of it. It takes no memory.
pub fn text_at(source: &[u8], span: Span) -> &[u8]
    ensures { result.now ≡ Source.text_at source.now span }
{
    let rest = source.get(span.from as usize..).unwrap_or(&[]);
    let len = span.to.saturating_sub(span.from) as usize;
    rest.get(..len).unwrap_or(rest)
}
