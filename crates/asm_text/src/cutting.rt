//! The words of a text, one after another.

ghost use Rattle.std.specs.Prelude.{◌≡◌, ◌<◌, ◌≤◌, ◌+◌, ◌∷◌, [], false, length, take, drop, MatchOption, IfSome};
ghost use Rattle.std.specs.List.{position_from};
ghost use Rattle.script_codec.specs.Words;
ghost use Rattle.script_codec.specs.Words.{words};
ghost use Rattle.asm_text.specs.Cutting.{begins_blank};

/// The first word of a text, and what stands after it.
#[derive(Drop)]
pub struct FirstWord<'a> {
    pub word: &'a [u8],
    pub rest: &'a [u8],
}

/// The first word of a text, or `None` where it has none. It takes no memory.
pub fn first_word(text: &[u8]) -> Option<FirstWord<'_>>
    ensures words { MatchOption result (words text.now ≡ []) (λ cut. words text.now ≡ cut.word.now ∷ words cut.rest.now) }
    ensures shorter { IfSome result (λ cut. length cut.rest.now < length text.now) }
{
    cut_off(without_blanks(text))
}

/// The first word of a text that doesn't begin with a blank.
#[tactic(auto, using(crate::proofs::Cut::word_open))]
fn cut_off(text: &[u8]) -> Option<FirstWord<'_>>
    requires { begins_blank text.now ≡ false }
    ensures words { MatchOption result (words text.now ≡ []) (λ cut. words text.now ≡ cut.word.now ∷ words cut.rest.now) }
    ensures shorter { IfSome result (λ cut. length cut.rest.now < length text.now) }
{
    if let Some(at) = word_end(text) {
        let (word, _) = text.split_at(at);
        let (_, rest) = text.split_at(at + 1);
        return Some(FirstWord { word, rest });
    }
    if text.is_empty() {
        return None;
    }
    Some(FirstWord {
        word: text,
        rest: &[],
    })
}

/// Where the first word ends, which is at the first blank.
fn word_end(text: &[u8]) -> Option<usize>
    requires { begins_blank text.now ≡ false }
    ensures value { result ≡ position_from Words.is_blank 0 text.now }
    ensures within { IfSome result (λ at. at < length text.now) }
    ensures ended { IfSome result (λ at. words text.now ≡ take at text.now ∷ words (drop (at + 1) text.now)) }
{
    first_blank(text)
}

/// The place of the first blank.
fn first_blank(text: &[u8]) -> Option<usize>
    ensures { result ≡ position_from Words.is_blank 0 text.now }
{
    text.iter().position(|byte| is_blank(*byte))
}

/// Whether a byte is a blank: a space, a tab, a line feed or a carriage return.
fn is_blank(byte: u8) -> bool
    ensures { result ≡ Words.is_blank byte }
{
    matches!(byte, b' ' | b'\t' | b'\n' | b'\r')
}

/// The text without the blanks in front.
#[tactic(auto, using(crate::proofs::Cut::blank_skipped))]
fn without_blanks(text: &[u8]) -> &[u8]
    ensures words { words result.now ≡ words text.now }
    ensures front { begins_blank result.now ≡ false }
    ensures shorter { length result.now ≤ length text.now }
{
    let mut rest = text;
    'blanks: loop {
        match rest {
            [byte, tail @ ..] if is_blank(*byte) => rest = tail,
            _ => return rest,
        }
    }
}
