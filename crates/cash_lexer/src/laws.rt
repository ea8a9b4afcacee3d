//! Laws on the tokens of a source.

ghost use Rattle.std.specs.Prelude.{◌≡◌, ℕ, List, ◌+◌, drop, Ok};
ghost use Rattle.std.specs.List.{AllByRecursion};
ghost use Rattle.cash_tree.specs.declared.Token.{Token as CashToken};
ghost use Rattle.cash_lexer.specs.Tokens.{finds_with, finds, lexed};
ghost use Rattle.cash_lexer.specs.Rows.{piece_of};
ghost use Rattle.cash_lexer.specs.Laws.{IsCut, NextAre, HasWordText};

/// What is found in a text is found piece by piece: after a gap and after a token the rest goes on in the same way, and
/// a fault ends it.
pub fn finds_go_by_pieces()
    ensures { (at : ℕ) (text : List ℕ) → finds at text ≡ finds_with at (piece_of text) (λ len. finds (at + len) (drop len text)) }
{}

/// The tokens of a source stand in order, don't overlap and lie inside it; each is the one with which the source goes
/// on at its place; and what stands before, between and after them is blanks and comments.
pub fn tokens_cut_the_source()
    ensures { (source : List ℕ) (tokens : List CashToken) → lexed source ≡ Ok tokens → IsCut 0 tokens source }
{}

/// From the start of a source on, and from the end of each of its tokens on, `next_token` gives the next one.
pub fn next_tokens_are_the_tokens()
    ensures { (source : List ℕ) (tokens : List CashToken) → lexed source ≡ Ok tokens → NextAre 0 tokens source }
{}

/// The text of each token of a source that is a word is UTF-8, since letters, digits and `_` are ASCII.
pub fn words_have_texts()
    ensures { (source : List ℕ) (tokens : List CashToken) → lexed source ≡ Ok tokens
        → AllByRecursion (HasWordText source) tokens }
{}
