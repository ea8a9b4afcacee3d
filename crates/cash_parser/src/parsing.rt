//! The tree of the tokens of a source.

ghost use Rattle.std.specs.Prelude.{◌≡◌, ◌≤◌, length, IfOk};
ghost use Rattle.cash_base.specs.Source.{AreInside};
ghost use Rattle.cash_symbols.specs.Lexemes.{lexemes};
ghost use Rattle.cash_symbols.specs.DepthRules;
ghost use Rattle.cash_parser.specs.Files.{SpellsFile};
ghost use Rattle.cash_tree.specs.Nodes.{AreSmall, tree_values};
ghost use Rattle.cash_parser.specs.Inside.{StandInOrder};
ghost use Rattle.cash_tree.specs.Spans.{itself, tree_spans};
ghost use Rattle.cash_parser.specs.Answer.{IsNone, OnSyntax, IsDeep};

use crate::fault::ParseFault;
use crate::file::tree;
use cash_symbols::{Stop, first_too_deep};
use cash_tree::{Token, Tree};
use std::alloc::Global;

/// The number of the token where as many are left.
fn place_of(len: usize, left: usize) -> u32
    ensures { result ≤ len }
{
    len.saturating_sub(left).min(u32::MAX as usize) as u32
}

/// The tree that the tokens of a source spell, all of them, by the grammar of CashScript 0.7.
///
/// A token's text is the slice of the source at its span; of a span that reaches past the source, what there is of
/// it. Names in the tree are spans, and it is the only tree that these tokens spell.
///
/// # Errors
///
/// - `TooDeep` exactly where, read from the left, some token passes a limit: more than 64 open `(` and `[` together,
///   more than 32 open `{`, more than 1,000 tokens since the last `;`, `{` or `}`, or more than 128 tokens `if` so
///   far. A closing sign lowers its count, never below zero. The first such token is named, and at one token the
///   rules have this order.
/// - `Syntax` exactly where no token is too deep and no tree spells the tokens, with the number of the token where the
///   parser stopped, or the number of tokens.
/// - `Memory`, where memory ran out.
#[tactic(auto, using(crate::proofs::FileComplete::tree_found, crate::proofs::FileComplete::tree_none))]
pub fn parse(alloc: Global, source: &str, tokens: &[Token]) -> Result<Tree, ParseFault>
    // What is answered is spelled by the tokens.
    ensures found { IfOk result (λ tree. SpellsFile (lexemes source.now tokens.now) tree) }
    // Only where no tree is there is no answer, unless a token is too deep or memory runs out.
    ensures only { OnSyntax result (λ token. IsNone (lexemes source.now tokens.now)) }
    // A token that is too deep is named, and nothing else is answered where there is one, unless memory runs out.
    ensures deep { IsDeep result (DepthRules.first_too_deep (lexemes source.now tokens.now)) }
    // Each expression of an answered tree has at most 1,000 nodes, since each node has a token of its own.
    ensures small { IfOk result (λ tree. AreSmall (tree_values tree)) }
    // Where the tokens stand in order in the source, as those of its text do, all spans of an answered tree lie in it.
    ensures inside { IfOk result (λ tree. StandInOrder 0 tokens.now (length source.now)
        → AreInside (length source.now) (tree_spans itself tree)) }
    // The token where the parser stopped is one of them, or their end.
    ensures place { OnSyntax result (λ token. token ≤ length tokens.now) }
{
    let source = source.as_bytes();
    if let Some((rule, span)) = first_too_deep(source, tokens) {
        return Err(ParseFault::TooDeep { rule, span });
    }
    match tree(alloc, source, tokens) {
        Ok(tree) => Ok(tree),
        Err(Stop::Syntax { left }) => Err(ParseFault::Syntax {
            token: place_of(tokens.len(), left),
        }),
        Err(Stop::Memory) => Err(ParseFault::Memory),
    }
}
