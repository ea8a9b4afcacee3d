//! The limits on how deep tokens nest.

ghost use Rattle.std.specs.Prelude.{◌≡◌, ◌≤◌, IfNone};
ghost use Rattle.cash_symbols.specs.Lexemes.{lexemes, symbol_at};
ghost use Rattle.cash_symbols.specs.DepthRules;
ghost use Rattle.cash_symbols.specs.DepthRules.{most_brackets, most_braces, most_in_run, most_branches, depth_after, broken_rule, deep_after, first_too_deep};

use crate::fault::DepthRule;
use crate::front::is_mark;
use cash_base::Span;
use cash_tree::Token;

/// What is counted from the left of the tokens.
#[derive(Clone, Copy, Debug, PartialEq, Eq)]
pub struct Depth {
    /// Open `(` and `[` together.
    pub brackets: u32,
    /// Open `{`.
    pub braces: u32,
    /// Tokens since the last `;`, `{` or `}`.
    pub run: u32,
    /// Tokens `if`.
    pub branches: u32,
}

/// One more where something opens, and one less, but never below zero, where it closes.
fn counted(opens: bool, closes: bool, n: u32) -> u32
    requires { n ≤ 1000 }
    ensures { result ≡ DepthRules.counted opens closes n }
{
    if opens {
        n + 1
    } else if closes {
        n.saturating_sub(1)
    } else {
        n
    }
}

fn opens_bracket(source: &[u8], token: Token) -> bool
    ensures { result ≡ DepthRules.opens_bracket (symbol_at source.now token) }
{
    is_mark(b"(", source, token) || is_mark(b"[", source, token)
}

fn closes_bracket(source: &[u8], token: Token) -> bool
    ensures { result ≡ DepthRules.closes_bracket (symbol_at source.now token) }
{
    is_mark(b")", source, token) || is_mark(b"]", source, token)
}

fn ends_run(source: &[u8], token: Token) -> bool
    ensures { result ≡ DepthRules.ends_run (symbol_at source.now token) }
{
    is_mark(b";", source, token) || is_mark(b"{", source, token) || is_mark(b"}", source, token)
}

/// What is counted, after one more token.
#[tactic(auto, unfolding(crate::specs::DepthRules::depth_after))]
fn depth_after(depth: Depth, source: &[u8], token: Token) -> Depth
    requires brackets { depth.brackets ≤ most_brackets }
    requires braces { depth.braces ≤ most_braces }
    requires run { depth.run ≤ most_in_run }
    requires branches { depth.branches ≤ most_branches }
    ensures { result ≡ DepthRules.depth_after depth (symbol_at source.now token) }
{
    let opens = opens_bracket(source, token);
    let closes = closes_bracket(source, token);
    let opens_brace = is_mark(b"{", source, token);
    let closes_brace = is_mark(b"}", source, token);
    let run = if ends_run(source, token) {
        0
    } else {
        depth.run + 1
    };
    let branches = counted(is_mark(b"if", source, token), false, depth.branches);
    Depth {
        brackets: counted(opens, closes, depth.brackets),
        braces: counted(opens_brace, closes_brace, depth.braces),
        run,
        branches,
    }
}

/// The first rule that is broken.
#[tactic(auto, unfolding(crate::specs::DepthRules::broken_rule))]
fn broken_rule(depth: Depth) -> Option<DepthRule>
    ensures value { result ≡ DepthRules.broken_rule depth }
    ensures brackets { IfNone result (depth.brackets ≤ most_brackets) }
    ensures braces { IfNone result (depth.braces ≤ most_braces) }
    ensures run { IfNone result (depth.run ≤ most_in_run) }
    ensures branches { IfNone result (depth.branches ≤ most_branches) }
{
    if depth.brackets > 64 {
        Some(DepthRule::Brackets)
    } else if depth.braces > 32 {
        Some(DepthRule::Braces)
    } else if depth.run > 1000 {
        Some(DepthRule::Run)
    } else if depth.branches > 128 {
        Some(DepthRule::Branches)
    } else {
        None
    }
}

/// The first token that passes a limit, and its rule.
#[tactic(auto, unfolding(crate::specs::DepthRules::first_too_deep))]
pub fn first_too_deep(source: &[u8], tokens: &[Token]) -> Option<(DepthRule, Span)>
    ensures { result ≡ DepthRules.first_too_deep (lexemes source.now tokens.now) }
{
    let mut depth = Depth {
        brackets: 0,
        braces: 0,
        run: 0,
        branches: 0,
    };
    let mut rest = tokens;
    while let [token, after @ ..] = rest {
        depth = depth_after(depth, source, *token);
        if let Some(rule) = broken_rule(depth) {
            return Some((rule, token.span));
        }
        rest = after;
    }
    None
}
