//! Why tokens have no tree.

use cash_base::Span;
use cash_symbols::DepthRule;

/// Why [`parse`](crate::parse) answers no tree.
#[derive(Clone, Copy, Debug, PartialEq, Eq)]
pub enum ParseFault {
    /// A token passes a limit, the first from the left: the rule, and the token's span.
    TooDeep { rule: DepthRule, span: Span },
    /// No token passes a limit, and no tree spells the tokens. The parser stopped at this token, or at the end.
    Syntax { token: u32 },
    /// Memory ran out.
    Memory,
}
