//! What stands in front of the tokens.

ghost use Rattle.std.specs.Prelude.{◌≡◌, option_map};
ghost use Rattle.cash_symbols.specs.Lexemes.{lexemes, symbol_at};
ghost use Rattle.cash_symbols.specs.Front;
ghost use Rattle.cash_symbols.specs.Front.{name_value, Gives, eaten, taken};
ghost use Rattle.cash_symbols.specs.Words;

use crate::fault::Stop;
use crate::words::{self, Property, Side, Suffix};
use cash_base::{Look0, LookAt, Span, text_at};
use cash_tree::{BinaryOp, Token, TokenKind, Ty, UnaryOp};

/// The text of a token that is a sign, or a reserved word that names no type.
#[tactic(auto, unfolding(crate::specs::Lexemes::symbol_at))]
pub fn mark_of(source: &[u8], token: Token) -> Option<&[u8]>
    ensures { option_map (λ text. text.now) result ≡ Front.mark_of (symbol_at source.now token) }
{
    match token.kind {
        TokenKind::Sign => Some(text_at(source, token.span)),
        TokenKind::Word => {
            let text = text_at(source, token.span);
            match words::type_of(text) {
                Some(_) => None,
                None => {
                    if words::is_keyword(text) {
                        Some(text)
                    } else {
                        None
                    }
                }
            }
        }
        _ => None,
    }
}

/// Whether a token is this sign or reserved word.
pub fn is_mark(text: &[u8], source: &[u8], token: Token) -> bool
    ensures { result ≡ Front.is_mark text.now (symbol_at source.now token) }
{
    match mark_of(source, token) {
        Some(other) => words::is_text(other, text),
        None => false,
    }
}

/// The text of a token that is a word, and not reserved.
#[tactic(auto, unfolding(crate::specs::Lexemes::symbol_at))]
fn name_of(source: &[u8], token: Token) -> Option<&[u8]>
    ensures { option_map (λ text. text.now) result ≡ Front.name_of (symbol_at source.now token) }
{
    match token.kind {
        TokenKind::Word => {
            let text = text_at(source, token.span);
            match words::type_of(text) {
                Some(_) => None,
                None => {
                    if words::is_keyword(text) {
                        None
                    } else {
                        Some(text)
                    }
                }
            }
        }
        _ => None,
    }
}

/// The type that a token names.
#[tactic(auto, unfolding(crate::specs::Lexemes::symbol_at))]
fn type_of(source: &[u8], token: Token) -> Option<Ty>
    ensures { result ≡ Front.type_value (symbol_at source.now token) }
{
    match token.kind {
        TokenKind::Word => words::type_of(text_at(source, token.span)),
        _ => None,
    }
}

/// The span of the token in front, where it is this sign or reserved word, and the tokens after it.
pub fn eat<'t>(text: &[u8], source: &[u8], tokens: &'t [Token]) -> Option<(Span, &'t [Token])>
    ensures { option_map (λ x. (x.0, lexemes source.now x.1.now)) result
        ≡ eaten text.now (lexemes source.now tokens.now) }
{
    match tokens {
        [] => None,
        [token, rest @ ..] => {
            if is_mark(text, source, *token) {
                Some((token.span, rest))
            } else {
                None
            }
        }
    }
}

/// The token in front has to be this sign or reserved word: its span, and the tokens after it.
pub fn expect<'t>(
    text: &[u8],
    source: &[u8],
    tokens: &'t [Token],
) -> Result<(Span, &'t [Token]), Stop>
    ensures { Gives (λ x. (x.0, lexemes source.now x.1.now)) result (eaten text.now (lexemes source.now tokens.now)) }
{
    match eat(text, source, tokens) {
        Some(found) => Ok(found),
        None => Err(Stop::Syntax { left: tokens.len() }),
    }
}

/// The name in front, its span, and the tokens after it.
pub fn name<'t, 's>(
    source: &'s [u8],
    tokens: &'t [Token],
) -> Option<((&'s [u8], Span), &'t [Token])>
    ensures { option_map (λ x. ((x.0.0.now, x.0.1), lexemes source.now x.1.now)) result
        ≡ taken Front.name_of (lexemes source.now tokens.now) }
{
    match tokens {
        [] => None,
        [token, rest @ ..] => match name_of(source, *token) {
            Some(text) => Some(((text, token.span), rest)),
            None => None,
        },
    }
}

/// The type in front, its span, and the tokens after it.
pub fn type_word<'t>(source: &[u8], tokens: &'t [Token]) -> Option<((Ty, Span), &'t [Token])>
    ensures { option_map (λ x. (x.0, lexemes source.now x.1.now)) result
        ≡ taken Front.type_value (lexemes source.now tokens.now) }
{
    match tokens {
        [] => None,
        [token, rest @ ..] => match type_of(source, *token) {
            Some(ty) => Some(((ty, token.span), rest)),
            None => None,
        },
    }
}

/// The number in front, its span, and the tokens after it.
#[tactic(auto, unfolding(crate::specs::Lexemes::symbol_at))]
pub fn number<'t>(source: &[u8], tokens: &'t [Token]) -> Option<((u128, Span), &'t [Token])>
    ensures { option_map (λ x. (x.0, lexemes source.now x.1.now)) result
        ≡ taken Front.number_value (lexemes source.now tokens.now) }
{
    match tokens {
        [] => None,
        [token, rest @ ..] => match token.kind {
            TokenKind::Number(n) => Some(((n, token.span), rest)),
            _ => None,
        },
    }
}

/// The operator with two sides in front, where it is of this level, and the tokens after it.
pub fn operator<'t>(
    level: u8,
    source: &[u8],
    tokens: &'t [Token],
) -> Option<(BinaryOp, &'t [Token])>
    ensures { option_map (λ x. (x.0, lexemes source.now x.1.now)) result
        ≡ Front.operator_at level (lexemes source.now tokens.now) }
{
    match tokens {
        [] => None,
        [token, rest @ ..] => {
            let text = mark_of(source, *token)?;
            let (found, op) = words::operator_of(text)?;
            if found == level {
                Some((op, rest))
            } else {
                None
            }
        }
    }
}

/// The operator with one side in front, its span, and the tokens after it.
pub fn prefix<'t>(source: &[u8], tokens: &'t [Token]) -> Option<((UnaryOp, Span), &'t [Token])>
    ensures { option_map (λ x. (x.0, lexemes source.now x.1.now)) result
        ≡ taken Front.signs (lexemes source.now tokens.now) }
{
    match tokens {
        [] => None,
        [token, rest @ ..] => {
            let text = mark_of(source, *token)?;
            let op = words::prefix_of(text)?;
            Some(((op, token.span), rest))
        }
    }
}

/// The unit in front, how many of the smallest one there are in it, its span, and the tokens after it.
#[tactic(auto, using(crate::proofs::Steps::taken_named))]
pub fn unit<'t>(source: &[u8], tokens: &'t [Token]) -> Option<((u64, Span), &'t [Token])>
    ensures { option_map (λ x. (x.0, lexemes source.now x.1.now)) result
        ≡ taken (name_value Words.unit_of) (lexemes source.now tokens.now) }
{
    let ((text, span), rest) = name(source, tokens)?;
    let unit = words::unit_of(text)?;
    Some(((unit, span), rest))
}

/// The word in front that may stand after an expression and a dot.
#[tactic(auto, using(crate::proofs::Steps::taken_named))]
pub fn suffix<'t>(source: &[u8], tokens: &'t [Token]) -> Option<((Suffix, Span), &'t [Token])>
    ensures { option_map (λ x. (x.0, lexemes source.now x.1.now)) result
        ≡ taken (name_value Words.suffix_of) (lexemes source.now tokens.now) }
{
    let ((text, span), rest) = name(source, tokens)?;
    let suffix = words::suffix_of(text)?;
    Some(((suffix, span), rest))
}

/// The word in front that may stand after `tx.`.
#[tactic(auto, using(crate::proofs::Steps::taken_named))]
pub fn property<'t>(source: &[u8], tokens: &'t [Token]) -> Option<((Property, Span), &'t [Token])>
    ensures { option_map (λ x. (x.0, lexemes source.now x.1.now)) result
        ≡ taken (name_value Words.property_of) (lexemes source.now tokens.now) }
{
    let ((text, span), rest) = name(source, tokens)?;
    let property = words::property_of(text)?;
    Some(((property, span), rest))
}

/// The word in front that may stand after `this.`.
#[tactic(auto, using(crate::proofs::Steps::taken_named))]
pub fn active<'t>(source: &[u8], tokens: &'t [Token]) -> Option<((Look0, Span), &'t [Token])>
    ensures { option_map (λ x. (x.0, lexemes source.now x.1.now)) result
        ≡ taken (name_value Words.active_of) (lexemes source.now tokens.now) }
{
    let ((text, span), rest) = name(source, tokens)?;
    let look = words::active_of(text)?;
    Some(((look, span), rest))
}

/// The word in front that may stand after an input, or an output, and a dot.
#[tactic(auto, using(crate::proofs::Steps::taken_named))]
pub fn member<'t>(
    side: Side,
    source: &[u8],
    tokens: &'t [Token],
) -> Option<((LookAt, Span), &'t [Token])>
    ensures { option_map (λ x. (x.0, lexemes source.now x.1.now)) result
        ≡ taken (name_value (Words.member_of side)) (lexemes source.now tokens.now) }
{
    let ((text, span), rest) = name(source, tokens)?;
    let look = words::member_of(side, text)?;
    Some(((look, span), rest))
}

/// From the first to the last.
pub fn across(first: Span, last: Span) -> Span
    ensures { result ≡ Front.across first last }
{
    Span {
        from: first.from,
        to: last.to,
    }
}
