//! Parses expressions by one function for each part of the grammar. The levels of operators share one.

#![tactic(auto, using(crate::proofs::Unrolled::unrolled, crate::proofs::Loops::level_read, crate::proofs::Loops::operators_read, crate::proofs::Unrolled::reading_shorter,))]

ghost use Rattle.std.specs.Prelude.{◌≡◌, ◌<◌, ◌-◌, [], ◌∷◌, Some, codes};
ghost use Rattle.cash_symbols.specs.declared.words.Property.TheVariants as properties;
ghost use Rattle.cash_symbols.specs.Lexemes.{lexemes};
ghost use Rattle.cash_expressions.specs.Grammar.{primary, postfix, unary, level};
ghost use Rattle.cash_symbols.specs.Front;
ghost use Rattle.cash_symbols.specs.Front.{name_value, Gives};
ghost use Rattle.cash_expressions.specs.Reading;
ghost use Rattle.cash_expressions.specs.Reading.{part, suffixes_of, reading, literal_at};

use crate::nodes::{
    Expr, ExprKind, binary_of, callee_of, cast_of, expr, index_of, length_of, look_at_of, look_of,
    reverse_of, split_of, unary_of,
};
use cash_base::{Span, text_at};
use cash_symbols::Stop;
use cash_symbols::front::{
    across, active, eat, expect, member, name, number, operator, prefix, property, suffix,
    type_word, unit,
};
use cash_symbols::literals::{hex_bytes, text_bytes};
use cash_symbols::words::{
    Property, Side, Suffix, count_of, function_of, instantiation_of, is_text,
};
use cash_tree::{Token, TokenKind, Ty};
use sqlite_items::Items;
use std::alloc::Global;

/// The loosest level of operators.
const LOOSEST: u8 = 9;

/// An expression in front, and the tokens after it.
#[cycle(parser)]
pub fn expression<'t>(
    alloc: Global,
    source: &[u8],
    tokens: &'t [Token],
) -> Result<(Expr, &'t [Token]), Stop>
    ensures { Gives (λ x. (x.0, lexemes source.now x.1.now)) result
        (reading Reading.whole_part (lexemes source.now tokens.now)) }
{
    binary(alloc, LOOSEST, source, tokens)
}

/// Operators with two sides up to this level.
#[cycle(parser)]
fn binary<'t>(
    alloc: Global,
    loosest: u8,
    source: &[u8],
    tokens: &'t [Token],
) -> Result<(Expr, &'t [Token]), Stop>
    ensures { Gives (λ x. (x.0, lexemes source.now x.1.now)) result
        (reading (part (level loosest)) (lexemes source.now tokens.now)) }
{
    if loosest == 0 {
        return sign(alloc, source, tokens);
    }
    let (left, rest) = binary(alloc, loosest - 1, source, tokens)?;
    operators(alloc, loosest, left, source, rest)
}

/// An expression, and the operators of a level after it.
#[cycle(parser)]
fn operators<'t>(
    alloc: Global,
    loosest: u8,
    left: Expr,
    source: &[u8],
    tokens: &'t [Token],
) -> Result<(Expr, &'t [Token]), Stop>
    requires { 0 < loosest }
    ensures { Gives (λ x. (x.0, lexemes source.now x.1.now)) result
        (reading (Reading.operators (loosest - 1) left) (lexemes source.now tokens.now)) }
{
    let Some((op, past)) = operator(loosest, source, tokens) else {
        return Ok((left, tokens));
    };
    let (right, rest) = binary(alloc, loosest - 1, source, past)?;
    let left = binary_of(alloc, op, left, right)?;
    operators(alloc, loosest, left, source, rest)
}

/// Signs, and what stands after them.
#[cycle(parser)]
fn sign<'t>(alloc: Global, source: &[u8], tokens: &'t [Token]) -> Result<(Expr, &'t [Token]), Stop>
    ensures { Gives (λ x. (x.0, lexemes source.now x.1.now)) result
        (reading (part unary) (lexemes source.now tokens.now)) }
{
    match prefix(source, tokens) {
        None => suffixed(alloc, source, tokens),
        Some(((op, span), past)) => {
            let (e, rest) = sign(alloc, source, past)?;
            Ok((unary_of(alloc, op, span, e)?, rest))
        }
    }
}

/// A primary expression, and what is added to it.
#[cycle(parser)]
fn suffixed<'t>(
    alloc: Global,
    source: &[u8],
    tokens: &'t [Token],
) -> Result<(Expr, &'t [Token]), Stop>
    ensures { Gives (λ x. (x.0, lexemes source.now x.1.now)) result
        (reading (part postfix) (lexemes source.now tokens.now)) }
{
    let (e, rest) = single(alloc, source, tokens)?;
    suffixes(alloc, e, source, rest)
}

/// An expression, and what is added to it.
#[cycle(parser)]
fn suffixes<'t>(
    alloc: Global,
    e: Expr,
    source: &[u8],
    tokens: &'t [Token],
) -> Result<(Expr, &'t [Token]), Stop>
    ensures { Gives (λ x. (x.0, lexemes source.now x.1.now)) result
        (reading (suffixes_of e) (lexemes source.now tokens.now)) }
{
    if let Some((_, rest)) = eat(b".", source, tokens) {
        let Some(((word, span), rest)) = suffix(source, rest) else {
            return Err(Stop::Syntax { left: rest.len() });
        };
        return with_word(alloc, e, word, span, source, rest);
    }
    let Some((_, rest)) = eat(b"[", source, tokens) else {
        return Ok((e, tokens));
    };
    let Some(((n, _), rest)) = number(source, rest) else {
        return Err(Stop::Syntax { left: rest.len() });
    };
    let (close, rest) = expect(b"]", source, rest)?;
    let e = index_of(alloc, e, n, close)?;
    suffixes(alloc, e, source, rest)
}

/// What stands after an expression, a dot and a word.
#[cycle(parser)]
fn with_word<'t>(
    alloc: Global,
    e: Expr,
    word: Suffix,
    span: Span,
    source: &[u8],
    tokens: &'t [Token],
) -> Result<(Expr, &'t [Token]), Stop>
    ensures { Gives (λ x. (x.0, lexemes source.now x.1.now)) result
        (Reading.word_step reading e word span (lexemes source.now tokens.now)) }
{
    match word {
        Suffix::Length => {
            let e = length_of(alloc, e, span)?;
            suffixes(alloc, e, source, tokens)
        }
        Suffix::Reverse => {
            let (_, rest) = expect(b"(", source, tokens)?;
            let (close, rest) = expect(b")", source, rest)?;
            let e = reverse_of(alloc, e, close)?;
            suffixes(alloc, e, source, rest)
        }
        Suffix::Split => {
            let (_, rest) = expect(b"(", source, tokens)?;
            let (at, rest) = expression(alloc, source, rest)?;
            let (close, rest) = expect(b")", source, rest)?;
            let e = split_of(alloc, e, at, close)?;
            suffixes(alloc, e, source, rest)
        }
    }
}

/// A primary expression.
#[cycle(parser)]
fn single<'t>(
    alloc: Global,
    source: &[u8],
    tokens: &'t [Token],
) -> Result<(Expr, &'t [Token]), Stop>
    ensures { Gives (λ x. (x.0, lexemes source.now x.1.now)) result
        (reading (part primary) (lexemes source.now tokens.now)) }
{
    if let Some((opening, rest)) = eat(b"(", source, tokens) {
        return in_brackets(alloc, opening, source, rest);
    }
    if let Some((opening, rest)) = eat(b"[", source, tokens) {
        return array(alloc, opening, source, rest);
    }
    if let Some((word, rest)) = eat(b"new", source, tokens) {
        return instantiation(alloc, word, source, rest);
    }
    if let Some((word, rest)) = eat(b"tx", source, tokens) {
        return of_transaction(alloc, word, source, rest);
    }
    if let Some((word, rest)) = eat(b"this", source, tokens) {
        return of_contract(word, source, rest);
    }
    if let Some(((ty, word), rest)) = type_word(source, tokens) {
        return cast(alloc, ty, word, source, rest);
    }
    if let Some(((text, word), rest)) = name(source, tokens) {
        return named(alloc, text, word, source, rest);
    }
    literal(alloc, source, tokens)
}

/// An expression in brackets, after the opening one.
#[cycle(parser)]
fn in_brackets<'t>(
    alloc: Global,
    opening: Span,
    source: &[u8],
    tokens: &'t [Token],
) -> Result<(Expr, &'t [Token]), Stop>
    ensures { Gives (λ x. (x.0, lexemes source.now x.1.now)) result
        (Reading.bracket_step reading [] (Some (opening, lexemes source.now tokens.now))) }
{
    let (e, rest) = expression(alloc, source, tokens)?;
    let (close, rest) = expect(b")", source, rest)?;
    Ok((expr(e.kind, across(opening, close)), rest))
}

/// An array, after its opening bracket.
#[cycle(parser)]
fn array<'t>(
    alloc: Global,
    opening: Span,
    source: &[u8],
    tokens: &'t [Token],
) -> Result<(Expr, &'t [Token]), Stop>
    ensures { Gives (λ x. (x.0, lexemes source.now x.1.now)) result
        (Reading.array_step reading [] (Some (opening, lexemes source.now tokens.now))) }
{
    let ((items, close), rest) = items(alloc, b"]", source, tokens)?;
    Ok((expr(ExprKind::Array(items), across(opening, close)), rest))
}

/// An instantiation, after the word `new`.
#[cycle(parser)]
fn instantiation<'t>(
    alloc: Global,
    word: Span,
    source: &[u8],
    tokens: &'t [Token],
) -> Result<(Expr, &'t [Token]), Stop>
    ensures { Gives (λ x. (x.0, lexemes source.now x.1.now)) result
        (Reading.new_step reading [] (Some (word, lexemes source.now tokens.now))) }
{
    let Some(((text, span), rest)) = name(source, tokens) else {
        return Err(Stop::Syntax { left: tokens.len() });
    };
    let (_, rest) = expect(b"(", source, rest)?;
    let ((args, close), rest) = items(alloc, b")", source, rest)?;
    let callee = callee_of(instantiation_of(text), span);
    Ok((
        expr(ExprKind::New { callee, args }, across(word, close)),
        rest,
    ))
}

/// What the transaction has, after the word `tx`.
#[cycle(parser)]
fn of_transaction<'t>(
    alloc: Global,
    word: Span,
    source: &[u8],
    tokens: &'t [Token],
) -> Result<(Expr, &'t [Token]), Stop>
    ensures { Gives (λ x. (x.0, lexemes source.now x.1.now)) result
        (Reading.tx_step reading [] (Some (word, lexemes source.now tokens.now))) }
{
    let (_, rest) = expect(b".", source, tokens)?;
    let Some(((property, span), rest)) = property(source, rest) else {
        return Err(Stop::Syntax { left: rest.len() });
    };
    match property {
        Property::Whole(look) => Ok((look_of(word, look, span), rest)),
        Property::Listed(side) => of_side(alloc, word, side, source, rest),
    }
}

/// An input or output and what it has, or how many there are, after `tx.inputs` or `tx.outputs`.
#[cycle(parser)]
fn of_side<'t>(
    alloc: Global,
    word: Span,
    side: Side,
    source: &[u8],
    tokens: &'t [Token],
) -> Result<(Expr, &'t [Token]), Stop>
    ensures { Gives (λ x. (x.0, lexemes source.now x.1.now)) result
        (Reading.property_step reading word (properties.Listed side) word (lexemes source.now tokens.now)) }
{
    let Some((_, rest)) = eat(b"[", source, tokens) else {
        let (_, rest) = expect(b".", source, tokens)?;
        let (span, rest) = length_word(source, rest)?;
        return Ok((look_of(word, count_of(side), span), rest));
    };
    let (index, rest) = expression(alloc, source, rest)?;
    let (_, rest) = expect(b"]", source, rest)?;
    let (_, rest) = expect(b".", source, rest)?;
    let Some(((look, span), rest)) = member(side, source, rest) else {
        return Err(Stop::Syntax { left: rest.len() });
    };
    Ok((look_at_of(alloc, word, look, index, span)?, rest))
}

/// What the contract knows of itself, after the word `this`.
fn of_contract<'t>(
    word: Span,
    source: &[u8],
    tokens: &'t [Token],
) -> Result<(Expr, &'t [Token]), Stop>
    ensures { Gives (λ x. (x.0, lexemes source.now x.1.now)) result
        (Reading.this_step reading [] (Some (word, lexemes source.now tokens.now))) }
{
    let (_, rest) = expect(b".", source, tokens)?;
    let Some(((look, span), rest)) = active(source, rest) else {
        return Err(Stop::Syntax { left: rest.len() });
    };
    Ok((look_of(word, look, span), rest))
}

/// A cast, after the type.
#[cycle(parser)]
fn cast<'t>(
    alloc: Global,
    ty: Ty,
    word: Span,
    source: &[u8],
    tokens: &'t [Token],
) -> Result<(Expr, &'t [Token]), Stop>
    ensures { Gives (λ x. (x.0, lexemes source.now x.1.now)) result
        (Reading.cast_step reading [] (Some ((ty, word), lexemes source.now tokens.now))) }
{
    let (_, rest) = expect(b"(", source, tokens)?;
    let ((values, close), rest) = items(alloc, b")", source, rest)?;
    match cast_of(alloc, ty, word, values, close)? {
        Some(e) => Ok((e, rest)),
        None => Err(Stop::Syntax { left: rest.len() }),
    }
}

/// A call, or a name, after the name.
#[cycle(parser)]
fn named<'t>(
    alloc: Global,
    text: &[u8],
    word: Span,
    source: &[u8],
    tokens: &'t [Token],
) -> Result<(Expr, &'t [Token]), Stop>
    ensures { Gives (λ x. (x.0, lexemes source.now x.1.now)) result
        (Reading.name_step reading [] (Some ((text.now, word), lexemes source.now tokens.now))) }
{
    let Some((_, rest)) = eat(b"(", source, tokens) else {
        return Ok((expr(ExprKind::Name(word), word), tokens));
    };
    let ((args, close), rest) = items(alloc, b")", source, rest)?;
    let callee = callee_of(function_of(text), word);
    Ok((
        expr(ExprKind::Call { callee, args }, across(word, close)),
        rest,
    ))
}

/// The word `length` has to stand in front: its span, and the tokens after it.
#[tactic(auto, using(cash_symbols::proofs::Steps::taken_named))]
fn length_word<'t>(source: &[u8], tokens: &'t [Token]) -> Result<(Span, &'t [Token]), Stop>
    ensures { Gives (λ x. ((tt, x.0), lexemes source.now x.1.now)) result
        (Front.taken (name_value (Front.this_text (codes "length"))) (lexemes source.now tokens.now)) }
{
    match name(source, tokens) {
        Some(((text, span), rest)) if is_text(text, b"length") => Ok((span, rest)),
        _ => Err(Stop::Syntax { left: tokens.len() }),
    }
}

/// A literal.
#[tactic(auto, unfolding(cash_symbols::specs::Lexemes::symbol_at))]
fn literal<'t>(
    alloc: Global,
    source: &[u8],
    tokens: &'t [Token],
) -> Result<(Expr, &'t [Token]), Stop>
    ensures { Gives (λ x. (x.0, lexemes source.now x.1.now)) result (literal_at (lexemes source.now tokens.now)) }
{
    if let Some((span, rest)) = eat(b"true", source, tokens) {
        return Ok((expr(ExprKind::Bool(true), span), rest));
    }
    if let Some((span, rest)) = eat(b"false", source, tokens) {
        return Ok((expr(ExprKind::Bool(false), span), rest));
    }
    if let Some(((digits, span), rest)) = number(source, tokens) {
        return Ok(number_literal(digits, span, source, rest));
    }
    value(alloc, source, tokens)
}

/// A number, with the unit after it where there is one.
fn number_literal<'t>(
    digits: u128,
    span: Span,
    source: &[u8],
    tokens: &'t [Token],
) -> (Expr, &'t [Token])
    ensures { Reading.number_step [] (Some ((digits, span), lexemes source.now tokens.now))
        ≡ Some (result.0, lexemes source.now result.1.now) }
{
    match unit(source, tokens) {
        Some(((unit, word), rest)) => (
            expr(ExprKind::Int { digits, unit }, across(span, word)),
            rest,
        ),
        None => (expr(ExprKind::Int { digits, unit: 1 }, span), tokens),
    }
}

/// A literal that is one token with a value.
#[tactic(auto, unfolding(cash_symbols::specs::Lexemes::symbol_at))]
fn value<'t>(alloc: Global, source: &[u8], tokens: &'t [Token]) -> Result<(Expr, &'t [Token]), Stop>
    ensures { Gives (λ x. (x.0, lexemes source.now x.1.now)) result
        (Reading.value_step (Front.first (lexemes source.now tokens.now))) }
{
    let left = tokens.len();
    let [token, rest @ ..] = tokens else {
        return Err(Stop::Syntax { left });
    };
    let span = token.span;
    match token.kind {
        TokenKind::Hex => match hex_bytes(alloc, text_at(source, span))? {
            Some(bytes) => Ok((expr(ExprKind::Hex(bytes), span), rest)),
            None => Err(Stop::Syntax { left }),
        },
        TokenKind::Text => {
            let bytes = text_bytes(alloc, text_at(source, span))?;
            Ok((expr(ExprKind::Text(bytes), span), rest))
        }
        TokenKind::Date(seconds) => Ok((expr(ExprKind::Date(seconds), span), rest)),
        _ => Err(Stop::Syntax { left }),
    }
}

/// Expressions with commas between, after an opening sign, and the closing one.
#[cycle(parser)]
fn items<'t>(
    alloc: Global,
    close: &[u8],
    source: &[u8],
    tokens: &'t [Token],
) -> Result<((Items<Expr>, Span), &'t [Token]), Stop>
    ensures { Gives (λ x. (x.0, lexemes source.now x.1.now)) result
        (reading (Reading.items close.now) (lexemes source.now tokens.now)) }
{
    let mut found = Items::new(alloc);
    let mut rest = tokens;
    loop {
        if let Some((end, after)) = eat(close, source, rest) {
            return Ok(((found, end), after));
        }
        let (e, past) = expression(alloc, source, rest)?;
        found.push(e)?;
        if let Some((_, after)) = eat(b",", source, past) {
            rest = after;
        } else if let Some((end, after)) = eat(close, source, past) {
            return Ok(((found, end), after));
        } else {
            return Err(Stop::Syntax { left: past.len() });
        }
    }
}
