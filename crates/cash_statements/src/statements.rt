//! Parses statements, over expressions.

#![tactic(auto, using(crate::proofs::StatementSound::statement_unrolled, crate::proofs::StatementSound::constants_of))]

ghost use Rattle.std.specs.Prelude.{◌≡◌, [], Some, codes, option_map};
ghost use Rattle.cash_symbols.specs.Lexemes.{lexemes};
ghost use Rattle.cash_symbols.specs.Front.{Gives};
ghost use Rattle.cash_statements.specs.Statements;
ghost use Rattle.cash_statements.specs.StatementReading;
ghost use Rattle.cash_statements.specs.StatementReading.{statement_reading, statement, block, run, simple_at, value_at, test_at, clock_at, constants_at};

use cash_base::Span;
use cash_expressions::{Expr, expression};
use cash_symbols::Stop;
use cash_symbols::front::{across, eat, expect, name, type_word};
use cash_symbols::words::is_text;
use cash_tree::{Token, Ty};
use sqlite_items::Items;
use std::alloc::Global;

/// A statement whose names are spans, without types of expressions.
pub type Stmt = cash_tree::Stmt<Span, ()>;

/// What such a statement is.
type StmtKind = cash_tree::StmtKind<Span, ()>;

/// A parameter whose name is a span.
pub type Param = cash_tree::Param<Span>;

/// A parameter of a type, whose name has this span.
pub fn param_of(ty: Ty, name: Span) -> Param
    ensures { result ≡ Statements.param_of ty name }
{
    Param {
        ty,
        name,
        place: name,
    }
}

/// An expression, and the `;` after it.
fn value<'t>(
    alloc: Global,
    source: &[u8],
    tokens: &'t [Token],
) -> Result<((Expr, Span), &'t [Token]), Stop>
    ensures { Gives (λ x. (x.0, lexemes source.now x.1.now)) result (value_at (lexemes source.now tokens.now)) }
{
    let (e, rest) = expression(alloc, source, tokens)?;
    let (end, rest) = expect(b";", source, rest)?;
    Ok(((e, end), rest))
}

/// An expression, and the `)` and `;` after it.
fn test<'t>(
    alloc: Global,
    source: &[u8],
    tokens: &'t [Token],
) -> Result<((Expr, Span), &'t [Token]), Stop>
    ensures { Gives (λ x. (x.0, lexemes source.now x.1.now)) result (test_at (lexemes source.now tokens.now)) }
{
    let (e, rest) = expression(alloc, source, tokens)?;
    let (_, rest) = expect(b")", source, rest)?;
    let (end, rest) = expect(b";", source, rest)?;
    Ok(((e, end), rest))
}

/// The tokens after a reserved word, a dot and a name, where these are in front.
#[tactic(auto, using(cash_symbols::proofs::Steps::taken_named))]
fn clock<'t>(
    word: &[u8],
    field: &[u8],
    source: &[u8],
    tokens: &'t [Token],
) -> Option<((), &'t [Token])>
    ensures { option_map (λ x. (x.0, lexemes source.now x.1.now)) result
        ≡ clock_at word.now field.now (lexemes source.now tokens.now) }
{
    let (_, rest) = eat(word, source, tokens)?;
    let (_, rest) = eat(b".", source, rest)?;
    let ((text, _), rest) = name(source, rest)?;
    if is_text(text, field) {
        Some(((), rest))
    } else {
        None
    }
}

/// Whether the word `constant` is in front, and the tokens after all such words.
fn constants<'t>(source: &[u8], tokens: &'t [Token]) -> (bool, &'t [Token])
    ensures { constants_at (lexemes source.now tokens.now) ≡ (result.0, lexemes source.now result.1.now) }
{
    match eat(b"constant", source, tokens) {
        None => (false, tokens),
        Some((_, rest)) => {
            let (_, rest) = constants(source, rest);
            (true, rest)
        }
    }
}

/// A `require`, after its opening bracket.
fn required<'t>(
    alloc: Global,
    start: Span,
    source: &[u8],
    tokens: &'t [Token],
) -> Result<(Stmt, &'t [Token]), Stop>
    ensures { Gives (λ x. (x.0, lexemes source.now x.1.now)) result
        (StatementReading.time_step start (lexemes source.now tokens.now)
        (clock_at (codes "tx") (codes "time") (lexemes source.now tokens.now))) }
{
    if let Some((_, rest)) = clock(b"tx", b"time", source, tokens) {
        let (_, rest) = expect(b">=", source, rest)?;
        let ((value, end), rest) = test(alloc, source, rest)?;
        let span = across(start, end);
        let kind = StmtKind::Time { value };
        return Ok((Stmt { kind, span }, rest));
    }
    if let Some((_, rest)) = clock(b"this", b"age", source, tokens) {
        let (_, rest) = expect(b">=", source, rest)?;
        let ((value, end), rest) = test(alloc, source, rest)?;
        let span = across(start, end);
        let kind = StmtKind::Age { value };
        return Ok((Stmt { kind, span }, rest));
    }
    let ((value, end), rest) = test(alloc, source, tokens)?;
    let span = across(start, end);
    let kind = StmtKind::Require { value };
    Ok((Stmt { kind, span }, rest))
}

/// A definition of two names, after the first of them and the comma.
fn pair<'t>(
    alloc: Global,
    start: Span,
    ty: Ty,
    first: Span,
    source: &[u8],
    tokens: &'t [Token],
) -> Result<(Stmt, &'t [Token]), Stop>
    ensures { Gives (λ x. (x.0, lexemes source.now x.1.now)) result
        (StatementReading.pair_at start ty first (lexemes source.now tokens.now)) }
{
    let Some(((other, _), rest)) = type_word(source, tokens) else {
        return Err(Stop::Syntax { left: tokens.len() });
    };
    let Some(((_, second), rest)) = name(source, rest) else {
        return Err(Stop::Syntax { left: rest.len() });
    };
    let (_, rest) = expect(b"=", source, rest)?;
    let ((value, end), rest) = value(alloc, source, rest)?;
    let span = across(start, end);
    let left = param_of(ty, first);
    let right = param_of(other, second);
    let kind = StmtKind::Pair { left, right, value };
    Ok((Stmt { kind, span }, rest))
}

/// A definition of one name or two, after the first type.
fn definition<'t>(
    alloc: Global,
    ty: Ty,
    start: Span,
    source: &[u8],
    tokens: &'t [Token],
) -> Result<(Stmt, &'t [Token]), Stop>
    ensures { Gives (λ x. (x.0, lexemes source.now x.1.now)) result
        (StatementReading.defined_at start ty (constants_at (lexemes source.now tokens.now))) }
{
    let (constant, rest) = constants(source, tokens);
    let Some(((_, place), rest)) = name(source, rest) else {
        return Err(Stop::Syntax { left: rest.len() });
    };
    if let Some((_, after)) = eat(b",", source, rest) {
        if constant {
            return Err(Stop::Syntax { left: rest.len() });
        }
        return pair(alloc, start, ty, place, source, after);
    }
    let (_, rest) = expect(b"=", source, rest)?;
    let ((value, end), rest) = value(alloc, source, rest)?;
    let span = across(start, end);
    let kind = StmtKind::Define {
        ty,
        constant,
        name: place,
        place,
        value,
    };
    Ok((Stmt { kind, span }, rest))
}

/// An assignment.
fn assignment<'t>(
    alloc: Global,
    source: &[u8],
    tokens: &'t [Token],
) -> Result<(Stmt, &'t [Token]), Stop>
    ensures { Gives (λ x. (x.0, lexemes source.now x.1.now)) result
        (StatementReading.typed_step (lexemes source.now tokens.now) None) }
{
    let Some(((_, place), rest)) = name(source, tokens) else {
        return Err(Stop::Syntax { left: tokens.len() });
    };
    let (_, rest) = expect(b"=", source, rest)?;
    let ((value, end), rest) = value(alloc, source, rest)?;
    let span = across(place, end);
    let kind = StmtKind::Assign { name: place, value };
    Ok((Stmt { kind, span }, rest))
}

/// A statement that is no `if`.
#[tactic(auto, unfolding(crate::specs::StatementReading::simple_at))]
fn simple<'t>(
    alloc: Global,
    source: &[u8],
    tokens: &'t [Token],
) -> Result<(Stmt, &'t [Token]), Stop>
    ensures { Gives (λ x. (x.0, lexemes source.now x.1.now)) result (simple_at (lexemes source.now tokens.now)) }
{
    if let Some((start, rest)) = eat(b"require", source, tokens) {
        let (_, rest) = expect(b"(", source, rest)?;
        return required(alloc, start, source, rest);
    }
    if let Some(((ty, start), rest)) = type_word(source, tokens) {
        return definition(alloc, ty, start, source, rest);
    }
    assignment(alloc, source, tokens)
}

/// One statement. An `else` belongs to the nearest `if`.
#[cycle(statements)]
fn one<'t>(alloc: Global, source: &[u8], tokens: &'t [Token]) -> Result<(Stmt, &'t [Token]), Stop>
    ensures { Gives (λ x. (x.0, lexemes source.now x.1.now)) result
        (statement_reading statement (lexemes source.now tokens.now)) }
{
    let Some((start, rest)) = eat(b"if", source, tokens) else {
        return simple(alloc, source, tokens);
    };
    let (_, rest) = expect(b"(", source, rest)?;
    let (test, rest) = expression(alloc, source, rest)?;
    let (_, rest) = expect(b")", source, rest)?;
    let ((yes, end), rest) = body(alloc, source, rest)?;
    let Some((_, rest)) = eat(b"else", source, rest) else {
        let span = across(start, end);
        let kind = StmtKind::If {
            test,
            yes,
            no: None,
        };
        return Ok((Stmt { kind, span }, rest));
    };
    let ((no, end), rest) = body(alloc, source, rest)?;
    let span = across(start, end);
    let no = Some(no);
    let kind = StmtKind::If { test, yes, no };
    Ok((Stmt { kind, span }, rest))
}

/// Statements in braces, or one alone, and their span.
#[cycle(statements)]
fn body<'t>(
    alloc: Global,
    source: &[u8],
    tokens: &'t [Token],
) -> Result<((Items<Stmt>, Span), &'t [Token]), Stop>
    ensures { Gives (λ x. (x.0, lexemes source.now x.1.now)) result
        (statement_reading block (lexemes source.now tokens.now)) }
{
    match eat(b"{", source, tokens) {
        Some((start, inside)) => {
            let ((statements, end), rest) = several(alloc, source, inside)?;
            Ok(((statements, across(start, end)), rest))
        }
        None => {
            let (statement, rest) = one(alloc, source, tokens)?;
            let span = statement.span;
            let mut statements = Items::new(alloc);
            statements.push(statement)?;
            Ok(((statements, span), rest))
        }
    }
}

/// Statements after an opening brace, and the closing one.
#[cycle(statements)]
pub fn several<'t>(
    alloc: Global,
    source: &[u8],
    tokens: &'t [Token],
) -> Result<((Items<Stmt>, Span), &'t [Token]), Stop>
    ensures { Gives (λ x. (x.0, lexemes source.now x.1.now)) result
        (statement_reading run (lexemes source.now tokens.now)) }
{
    let mut statements = Items::new(alloc);
    let mut rest = tokens;
    loop {
        if let Some((close, after)) = eat(b"}", source, rest) {
            return Ok(((statements, close), after));
        }
        let (statement, after) = one(alloc, source, rest)?;
        statements.push(statement)?;
        rest = after;
    }
}
