//! Parses contracts, over statements.

#![tactic(auto, using(crate::proofs::FileSound::file_unrolled))]

ghost use Rattle.std.specs.Prelude.{◌≡◌, option_map};
ghost use Rattle.cash_symbols.specs.Lexemes.{lexemes};
ghost use Rattle.cash_symbols.specs.Front.{mark_value, Gives, taken};
ghost use Rattle.cash_parser.specs.Files;
ghost use Rattle.cash_parser.specs.FileReading;
ghost use Rattle.cash_parser.specs.FileReading.{file_reading, file, constraint_at, param_at, head_at, function_at, pragma_at, with_pragmas, tree_of};

use cash_base::Span;
use cash_statements::{Param, param_of, several};
use cash_symbols::Stop;
use cash_symbols::front::{across, eat, expect, mark_of, name, type_word};
use cash_symbols::words::is_constraint_sign;
use cash_tree::{Constraint, Contract, Token, TokenKind, Tree};
use sqlite_items::Items;
use std::alloc::Global;

/// A function whose names are spans, without types of expressions.
type Function = cash_tree::Function<Span, ()>;

/// The version in front, its span, and the tokens after it.
#[tactic(auto, unfolding(cash_symbols::specs::Lexemes::symbol_at))]
fn version<'t>(source: &[u8], tokens: &'t [Token]) -> Option<(((), Span), &'t [Token])>
    ensures { option_map (λ x. (x.0, lexemes source.now x.1.now)) result
        ≡ taken FileReading.version_value (lexemes source.now tokens.now) }
{
    match tokens {
        [] => None,
        [token, rest @ ..] => match token.kind {
            TokenKind::Version => Some((((), token.span), rest)),
            _ => None,
        },
    }
}

/// The sign of a constraint in front, its span, and the tokens after it.
fn constraint_sign<'t, 's>(
    source: &'s [u8],
    tokens: &'t [Token],
) -> Option<((&'s [u8], Span), &'t [Token])>
    ensures { option_map (λ x. ((x.0.0.now, x.0.1), lexemes source.now x.1.now)) result
        ≡ taken (mark_value FileReading.sign_value) (lexemes source.now tokens.now) }
{
    match tokens {
        [] => None,
        [token, rest @ ..] => {
            let text = mark_of(source, *token)?;
            if is_constraint_sign(text) {
                Some(((text, token.span), rest))
            } else {
                None
            }
        }
    }
}

/// A constraint on the compiler's version.
fn constraint<'t>(source: &[u8], tokens: &'t [Token]) -> Result<(Constraint, &'t [Token]), Stop>
    ensures { Gives (λ x. (x.0, lexemes source.now x.1.now)) result (constraint_at (lexemes source.now tokens.now)) }
{
    let Some(((_, sign), rest)) = constraint_sign(source, tokens) else {
        let Some(((_, version), rest)) = version(source, tokens) else {
            return Err(Stop::Syntax { left: tokens.len() });
        };
        let span = version;
        return Ok((
            Constraint {
                sign: None,
                version,
                span,
            },
            rest,
        ));
    };
    let Some(((_, version), rest)) = version(source, rest) else {
        return Err(Stop::Syntax { left: rest.len() });
    };
    let span = across(sign, version);
    Ok((
        Constraint {
            sign: Some(sign),
            version,
            span,
        },
        rest,
    ))
}

/// The constraints of a pragma, after its word.
#[tactic(auto, unfolding(crate::specs::FileReading::pragma_at))]
fn pragma<'t>(
    alloc: Global,
    source: &[u8],
    tokens: &'t [Token],
) -> Result<(Items<Constraint>, &'t [Token]), Stop>
    ensures { Gives (λ x. (x.0, lexemes source.now x.1.now)) result (pragma_at (lexemes source.now tokens.now)) }
{
    let (_, rest) = expect(b"cashscript", source, tokens)?;
    let (first, rest) = constraint(source, rest)?;
    let mut constraints = Items::new(alloc);
    constraints.push(first)?;
    if let Some((_, rest)) = eat(b";", source, rest) {
        return Ok((constraints, rest));
    }
    let (second, rest) = constraint(source, rest)?;
    let (_, rest) = expect(b";", source, rest)?;
    constraints.push(second)?;
    Ok((constraints, rest))
}

/// One parameter.
fn param<'t>(source: &[u8], tokens: &'t [Token]) -> Result<(Param, &'t [Token]), Stop>
    ensures { Gives (λ x. (x.0, lexemes source.now x.1.now)) result (param_at (lexemes source.now tokens.now)) }
{
    let Some(((ty, _), rest)) = type_word(source, tokens) else {
        return Err(Stop::Syntax { left: tokens.len() });
    };
    let Some(((_, place), rest)) = name(source, rest) else {
        return Err(Stop::Syntax { left: rest.len() });
    };
    Ok((param_of(ty, place), rest))
}

/// Parameters after an opening bracket, and the closing one.
fn params<'t>(
    alloc: Global,
    source: &[u8],
    tokens: &'t [Token],
) -> Result<((Items<Param>, Span), &'t [Token]), Stop>
    ensures { Gives (λ x. (x.0, lexemes source.now x.1.now)) result
        (file_reading FileReading.params (lexemes source.now tokens.now)) }
{
    let mut found = Items::new(alloc);
    let mut rest = tokens;
    loop {
        if let Some((end, after)) = eat(b")", source, rest) {
            return Ok(((found, end), after));
        }
        let (one, past) = param(source, rest)?;
        found.push(one)?;
        if let Some((_, after)) = eat(b",", source, past) {
            rest = after;
        } else if let Some((end, after)) = eat(b")", source, past) {
            return Ok(((found, end), after));
        } else {
            return Err(Stop::Syntax { left: past.len() });
        }
    }
}

/// A name and the parameters after it.
fn head<'t>(
    alloc: Global,
    source: &[u8],
    tokens: &'t [Token],
) -> Result<((Span, Items<Param>), &'t [Token]), Stop>
    ensures { Gives (λ x. (x.0, lexemes source.now x.1.now)) result
        (head_at file_reading (lexemes source.now tokens.now)) }
{
    let Some(((_, place), rest)) = name(source, tokens) else {
        return Err(Stop::Syntax { left: tokens.len() });
    };
    let (_, rest) = expect(b"(", source, rest)?;
    let ((params, _), rest) = params(alloc, source, rest)?;
    Ok(((place, params), rest))
}

/// One function.
fn function<'t>(
    alloc: Global,
    source: &[u8],
    tokens: &'t [Token],
) -> Result<(Function, &'t [Token]), Stop>
    ensures { Gives (λ x. (x.0, lexemes source.now x.1.now)) result
        (function_at file_reading (lexemes source.now tokens.now)) }
{
    let (start, rest) = expect(b"function", source, tokens)?;
    let ((name, params), rest) = head(alloc, source, rest)?;
    let (_, rest) = expect(b"{", source, rest)?;
    let ((body, end), rest) = several(alloc, source, rest)?;
    let span = across(start, end);
    Ok((
        Function {
            name,
            span,
            params,
            body,
        },
        rest,
    ))
}

/// Functions after an opening brace, and the closing one.
fn functions<'t>(
    alloc: Global,
    source: &[u8],
    tokens: &'t [Token],
) -> Result<((Items<Function>, Span), &'t [Token]), Stop>
    ensures { Gives (λ x. (x.0, lexemes source.now x.1.now)) result
        (file_reading FileReading.functions (lexemes source.now tokens.now)) }
{
    let mut found = Items::new(alloc);
    let mut rest = tokens;
    loop {
        if let Some((end, after)) = eat(b"}", source, rest) {
            return Ok(((found, end), after));
        }
        let (one, after) = function(alloc, source, rest)?;
        found.push(one)?;
        rest = after;
    }
}

/// The contract after pragmas with these constraints.
fn contract<'t>(
    alloc: Global,
    pragmas: Items<Constraint>,
    source: &[u8],
    tokens: &'t [Token],
) -> Result<(Tree, &'t [Token]), Stop>
    ensures { Gives (λ x. (x.0, lexemes source.now x.1.now)) result
        (with_pragmas pragmas (FileReading.contract_at file_reading (lexemes source.now tokens.now))) }
{
    let (start, rest) = expect(b"contract", source, tokens)?;
    let ((name, params), rest) = head(alloc, source, rest)?;
    let (_, rest) = expect(b"{", source, rest)?;
    let ((functions, end), rest) = functions(alloc, source, rest)?;
    let span = across(start, end);
    Ok((
        Contract {
            name,
            span,
            pragmas,
            params,
            functions,
        },
        rest,
    ))
}

/// Pragmas and the contract after them.
fn file<'t>(alloc: Global, source: &[u8], tokens: &'t [Token]) -> Result<(Tree, &'t [Token]), Stop>
    ensures { Gives (λ x. (x.0, lexemes source.now x.1.now)) result
        (file_reading file (lexemes source.now tokens.now)) }
{
    let mut pragmas = Items::new(alloc);
    let mut rest = tokens;
    while let Some((_, after)) = eat(b"pragma", source, rest) {
        let (more, past) = pragma(alloc, source, after)?;
        pragmas.append(more)?;
        rest = past;
    }
    contract(alloc, pragmas, source, rest)
}

/// The tree of all of the tokens.
#[tactic(auto, unfolding(crate::specs::FileReading::tree_of))]
pub fn tree(alloc: Global, source: &[u8], tokens: &[Token]) -> Result<Tree, Stop>
    ensures { Gives (λ tree. tree) result (tree_of (lexemes source.now tokens.now)) }
{
    let (tree, rest) = file(alloc, source, tokens)?;
    if !rest.is_empty() {
        return Err(Stop::Syntax { left: rest.len() });
    }
    Ok(tree)
}
