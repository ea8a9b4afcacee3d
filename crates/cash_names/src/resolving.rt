//! The named tree of a contract.

ghost use Rattle.std.specs.Prelude.{◌≡◌, ◌≤◌, ◌+◌, [], map, take, length, OnOk, IfOk, IfErr};
ghost use Rattle.name_scopes.specs.Names.{names_of, most_params};
ghost use Rattle.name_scopes.specs.Wants.{Gives, granted, refusal, has_function};
ghost use Rattle.cash_names.specs.Outline.{is_without};
ghost use Rattle.cash_names.specs.Reading.{run_from, param_reading, function_reading, functions_reading, tree_reading};
ghost use Rattle.cash_names.specs.Scopes.{IsNamed};
ghost use Rattle.cash_names.specs.Answer.{IsFaultOf};

use crate::statements::{resolve_block, with_slot};
use cash_base::{Slot, Span};
use cash_tree::{Contract, NamedTree, Param, Tree};
use name_scopes::{NameFault, Scope, all_admitted, introduced};
use sqlite_items::Items;
use std::alloc::Global;

type Function = cash_tree::Function<Span, ()>;

type NamedFunction = cash_tree::Function<Slot, ()>;

/// As many parameters may a constructor have, or a function.
const MOST_PARAMS: u16 = 16;

/// As many functions may a contract have.
const MOST_FUNCTIONS: u16 = 64;

/// As many names may be defined in a function's body.
const MOST_DEFINITIONS: u16 = 128;

/// Numbers parameters, and brings their names into scope.
fn resolve_params<'s>(
    alloc: Global,
    source: &'s [u8],
    scope: &mut Scope<'s>,
    params: &[Param<Span>],
) -> Result<Items<Param<Slot>>, NameFault>
    requires within { (names_of scope.old).next ≤ (names_of scope.old).limit }
    ensures gives { Gives (λ x. (x, names_of scope.new)) result (run_from [] (map (param_reading source.now) params.now) (names_of scope.old)) }
    ensures keeps { OnOk result (take (length (names_of scope.old).known) (names_of scope.new).known ≡ (names_of scope.old).known) }
    ensures within { OnOk result ((names_of scope.new).next ≤ (names_of scope.old).limit) }
{
    let mut named = Items::new(alloc);
    for param in params {
        let slot = introduced(source, scope, param.name)?;
        named.push(with_slot(alloc, param, slot)?)?;
    }
    Ok(named)
}

/// Resolves a function after those whose names stand in `functions`. In front of it `scope` holds the constructor's
/// parameters, and after it again.
fn resolve_function<'s>(
    alloc: Global,
    source: &'s [u8],
    scope: &mut Scope<'s>,
    functions: &mut Scope<'s>,
    function: &Function,
) -> Result<NamedFunction, NameFault>
    requires few { (names_of scope.old).next ≤ most_params }
    requires room { (names_of scope.old).limit ≡ (names_of scope.old).next + most_params }
    ensures gives { Gives (λ x. (x, names_of functions.new)) result (function_reading source.now (names_of scope.old) function.now (names_of functions.old)) }
    ensures same { OnOk result (names_of scope.new ≡ names_of scope.old) }
{
    introduced(source, functions, function.name)?;
    let outer = scope.len();
    let first = scope.next();
    let params = resolve_params(alloc, source, scope, function.params.as_slice())?;
    let next = scope.next();
    scope.open(next, MOST_DEFINITIONS);
    let body = resolve_block(alloc, source, scope, function.body.as_slice())?;
    scope.end_block(outer);
    scope.open(first, MOST_PARAMS);
    let name = function.name;
    let span = function.span;
    Ok(cash_tree::Function {
        name,
        span,
        params,
        body,
    })
}

/// Resolves functions in order.
fn resolve_functions<'s>(
    alloc: Global,
    source: &'s [u8],
    scope: &mut Scope<'s>,
    functions: &[Function],
) -> Result<Items<NamedFunction>, NameFault>
    requires few { (names_of scope.old).next ≤ most_params }
    requires room { (names_of scope.old).limit ≡ (names_of scope.old).next + most_params }
    ensures { Gives (λ x. x) result (functions_reading source.now (names_of scope.old) functions.now) }
{
    let mut names = Scope::new(alloc, MOST_FUNCTIONS);
    let mut named = Items::new(alloc);
    for function in functions {
        named.push(resolve_function(alloc, source, scope, &mut names, function)?)?;
    }
    Ok(named)
}

/// That a contract has a function.
fn peopled(functions: &[Function], span: Span) -> Result<(), NameFault>
    ensures { Gives (λ x. x) result (granted (refusal [] (has_function (is_without functions.now) span)) tt) }
{
    match functions {
        [] => Err(NameFault::NoFunction { span }),
        [_, ..] => Ok(()),
    }
}

/// The named tree, or the first fault.
fn resolve_tree(alloc: Global, source: &[u8], tree: &Tree) -> Result<NamedTree, NameFault>
    ensures { Gives (λ x. x) result (tree_reading source.now tree.now) }
{
    all_admitted(alloc, source, tree.pragmas.as_slice())?;
    let mut scope = Scope::new(alloc, MOST_PARAMS);
    let params = resolve_params(alloc, source, &mut scope, tree.params.as_slice())?;
    let ctor = scope.next();
    scope.open(ctor, MOST_PARAMS);
    let functions = resolve_functions(alloc, source, &mut scope, tree.functions.as_slice())?;
    peopled(tree.functions.as_slice(), tree.span)?;
    Ok(Contract {
        name: tree.name,
        span: tree.span,
        pragmas: Items::from_slice(alloc, tree.pragmas.as_slice())?,
        params,
        functions,
    })
}

/// The tree of a contract with a slot for each name.
///
/// A name's text is the slice of the source at its span; of a span that reaches past the source, what there is of it.
/// Spans, places, types and the shape of the tree stay. Names of functions, of built-in functions and of variables are
/// three tables. A variable is in scope from after its declaration to the end of its block; a definition's value is
/// read in front of it. Slots are numbered in text order: the constructor's parameters from 0, and then, in each
/// function anew, its parameters and the names that its body defines.
///
/// # Errors
///
/// The first place in text order that is refused, with the span of its name or constraint:
///
/// - `PragmaRefused`: `semver` doesn't read the constraint (its sign, or `=` where there is none, and its version
///   directly after), or 0.7.0 doesn't meet it.
/// - `UnknownName`: a name that is read or assigned isn't in scope, or one that is called is not that of a built-in
///   function, or after `new` not that of an instantiation.
/// - `Redeclared`: a name that is declared is in scope already, or a function's name is that of one before it.
/// - `AssignToConstant`: a constant is assigned.
/// - `TooManyNames`: a 17th parameter of the constructor or of a function, a 65th function, or a 129th name that one
///   function's body defines.
/// - `NoFunction`, with the contract's span, exactly where no other comes and there is no function.
/// - `Memory`, where memory ran out.
pub fn resolve(alloc: Global, source: &str, tree: &Tree) -> Result<NamedTree, NameFault>
    // What is answered names the tree, by the rules of scopes.
    ensures named { IfOk result (IsNamed source.now tree.now) }
    // A fault is the first place in text order that is refused, unless memory ran out.
    ensures first { IfErr result (IsFaultOf source.now tree.now) }
{
    resolve_tree(alloc, source.as_bytes(), tree)
}
