//! Gives the expressions of a contract their types.

ghost use Rattle.std.specs.Prelude.{◌≡◌, [], IfOk, IfErr};
ghost use Rattle.type_tables.specs.Tables.{answer};
ghost use Rattle.type_tables.specs.Places.{Gives};
ghost use Rattle.type_check.specs.Outline.{NamedContract};
ghost use Rattle.type_check.specs.Shapes.{with_params};
ghost use Rattle.type_check.specs.Reading.{contract_reading, function_reading, functions_from};
ghost use Rattle.type_check.specs.Untyped.{untyped_contract};
ghost use Rattle.type_check.specs.Answer.{IsTyped, IsFaultOf, JudgedOnce};
ghost use Rattle.type_check.specs.Laws.{ContractsStay, ExpressionsStay};

use crate::statements::{bind_all, check_all, ends_rightly};
use cash_base::Slot;
use cash_tree::{Contract, Function, NamedTree, Param, Ty, TypedContract};
use sqlite_items::Items;
use std::alloc::Global;
use type_tables::fault::TypeFault;

fn copy_of_params(alloc: Global, params: &[Param<Slot>]) -> Result<Items<Param<Slot>>, TypeFault>
    ensures { Gives (λ x. x) result (answer params.now) }
{
    let mut copies = Items::new(alloc);
    for param in params {
        copies.push(param.copy(alloc)?)?;
    }
    Ok(copies)
}

/// Checks a function, whose body must end rightly; `ctor` are the constructor's parameters.
fn check_function(
    alloc: Global,
    ctor: &[Param<Slot>],
    function: &Function<Slot, ()>,
) -> Result<Function<Slot, Ty>, TypeFault>
    ensures { Gives (λ x. x) result (function_reading (with_params ctor.now []) function.now) }
{
    let mut env = Vec::new(alloc);
    bind_all(alloc, &mut env, ctor)?;
    bind_all(alloc, &mut env, function.params.as_slice())?;
    let body = check_all(alloc, &mut env, function.body.as_slice())?;
    if !ends_rightly(function.body.as_slice()) {
        return Err(TypeFault::NoFinalRequire {
            span: function.span,
        });
    }
    let params = copy_of_params(alloc, function.params.as_slice())?;
    Ok(Function {
        name: function.name,
        span: function.span,
        params,
        body,
    })
}

fn check_functions(
    alloc: Global,
    ctor: &[Param<Slot>],
    functions: &[Function<Slot, ()>],
) -> Result<Items<Function<Slot, Ty>>, TypeFault>
    ensures { Gives (λ x. x) result (functions_from (with_params ctor.now []) [] functions.now) }
{
    let mut checked = Items::new(alloc);
    for function in functions {
        checked.push(check_function(alloc, ctor, function)?)?;
    }
    Ok(checked)
}

fn check_contract(alloc: Global, tree: &NamedTree) -> Result<TypedContract, TypeFault>
    ensures { Gives (λ x. x) result (contract_reading tree.now) }
{
    let functions = check_functions(alloc, tree.params.as_slice(), tree.functions.as_slice())?;
    let params = copy_of_params(alloc, tree.params.as_slice())?;
    let pragmas = Items::from_slice(alloc, tree.pragmas.as_slice())?;
    Ok(Contract {
        name: tree.name,
        span: tree.span,
        pragmas,
        params,
        functions,
    })
}

/// The contract with the type of each expression; shape, slots and spans stay.
///
/// A name has the type of the first definition of its slot before it, and of the parameters of the constructor and of
/// its own function; in a tree whose names were resolved there is exactly one.
///
/// # Errors
///
/// The first node that has no type, parts before wholes, left before right and statements in the order of the text,
/// whose parts have types; at one node in the order WrongCount, Mismatch, NoSuchCast, BadTupleIndex, EmptyArray,
/// MoreSigsThanKeys, LiteralRange. The statements in the blocks of an `if` are parts of it. NoFinalRequire stands
/// after the statements of its function. Memory may come at any time.
///
/// Source: the CashScript documentation, language and types. The table of casts, the rule on a body's end and the order of
/// faults are this project's own.
pub fn check(alloc: Global, tree: &NamedTree) -> Result<TypedContract, TypeFault>
    // The rules give this contract, and refuse no node.
    ensures typed { IfOk result (IsTyped tree.now) }
    // Without its types it is the tree.
    ensures kept { IfOk result (λ typed. untyped_contract typed ≡ tree.now) }
    // A fault is that of the first node that the rules refuse, and they give no contract, unless memory ran out.
    ensures first { IfErr result (IsFaultOf tree.now) }
{
    check_contract(alloc, tree)
}

/// A named tree has at most one contract with types, and has one exactly where none of its nodes is refused; without its
/// types this contract is the tree.
pub fn judged_once()
    ensures { (tree : NamedContract) → JudgedOnce tree }
{}

/// Types leave the shape of a contract, its expressions with their numbers of nodes, and every span.
pub fn types_keep()
    ensures contracts { ContractsStay }
    ensures expressions { ExpressionsStay }
{}
