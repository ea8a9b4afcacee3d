//! Laws of types.

ghost use Rattle.type_soundness.specs.Plain.{ContractsStayPlain};
ghost use Rattle.type_soundness.specs.Room.{ContractsHaveRoom};
ghost use Rattle.type_soundness.specs.Sound.{ExpressionsFit, RunsFindNumbers};

use element_ops::laws::{
    operations_on_one_obey, operations_on_three_obey, operations_on_two_obey, splits_obey,
};

/// Types tell what values are: an operand that is to be a number is one.
///
/// Source: this project's own, on the CashScript documentation's types and the Bitcoin Cash specification's numbers.
pub fn types_are_sound()
    // Where each name has a value of its type, an expression gives one of its own, and doesn't fail since an operand is no number.
    ensures expressions { ExpressionsFit }
    // Where the constructor's parameters and a function's have values of their types, no run of the function fails so.
    ensures runs { RunsFindNumbers }
{
    operations_on_one_obey();
    operations_on_two_obey();
    operations_on_three_obey();
    splits_obey();
}

/// A run has room for each function of a contract that is parsed, named and typed: at most 160 names, and at most 1,000 nodes in an
/// expression.
pub fn contracts_have_room()
    ensures { ContractsHaveRoom }
{}

/// Names and types leave the literals of a tree and the types of its parameters: where those of the parsed tree are plain, so are
/// those of the contract.
pub fn contracts_stay_plain()
    ensures { ContractsStayPlain }
{}
