//! One code for the functions of a contract.

ghost use Rattle.std.specs.Prelude.{◌≡◌, ◌≤◌, ◌∷◌, [], length, IfOk};
ghost use Rattle.script_codec.specs.declared.spans.Marked.{Marked as Code};
ghost use Rattle.selector.specs.Pieces.{Own, code_of, marks_of};
ghost use Rattle.selector.specs.Choice.{raising, choice};
ghost use Rattle.selector.specs.Selection.{AreNested, AreUnseparated, IsAlone, Selects};

use crate::choosing::Chooser;
use bch_vm::machine::runs_in_turn;
use cash_base::{Memory, Span};
use run_laws::conditions::{
    nested_code_composes, nested_code_keeps_conditions, nested_code_unexecuted, picked_arm_runs,
};
use script_codec::Marked;
use std::alloc::Global;

/// One code for the functions of a contract, of which there are 1 to 64: an element of the stack, the selector, chooses the
/// function that is run.
///
/// Each function's code is nested and has no CODESEPARATOR. The code of one function is given back as it is.
///
/// For two or more the selector stands below `ctors` elements, those of the constructor's parameters. Where it is the minimal
/// number of a function, counted from 0, the code of that function is run on these elements and on what lies under the
/// selector, and nothing else. Any other number fails with CheckFailed, an element that is no number with NotANumber, and a
/// stack without a selector with Underflow, all at `contract`, the contract's place.
///
/// Each function's code stands in the answer in one piece, in the order of the functions, and its marks with it, at the same
/// instructions and with the same heights. The other instructions have the contract's place as both spans. They add at most 15
/// bytes and 7 counted opcodes for each function, and none of them is DEPTH, TOALTSTACK, FROMALTSTACK, CODESEPARATOR,
/// CHECKMULTISIG or CHECKMULTISIGVERIFY. The answer is nested. Where each opcode of the functions has a name, so has each of
/// the answer.
///
/// # Errors
///
/// `Memory`, where memory ran out, or where the number of an instruction that has a mark has no room in 32 bits.
pub fn select(
    alloc: Global,
    functions: &[Marked],
    ctors: u16,
    contract: Span,
) -> Result<Marked, Memory>
    requires some { 1 ≤ length functions.now }
    requires few { length functions.now ≤ 64 }
    requires nested { AreNested functions.now }
    requires unseparated { AreUnseparated functions.now }
    ensures one { IfOk result (λ code. (function : Code) → functions.now ≡ function ∷ [] → IsAlone function code) }
    ensures several { IfOk result (λ code. 2 ≤ length functions.now → Selects functions.now ctors contract code) }
{
    nested_code_composes();
    nested_code_keeps_conditions();
    picked_arm_runs();
    nested_code_unexecuted();
    runs_in_turn();
    if functions.len() == 1 {
        let code = alone(alloc, &functions[0], contract)?;
        return Ok(code);
    }
    let code = chosen(alloc, functions, ctors, contract)?;
    Ok(code)
}

/// The code of one function.
#[tactic(auto, using(crate::proofs::Built::marks_behind_nothing))]
fn alone(alloc: Global, function: &Marked, contract: Span) -> Result<Marked, Memory>
    ensures { IfOk result (λ code. IsAlone function.now code) }
{
    let mut chooser = Chooser {
        code: Vec::new(alloc),
        marks: Vec::new(alloc),
        contract,
    };
    chooser.put_function(function)?;
    Ok(chooser.marked())
}

/// The code of several functions.
fn chosen(alloc: Global, functions: &[Marked], ctors: u16, contract: Span) -> Result<Marked, Memory>
    requires { length functions.now ≤ 64 }
    ensures code { IfOk result (λ code. code.code.items
        ≡ code_of (Own (raising contract ctors) ∷ choice contract 0 functions.now)) }
    ensures marks { IfOk result (λ code. code.marks.items
        ≡ marks_of 0 (Own (raising contract ctors) ∷ choice contract 0 functions.now)) }
{
    let mut chooser = Chooser {
        code: Vec::new(alloc),
        marks: Vec::new(alloc),
        contract,
    };
    chooser.raise(ctors)?;
    chooser.choose(functions, 0)?;
    Ok(chooser.marked())
}
