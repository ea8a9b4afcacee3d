//! Runs with further elements under the stack.

ghost use Rattle.std.specs.Prelude.{IsTrue, List, ◌++◌};
ghost use Rattle.tx_context.specs.World.{World};
ghost use Rattle.script_codec.specs.declared.instr.Instr.{Instr};
ghost use Rattle.bch_vm.specs.Stack.{Stack};
ghost use Rattle.bch_vm.specs.Setting.{Setting};
ghost use Rattle.bch_vm.specs.Script.{State, run, run_end};
ghost use Rattle.run_laws.specs.Underneath.{is_without_depth, over, GoesAlike};

/// Code without DEPTH goes alike with further elements under the stack.
///
/// A run that ends leaves the same state, with the elements under its stack. A run that fails with a cause that the source's
/// run has too fails alike, at the same index; one that fails for another cause may go on with them, as where an opcode finds
/// its operands among them.
pub fn elements_underneath_stay()
    ensures run { (setting : Setting) (code : List Instr) → IsTrue (is_without_depth code) → (s : State) (under : Stack)
        → GoesAlike under (run setting code s) (run setting code (over under s)) }
    ensures whole { (world : World) (code : List Instr) → IsTrue (is_without_depth code) → (stack under : Stack)
        → GoesAlike under (run_end world code stack) (run_end world code (stack ++ under)) }
{}
