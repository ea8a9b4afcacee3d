//! Runs of code in which conditions are matched.

ghost use Rattle.std.specs.Prelude.{Bool, IsTrue, List, ◌++◌};
ghost use Rattle.script_codec.specs.declared.instr.Instr.{Instr};
ghost use Rattle.bch_vm.specs.Setting.{Setting};
ghost use Rattle.bch_vm.specs.Script.{State, run};
ghost use Rattle.run_laws.specs.Nested.{is_nested};
ghost use Rattle.run_laws.specs.Branches.{ChangesNothing, ExecutesNothing, HasConditionsOf, GoesUnderAny, one_arm, two_arms, RunsTheFirst, RunsTheSecond, RunsTheOnly, RunsNone};

use bch_vm::machine::runs_in_turn;

/// Nested code that isn't executed, since some open condition is false, changes nothing but that its instructions were passed,
/// and none of them is executed.
pub fn nested_code_unexecuted()
    ensures changes { (setting : Setting) (code : List Instr) → IsTrue (is_nested code) → ChangesNothing setting code }
    ensures executes { (setting : Setting) (code : List Instr) → IsTrue (is_nested code) → ExecutesNothing setting code }
{}

/// Where nested code ends, the same conditions are open as before it, and where all are true it goes alike, whichever they are.
pub fn nested_code_keeps_conditions()
    ensures same { (setting : Setting) (code : List Instr) (s : State) → IsTrue (is_nested code)
        → HasConditionsOf s (run setting code s) }
    ensures any { (setting : Setting) (code : List Instr) → IsTrue (is_nested code) → GoesUnderAny setting code }
{}

/// Nested code after nested code is nested, and so is an arm that is nested, or two, with IF or NOTIF, ELSE and ENDIF around.
pub fn nested_code_composes()
    ensures in_turn { (first second : List Instr) → IsTrue (is_nested first) → IsTrue (is_nested second)
        → IsTrue (is_nested (first ++ second)) }
    ensures one { (sense : Bool) (arm : List Instr) → IsTrue (is_nested arm) → IsTrue (is_nested (one_arm sense arm)) }
    ensures two { (sense : Bool) (first second : List Instr) → IsTrue (is_nested first) → IsTrue (is_nested second)
        → IsTrue (is_nested (two_arms sense first second)) }
{}

/// IF or NOTIF, ELSE and ENDIF around nested code, where they are executed and a test stands on the stack: the run is that of
/// the arm that the test picks, and the other is passed over.
pub fn picked_arm_runs()
    ensures first { (setting : Setting) (sense : Bool) (first second : List Instr) → IsTrue (is_nested first)
        → IsTrue (is_nested second) → RunsTheFirst setting sense first second }
    ensures second { (setting : Setting) (sense : Bool) (first second : List Instr) → IsTrue (is_nested first)
        → IsTrue (is_nested second) → RunsTheSecond setting sense first second }
    ensures only { (setting : Setting) (sense : Bool) (arm : List Instr) → IsTrue (is_nested arm)
        → RunsTheOnly setting sense arm }
    ensures none { (setting : Setting) (sense : Bool) (arm : List Instr) → IsTrue (is_nested arm)
        → RunsNone setting sense arm }
{
    runs_in_turn();
}
