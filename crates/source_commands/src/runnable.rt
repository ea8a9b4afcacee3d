//! That the contract of a compiled source can be run.

ghost use Rattle.std.specs.Prelude.{◌≡◌, IsTrue};
ghost use Rattle.cash_compile.specs.Compile.{IsCompiled};
ghost use Rattle.spend_meaning.specs.Meant.{HasRoom, has_parameters_of};

use cash_compile::compile::Compiled;
use cash_compile::laws::accepted_contracts_run;

/// The room has places for each function of a compiled contract, and its program has as many parameters.
pub(crate) fn can_be_run(compiled: &Compiled)
    requires { IsCompiled compiled.now.program.source compiled.now.contract compiled.now.program }
    ensures room { HasRoom compiled.now.contract }
    ensures told { IsTrue (has_parameters_of compiled.now.program compiled.now.contract) }
{
    accepted_contracts_run();
}
