//! Laws of lowering.

ghost use Rattle.lowering_laws.specs.Laws.{ContractsAreLowered, ExpressionsAreReady};

/// Each expression that has a type, and that isn't an array, has slot code where its names are known.
pub fn expressions_are_ready()
    ensures { ExpressionsAreReady }
{}

/// Lowering takes each contract that is parsed, named and typed.
pub fn contracts_are_lowered()
    ensures { ContractsAreLowered }
{}
