//! Runs of a contract's source, in a room that is reserved at first, so that they take no memory.

ghost use Rattle.std.specs.Prelude.{◌≡◌, length, map, slice_get, IsTrue, IfSome};
ghost use Rattle.meaning_room.specs.Meaning.{source_outcome, with_values};
ghost use Rattle.meaning_room.specs.Names.{env_of};
ghost use Rattle.source_meaning.specs.Runnable.{params_have_room, CanRun};

use crate::execute::execute_all;
use cash_base::element::copy_of;
use cash_base::{Element, Memory, Slot};
use cash_tree::{Param, TypedContract};
use meaning_room::{Failure, Names, Operands, SourceOutcome, World};
use std::alloc::Global;

/// Places for the values of a run: 1,000 for those of an expression, and 160 for those of names.
#[derive(Drop)]
pub struct SourceRoom {
    operands: Operands,
    names: Names,
}

impl SourceRoom {
    /// A room whose places are reserved. `Memory` comes where there is no memory for them.
    pub fn new(alloc: Global) -> Result<SourceRoom, Memory> {
        let operands = Operands::new(alloc)?;
        let names = Names::new(alloc)?;
        Ok(SourceRoom { operands, names })
    }

    /// Runs a function of a contract in a world: the constructor's parameters have the elements of `ctor`, and the
    /// function's those of `args`. `function` is its place in the contract, counted from 0.
    ///
    /// There is such a function, there are as many elements as parameters, and the room has places for all (`CanRun`): each
    /// name has a slot below 160, and each expression has at most 1,000 nodes.
    ///
    /// It answers `Met` where no operation fails and every `require` is met, and else the first failure of the run, as
    /// `source_outcome` has it. It takes no memory, and nothing of an earlier run is left.
    pub fn run(
        &mut self,
        contract: &TypedContract,
        ctor: &[Element],
        function: usize,
        args: &[Element],
        world: &World<'_>,
    ) -> SourceOutcome
        requires { CanRun contract.now (length ctor.now) function (length args.now) }
        ensures { IfSome (slice_get contract.now.functions function) (λ f. result ≡ source_outcome contract.now
            (map (λ e. e.items) ctor.now) f (map (λ e. e.items) args.now) world.now) }
    {
        let function = &contract.functions.as_slice()[function];
        self.names.clear();
        give_all(&mut self.names, contract.params.as_slice(), ctor);
        give_all(&mut self.names, function.params.as_slice(), args);
        let body = function.body.as_slice();
        match execute_all(&mut self.operands, body, &mut self.names, world) {
            Ok(()) => SourceOutcome::Met,
            Err(Failure { span, cause }) => SourceOutcome::Failed { span, cause },
        }
    }
}

/// Gives each parameter its element.
fn give_all(names: &mut Names, params: &[Param<Slot>], elements: &[Element])
    requires count { length elements.now ≡ length params.now }
    requires room { IsTrue (params_have_room params.now) }
    ensures { env_of names.new ≡ with_values params.now (map (λ e. e.items) elements.now) (env_of names.old) }
{
    for (place, param) in params.iter().enumerate() {
        names.set(param.name, copy_of(elements[place].as_slice()));
    }
}
