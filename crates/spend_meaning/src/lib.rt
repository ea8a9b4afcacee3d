//! What a call means that a spend file asks for: how the run of the contract's source ends, in the world of its spend.
#![tactic(auto)]

ghost use Rattle.std.specs.Prelude.{◌≡◌, ◌≤◌, ◌⊎◌, length, IfOk, IfErr, IsTrue, Ok, Err};
ghost use Rattle.spend_json.specs.Given.{spend_parts};
ghost use Rattle.artifact_json.specs.Artifact.{HasFewInputs};
ghost use Rattle.unlocker.specs.Spends;
ghost use Rattle.unlocker.specs.Spends.{IsCallOf, built_call};
ghost use Rattle.unlocker.specs.Handing.{handed_by};
ghost use Rattle.spend_debug.specs.SpendDebug.{or_stop};
ghost use Rattle.spend_debug.specs.declared.spends.SpendStop.TheVariants as stops;
ghost use Rattle.spend_meaning.specs.Meant as specs;
ghost use Rattle.spend_meaning.specs.Meant.{HasRoom, has_parameters_of, take_as_many, IsMeant, IsEnd};

use artifact_json::{AbiFunction, Program};
use cash_base::{Memory, Slot};
use cash_tree::{Function, Ty, TypedContract};
use source_meaning::{SourceOutcome, SourceRoom, World};
use spend_debug::SpendStop;
use spend_json::SpendFile;
use std::alloc::Global;
use std::marker::Model;
use tx_context::{Context, LONGEST_BYTECODE, fill};
use unlocker::{Call, Scripts, call_of, locking};

/// The three scripts of a call's spend, and how the run of the function ends.
#[derive(Drop)]
pub struct Meant {
    pub redeem: Vec<u8>,
    pub unlocking: Vec<u8>,
    pub locking: [u8; 23],
    pub outcome: SourceOutcome,
}

impl Model for Meant {
    ghost use Rattle.spend_meaning.specs.Meant.{MeantParts};

    ghost Value = { MeantParts };

    ghost view = { λ m. record {
      redeem = m.redeem.items;
      unlocking = m.unlocking.items;
      locking = m.locking;
      outcome = m.outcome;
    } };
}

/// What a call of a contract means: the scripts of its spend, and how the run of the function that is called ends on the elements
/// of its values, in the world of the transaction with these scripts.
///
/// The program has as many parameters as the contract, of the constructor and of each function, and there are places for a run of
/// each. Each function has at most 16 parameters. `Build` comes exactly where there is no such call, with the first fault:
/// `PushesGiven` where the file has pushes, and else as for the scripts (`unlocker::call_of`). Memory may be wanting at any time. The
/// room can be used again after each answer; where there is none it is as it was.
pub fn meaning(
    alloc: Global,
    program: &Program,
    contract: &TypedContract,
    spend: &SpendFile,
    room: &mut SourceRoom,
) -> Result<Meant, SpendStop>
    requires few { HasFewInputs program.now }
    requires room { HasRoom contract.now }
    requires told { IsTrue (has_parameters_of program.now contract.now) }
    ensures meant { IfOk result (λ meant. IsMeant program.now contract.now (spend_parts spend.now) meant) }
    ensures stopped { IfErr result (λ stop. (stop ≡ stops.Memory)
        ⊎ (or_stop (built_call program.now (spend_parts spend.now)) ≡ Err stop)) }
    ensures lent { IfErr result (λ stop. room.new ≡ room.old) }
{
    let call = call_of(alloc, program, spend)?;
    let outcome = outcome_of(alloc, program, contract, spend, &call, room)?;
    Ok(meant_with(call.scripts, outcome))
}

fn meant_with(scripts: Scripts, outcome: SourceOutcome) -> Meant
    ensures { result ≡ specs.meant_with scripts outcome }
{
    let locking = locking(scripts.redeem.as_slice());
    Meant {
        redeem: scripts.redeem,
        unlocking: scripts.unlocking,
        locking,
        outcome,
    }
}

/// How the run of a call ends.
fn outcome_of(
    alloc: Global,
    program: &Program,
    contract: &TypedContract,
    spend: &SpendFile,
    call: &Call,
    room: &mut SourceRoom,
) -> Result<SourceOutcome, Memory>
    requires room { HasRoom contract.now }
    requires told { IsTrue (has_parameters_of program.now contract.now) }
    requires fits { IsCallOf program.now (handed_by call.now) }
    requires size { length call.now.scripts.unlocking ≤ LONGEST_BYTECODE }
    ensures ends { IfOk result (λ outcome. IsEnd contract.now (spend_parts spend.now) (handed_by call.now) outcome) }
    ensures lent { IfErr result (λ memory. room.new ≡ room.old) }
{
    let context = context_of(alloc, spend, &call.scripts)?;
    Ok(run_of(program, contract, spend, call, &context, room))
}

/// How the run of a call ends in its transaction.
fn run_of(
    program: &Program,
    contract: &TypedContract,
    spend: &SpendFile,
    call: &Call,
    context: &Context,
    room: &mut SourceRoom,
) -> SourceOutcome
    requires room { HasRoom contract.now }
    requires told { IsTrue (has_parameters_of program.now contract.now) }
    requires fits { IsCallOf program.now (handed_by call.now) }
    requires context { context.now ≡ Spends.context_of (spend_parts spend.now) call.now.scripts }
    ensures { IsEnd contract.now (spend_parts spend.now) (handed_by call.now) result }
{
    let world = World {
        ctx: context,
        verdicts: &spend.verdicts,
        redeem: call.scripts.redeem.as_slice(),
    };
    room.run(
        contract,
        call.ctor.as_slice(),
        call.chosen,
        call.args.as_slice(),
        &world,
    )
}

/// Whether a program has as many parameters as a contract: of the constructor, and one by one of each function. It takes no memory.
pub fn has_parameters_of(program: &Program, contract: &TypedContract) -> bool
    ensures { result ≡ has_parameters_of program.now contract.now }
{
    program.ctor.len() == contract.params.len()
        && take_as_many(program.abi.as_slice(), contract.functions.as_slice())
}

fn take_as_many(calls: &[AbiFunction], functions: &[Function<Slot, Ty>]) -> bool
    ensures { result ≡ take_as_many calls.now functions.now }
{
    match calls {
        [] => functions.is_empty(),
        [call, calls @ ..] => match functions {
            [] => false,
            [function, functions @ ..] => {
                call.inputs.len() == function.params.len() && take_as_many(calls, functions)
            }
        },
    }
}

/// The transaction of a spend, with its scripts.
fn context_of(alloc: Global, spend: &SpendFile, scripts: &Scripts) -> Result<Context, Memory>
    requires { length scripts.now.unlocking ≤ LONGEST_BYTECODE }
    ensures { IfOk result (λ context. context ≡ Spends.context_of (spend_parts spend.now) scripts.now) }
{
    let locking = locking(scripts.redeem.as_slice());
    let context = fill(alloc, &spend.frame, &locking, scripts.unlocking.as_slice())?;
    Ok(context)
}
