//! The scripts of a spend that a spend file asks for, or the first fault of what it says.

ghost use Rattle.std.specs.Prelude.{◌≡◌, ◌≤◌, ◌<◌, ◌^◌, ◌⊎◌, length, map, option_map, string_bytes, IfOk, IfErr, OnOk, Ok, Err};
ghost use Rattle.std.specs.List.{position_from};
ghost use Rattle.std.specs.Str.{bytes_eq};
ghost use Rattle.spend_json.specs.Given.{value_parts, choice_parts, spend_parts, SpendParts, by_call};
ghost use Rattle.artifact_json.specs.Artifact.{Artifact, HasFewInputs};
ghost use Rattle.unlocker.specs.declared.BuildFault.TheVariants as faults;
ghost use Rattle.unlocker.specs.Building.{count_check};
ghost use Rattle.unlocker.specs.Handing.{handed_by};
ghost use Rattle.unlocker.specs.Spends;
ghost use Rattle.unlocker.specs.Spends.{elements_for, opened_by, called_by, unlocking_by, built_spend, built_call, Handed, IsCallOf};

use crate::built::{Call, Scripts};
use crate::values::element_of;
use crate::{BuildFault, LONGEST_SCRIPT, check_count, push_all, redeem_of, unlocking_of};
use artifact_json::{AbiFunction, AbiInput, Program};
use cash_base::{Element, TypedValue};
use spend_json::{Choice, SpendFile};
use std::alloc::Global;
use std::marker::Model;

/// The elements of the constructor's parameters, and the redeem script that has them.
#[derive(Drop)]
struct Front {
    ctor: Vec<Element>,
    redeem: Vec<u8>,
}

impl Model for Front {
    ghost use Rattle.std.specs.Prelude.{map};
    ghost use Rattle.unlocker.specs.Spends.{Opened};

    ghost Value = { Opened };

    ghost view = { λ f. record { ctor = map (λ e. e.items) f.ctor.items; redeem = f.redeem.items } };
}

/// A function, by its index from 0, and the elements of its parameters.
#[derive(Drop)]
struct Asked {
    chosen: usize,
    args: Vec<Element>,
}

impl Model for Asked {
    ghost use Rattle.std.specs.Prelude.{map};
    ghost use Rattle.unlocker.specs.Spends.{Called};

    ghost Value = { Called };

    ghost view = { λ a. record { chosen = a.chosen; args = map (λ e. e.items) a.args.items } };
}

/// The scripts of a spend of a program, each of whose functions has at most 16 parameters.
///
/// The first of these faults comes exactly where it is one: `WrongCount` of the constructor's values; the fault of the first of them
/// that has one; `RedeemTooLong`; and then, for a call, `NoSuchFunction` where no function has the name, or none is named and there is
/// not just one, `WrongCount` of the arguments, and the fault of the first of them that has one; for pushes, `UnlockTooLong`. Of
/// several functions of one name the first is meant. Memory may be wanting at any time.
pub fn scripts_of(
    alloc: Global,
    program: &Program,
    spend: &SpendFile,
) -> Result<Scripts, BuildFault>
    requires { HasFewInputs program.now }
    ensures built { IfOk result (λ scripts. built_spend program.now (spend_parts spend.now) ≡ Ok scripts) }
    ensures refused { IfErr result (λ fault. (fault ≡ faults.Memory)
        ⊎ (built_spend program.now (spend_parts spend.now) ≡ Err fault)) }
    ensures redeem { IfOk result (λ scripts. length scripts.redeem ≤ 520) }
    ensures size { IfOk result (λ scripts. length scripts.unlocking ≤ LONGEST_SCRIPT) }
{
    let front = front_of(alloc, program, spend.ctor.as_slice())?;
    let unlocking = unlocking_by(alloc, program, &spend.choice, front.redeem.as_slice())?;
    Ok(Scripts {
        redeem: front.redeem,
        unlocking,
    })
}

/// The call that a spend makes of a program, each of whose functions has at most 16 parameters, and its scripts.
///
/// `PushesGiven` comes exactly where the file has pushes. The other faults are those of [`scripts_of`], in their order.
pub fn call_of(alloc: Global, program: &Program, spend: &SpendFile) -> Result<Call, BuildFault>
    requires { HasFewInputs program.now }
    ensures built { IfOk result (λ call. built_call program.now (spend_parts spend.now) ≡ Ok (handed_by call)) }
    ensures refused { IfErr result (λ fault. (fault ≡ faults.Memory)
        ⊎ (built_call program.now (spend_parts spend.now) ≡ Err fault)) }
    ensures fits { IfOk result (λ call. IsCallOf program.now (handed_by call)) }
    ensures redeem { IfOk result (λ call. length call.scripts.redeem ≤ 520) }
    ensures size { IfOk result (λ call. length call.scripts.unlocking ≤ LONGEST_SCRIPT) }
{
    match &spend.choice {
        Choice::Pushes(_) => Err(BuildFault::PushesGiven),
        Choice::Call { function, args } => {
            let call = call_with(
                alloc,
                program,
                spend.ctor.as_slice(),
                function,
                args.as_slice(),
            )?;
            Ok(call)
        }
    }
}

/// The scripts of a call are those of its spend.
pub fn calls_have_their_scripts()
    ensures { (program : Artifact) (spend : SpendParts) (call : Handed)
        → built_call program spend ≡ Ok call → built_spend program spend ≡ Ok call.scripts }
{}

fn call_with(
    alloc: Global,
    program: &Program,
    ctor: &[TypedValue],
    name: &Option<String>,
    values: &[TypedValue],
) -> Result<Call, BuildFault>
    requires { HasFewInputs program.now }
    ensures built { IfOk result (λ call. Spends.call_with program.now (map value_parts ctor.now)
        (by_call (option_map string_bytes name.now) (map value_parts values.now)) ≡ Ok (handed_by call)) }
    ensures refused { IfErr result (λ fault. (fault ≡ faults.Memory)
        ⊎ (Spends.call_with program.now (map value_parts ctor.now)
        (by_call (option_map string_bytes name.now) (map value_parts values.now)) ≡ Err fault)) }
    ensures redeem { IfOk result (λ call. length call.scripts.redeem ≤ 520) }
    ensures size { IfOk result (λ call. length call.scripts.unlocking ≤ LONGEST_SCRIPT) }
{
    let front = front_of(alloc, program, ctor)?;
    let asked = asked_by(alloc, program, name, values)?;
    let unlocking = unlocking_of(
        alloc,
        program.abi.len(),
        asked.chosen,
        asked.args.as_slice(),
        front.redeem.as_slice(),
    )?;
    let scripts = Scripts {
        redeem: front.redeem,
        unlocking,
    };
    Ok(Call {
        ctor: front.ctor,
        chosen: asked.chosen,
        args: asked.args,
        scripts,
    })
}

fn front_of(alloc: Global, program: &Program, values: &[TypedValue]) -> Result<Front, BuildFault>
    ensures built { IfOk result (λ front. opened_by program.now (map value_parts values.now) ≡ Ok front) }
    ensures refused { IfErr result (λ fault. (fault ≡ faults.Memory)
        ⊎ (opened_by program.now (map value_parts values.now) ≡ Err fault)) }
    ensures redeem { IfOk result (λ front. length front.redeem ≤ 520) }
{
    let ctor = elements_of(alloc, program.ctor.as_slice(), values)?;
    let redeem = redeem_of(alloc, program, ctor.as_slice())?;
    Ok(Front { ctor, redeem })
}

/// The unlocking script of a call, or of the pushes in its place.
fn unlocking_by(
    alloc: Global,
    program: &Program,
    choice: &Choice,
    redeem: &[u8],
) -> Result<Vec<u8>, BuildFault>
    requires few { HasFewInputs program.now }
    requires redeem { length redeem.now ≤ 520 }
    ensures built { IfOk result (λ script. unlocking_by program.now (choice_parts choice.now) redeem.now ≡ Ok script.items) }
    ensures refused { IfErr result (λ fault. (fault ≡ faults.Memory)
        ⊎ (unlocking_by program.now (choice_parts choice.now) redeem.now ≡ Err fault)) }
    ensures size { IfOk result (λ script. length script.items ≤ LONGEST_SCRIPT) }
{
    match choice {
        Choice::Pushes(elements) => {
            let script = push_all(alloc, elements.as_slice(), redeem)?;
            Ok(script)
        }
        Choice::Call { function, args } => {
            let asked = asked_by(alloc, program, function, args.as_slice())?;
            let script = unlocking_of(
                alloc,
                program.abi.len(),
                asked.chosen,
                asked.args.as_slice(),
                redeem,
            )?;
            Ok(script)
        }
    }
}

#[tactic(auto, using(crate::proofs::Spent::few_found))]
fn asked_by(
    alloc: Global,
    program: &Program,
    name: &Option<String>,
    values: &[TypedValue],
) -> Result<Asked, BuildFault>
    requires { HasFewInputs program.now }
    ensures built { IfOk result (λ asked.
        called_by program.now (option_map string_bytes name.now) (map value_parts values.now) ≡ Ok asked) }
    ensures refused { IfErr result (λ fault. (fault ≡ faults.Memory)
        ⊎ (called_by program.now (option_map string_bytes name.now) (map value_parts values.now) ≡ Err fault)) }
    ensures few { IfOk result (λ asked. length asked.args ≤ 16) }
    ensures place { IfOk result (λ asked. asked.chosen < 2 ^ 63) }
{
    let functions = program.abi.as_slice();
    let Some(chosen) = place_of(functions, name) else {
        return Err(BuildFault::NoSuchFunction);
    };
    let Some(function) = functions.get(chosen) else {
        return Err(BuildFault::NoSuchFunction);
    };
    let args = elements_of(alloc, function.inputs.as_slice(), values)?;
    Ok(Asked { chosen, args })
}

fn place_of(functions: &[AbiFunction], name: &Option<String>) -> Option<usize>
    ensures { result ≡ Spends.place_of functions.now (option_map string_bytes name.now) }
{
    match name {
        Some(name) => named(functions, name.as_str()),
        None => { if functions.len() == 1 { Some(0) } else { None } }
    }
}

/// The first function of a name, by its index from 0.
fn named(functions: &[AbiFunction], name: &str) -> Option<usize>
    ensures { result ≡ position_from (λ function. bytes_eq function.name name.now) 0 functions.now }
{
    for (place, function) in functions.iter().enumerate() {
        if function.name.as_str() == name {
            return Some(place);
        }
    }
    None
}

#[tactic(auto, using(crate::proofs::Pushed::counted))]
fn elements_of(
    alloc: Global,
    params: &[AbiInput],
    values: &[TypedValue],
) -> Result<Vec<Element>, BuildFault>
    ensures built { IfOk result (λ elements.
        elements_for params.now (map value_parts values.now) ≡ Ok (map (λ e. e.items) elements.items)) }
    ensures refused { IfErr result (λ fault. (fault ≡ faults.Memory)
        ⊎ (elements_for params.now (map value_parts values.now) ≡ Err fault)) }
    ensures count { IfOk result (λ elements. length elements.items ≡ length params.now) }
{
    check_values(params.len(), values)?;
    let elements = each_element(alloc, params, values)?;
    Ok(elements)
}

#[tactic(auto, using(crate::proofs::Pushed::counted))]
fn check_values(wanted: usize, values: &[TypedValue]) -> Result<(), BuildFault>
    ensures value { result ≡ count_check wanted (length (map value_parts values.now)) }
    ensures same { OnOk result (length values.now ≡ wanted) }
{
    check_count(wanted, values.len())
}

/// The elements of as many values as there are parameters.
#[tactic(auto, using(crate::proofs::Spent::one_more_element, crate::proofs::Spent::nothing_left))]
fn each_element(
    alloc: Global,
    params: &[AbiInput],
    values: &[TypedValue],
) -> Result<Vec<Element>, BuildFault>
    requires { length values.now ≡ length params.now }
    ensures built { IfOk result (λ elements.
        Spends.each_element params.now (map value_parts values.now) ≡ Ok (map (λ e. e.items) elements.items)) }
    ensures refused { IfErr result (λ fault. (fault ≡ faults.Memory)
        ⊎ (Spends.each_element params.now (map value_parts values.now) ≡ Err fault)) }
    ensures count { IfOk result (λ elements. length elements.items ≡ length params.now) }
{
    let mut elements = Vec::new(alloc);
    let mut left = params;
    let mut rest = values;
    'rest: while let Some((value, values)) = rest.split_first() {
        let Some((param, params)) = left.split_first() else {
            return Ok(elements);
        };
        let element = element_of(alloc, &param.ty, value)?;
        elements.push(element)?;
        left = params;
        rest = values;
    }
    Ok(elements)
}
