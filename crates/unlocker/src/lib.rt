//! The scripts of a spend of a compiled contract.
#![tactic(auto)]

ghost use Rattle.std.specs.Prelude.{ℕ, List, Ok, Err, ◌≡◌, ◌≤◌, ◌<◌, ◌+◌, ◌*◌, ◌^◌, ◌⊎◌, length, map, reverse, IsTrue, IfOk, IfErr, OnOk};
ghost use Rattle.script_codec.specs.Spelling.{are_instructions, spellings};
ghost use Rattle.script_codec.specs.Reading.{push};
ghost use Rattle.cash_base.specs.declared.fault.MachineCause.TheVariants.{ScriptSize};
ghost use Rattle.bch_vm.specs.declared.outcome.Which.{Which};
ghost use Rattle.bch_vm.specs.declared.outcome.MachineOutcome.TheVariants.{Refused};
ghost use Rattle.bch_vm.specs.Course.{Gives, Stops};
ghost use Rattle.bch_vm.specs.Spend.{sized};
ghost use Rattle.bch_vm.specs.Law.{locking_script};
ghost use Rattle.unlocker.specs.declared.BuildFault.TheVariants as faults;
ghost use Rattle.unlocker.specs.Scripts.{handed_in, redeem_script, spending_script};
ghost use Rattle.unlocker.specs.Building;
ghost use Rattle.unlocker.specs.Building.{count_check, size_check, built_redeem, built_unlocking, built_pushes};

pub mod built;
pub mod spends;
pub mod values;

use artifact_json::Program;
use artifact_json::laws::spelled_code_is_encoded;
pub use built::{Call, Scripts};
use cash_base::element::copy_of;
use cash_base::{Element, MAX_ELEMENT_LEN, Memory, write_number};
use ripemd160::ripemd160;
use script_codec::{Instr, encode};
use sha2::{Digest, Sha256};
pub use spends::{call_of, scripts_of};
use std::alloc::{AllocError, AllocFailed, Global};
use thiserror::Error;
pub use values::element_of;

/// The most bytes of a script.
///
/// Source: the Bitcoin Cash specification, the maximum length of a script.
pub const LONGEST_SCRIPT: usize = 10_000;

/// The machine refuses a script that is longer, before it is run, and no other for its size.
pub fn longest_script_is_run()
    ensures longer { (which : Which) (script : List ℕ) → LONGEST_SCRIPT < length script
        → sized which script ≡ Stops (Refused which 0 ScriptSize) }
    ensures other { (which : Which) (script : List ℕ) → length script ≤ LONGEST_SCRIPT → sized which script ≡ Gives tt }
{}

/// Why no scripts are built. A number that has more than 32 bits is told as 4,294,967,295.
#[derive(Clone, Copy, Debug, PartialEq, Eq, Error)]
pub enum BuildFault {
    /// There are other than as many elements as there are parameters.
    #[error("{wanted} elements are wanted, and {found} are given")]
    WrongCount {
        /// How many parameters there are.
        wanted: u32,
        /// How many elements are given.
        found: u32,
    },
    /// The contract has no such function, or none is named and it has several.
    #[error("there is no such function")]
    NoSuchFunction,
    /// A value isn't of the kind that its parameter's type takes, or it is no hexadecimal where bytes are wanted.
    #[error("the value is none of its parameter's type")]
    WrongValue,
    /// A `bytesN` has other than N bytes.
    #[error("{wanted} bytes are wanted, and {found} are given")]
    WrongLength {
        /// How many are wanted.
        wanted: u32,
        /// How many are given.
        found: u32,
    },
    /// A number is below -9,223,372,036,854,775,807.
    #[error("the number is too small for an int")]
    IntRange,
    /// A value has more than 520 bytes.
    #[error("the value has {bytes} bytes, and an element has at most 520")]
    TooLong {
        /// How many it has.
        bytes: u32,
    },
    /// The redeem script has more than 520 bytes.
    #[error("the redeem script has {bytes} bytes, and at most 520 can be pushed")]
    RedeemTooLong {
        /// How many it has.
        bytes: u32,
    },
    /// The unlocking script has more than 10,000 bytes.
    #[error("the unlocking script has {bytes} bytes, and a script has at most 10,000")]
    UnlockTooLong {
        /// How many it has.
        bytes: u32,
    },
    /// There are pushes where a call of a function is wanted.
    #[error("pushes are given, and a call of a function is wanted")]
    PushesGiven,
    /// Memory ran out.
    #[error("out of memory")]
    Memory,
}

impl From<Memory> for BuildFault {
    ghost from_gives = { λ _ fault. fault ≡ faults.Memory };

    fn from(_e: Memory) -> BuildFault {
        BuildFault::Memory
    }
}

impl From<AllocError> for BuildFault {
    ghost from_gives = { λ _ fault. fault ≡ faults.Memory };

    fn from(_e: AllocError) -> BuildFault {
        BuildFault::Memory
    }
}

impl<T: Drop> From<AllocFailed<T>> for BuildFault {
    ghost from_gives = { λ _ fault. fault ≡ faults.Memory };

    fn from(_e: AllocFailed<T>) -> BuildFault {
        BuildFault::Memory
    }
}

/// The redeem script of a contract: minimal pushes of the constructor's elements, the last first, and then the code.
///
/// `WrongCount` comes exactly where there are other than as many elements as parameters of the constructor, and then
/// `RedeemTooLong` exactly where the script has more than 520 bytes; memory may be wanting at any time.
pub fn redeem(alloc: Global, program: &Program, ctor: &[Element]) -> Result<Vec<u8>, BuildFault>
    ensures built { IfOk result (λ script. built_redeem program.now (map (λ e. e.items) ctor.now) ≡ Ok script.items) }
    ensures refused { IfErr result (λ fault. (fault ≡ faults.Memory)
        ⊎ (built_redeem program.now (map (λ e. e.items) ctor.now) ≡ Err fault)) }
    ensures size { IfOk result (λ script. length script.items ≤ 520) }
{
    check_elements(program.ctor.len(), ctor)?;
    let script = redeem_of(alloc, program, ctor)?;
    Ok(script)
}

/// The redeem script of as many elements as there are parameters.
#[tactic(auto, using(crate::proofs::Pushed::joined))]
pub(crate) fn redeem_of(
    alloc: Global,
    program: &Program,
    ctor: &[Element],
) -> Result<Vec<u8>, BuildFault>
    ensures built { IfOk result (λ script.
        size_check (redeem_script program.now.code (map (λ e. e.items) ctor.now)) ≡ Ok script.items) }
    ensures refused { IfErr result (λ fault. (fault ≡ faults.Memory)
        ⊎ (size_check (redeem_script program.now.code (map (λ e. e.items) ctor.now)) ≡ Err fault)) }
    ensures size { IfOk result (λ script. length script.items ≤ 520) }
{
    spelled_code_is_encoded();
    let mut script = encode(alloc, pushes(alloc, ctor)?.as_slice())?;
    script.extend_from_slice(encode(alloc, program.code.as_slice())?.as_slice())?;
    if script.len() > MAX_ELEMENT_LEN {
        let bytes = capped(script.len());
        return Err(BuildFault::RedeemTooLong { bytes });
    }
    Ok(script)
}

/// The locking script of a redeem script: HASH160, a push of the 20 bytes of its digest, and EQUAL. Takes no memory.
///
/// Source: BIP 16, pay to script hash.
pub fn locking(redeem: &[u8]) -> [u8; 23]
    ensures { result ≡ locking_script redeem.now }
{
    let digest = ripemd160(&Sha256::digest(redeem));
    let mut script = [0x87; 23];
    script[0] = 0xa9;
    script[1] = 0x14;
    script[2..22].copy_from_slice(&digest);
    script
}

/// The unlocking script that calls a function, which is named by its index from 0, for a redeem script of at most 520 bytes.
///
/// It has the minimal pushes of the arguments, the last first, of the function's index where the contract has two
/// functions or more, and of the redeem script: at most 523 bytes for each. `NoSuchFunction` comes exactly where there is
/// no such function, and then `WrongCount` exactly where there are other than as many elements as parameters; memory may
/// be wanting at any time.
pub fn unlocking(
    alloc: Global,
    program: &Program,
    function: usize,
    args: &[Element],
    redeem: &[u8],
) -> Result<Vec<u8>, BuildFault>
    requires { length redeem.now ≤ 520 }
    ensures built { IfOk result (λ script.
        built_unlocking program.now function (map (λ e. e.items) args.now) redeem.now ≡ Ok script.items) }
    ensures refused { IfErr result (λ fault. (fault ≡ faults.Memory)
        ⊎ (built_unlocking program.now function (map (λ e. e.items) args.now) redeem.now ≡ Err fault)) }
    ensures size { IfOk result (λ script. length script.items ≤ 523 * (length args.now + 2)) }
{
    let functions = program.abi.as_slice();
    let Some(called) = functions.get(function) else {
        return Err(BuildFault::NoSuchFunction);
    };
    check_elements(called.inputs.len(), args)?;
    let script = unlocking_of(alloc, functions.len(), function, args, redeem)?;
    Ok(script)
}

/// The unlocking script of a call, where there are so many functions.
#[tactic(auto, using(crate::proofs::Pushed::more_spelled, crate::proofs::Sizes::more_size))]
pub(crate) fn unlocking_of(
    alloc: Global,
    functions: usize,
    function: usize,
    args: &[Element],
    redeem: &[u8],
) -> Result<Vec<u8>, Memory>
    requires place { function < 2 ^ 63 }
    requires redeem { length redeem.now ≤ 520 }
    ensures built { IfOk result (λ script.
        script.items ≡ spending_script functions function (map (λ e. e.items) args.now) redeem.now) }
    ensures size { IfOk result (λ script. length script.items ≤ 523 * (length args.now + 2)) }
{
    let mut code = handed_pushes(alloc, functions, function, args)?;
    code.push(Instr::Push(copy_of(redeem)))?;
    Ok(encode(alloc, code.as_slice())?)
}

/// The unlocking script that pushes these elements in order, so that the last ends up on top, and then a redeem script of at
/// most 520 bytes, each by its minimal push.
///
/// `UnlockTooLong` comes exactly where it has more than 10,000 bytes, as no script may have; memory may be wanting at any time.
#[tactic(auto, using(crate::proofs::Pushed::more_spelled))]
pub fn push_all(alloc: Global, elements: &[Element], redeem: &[u8]) -> Result<Vec<u8>, BuildFault>
    requires { length redeem.now ≤ 520 }
    ensures built { IfOk result (λ script. built_pushes (map (λ e. e.items) elements.now) redeem.now ≡ Ok script.items) }
    ensures refused { IfErr result (λ fault. (fault ≡ faults.Memory)
        ⊎ (built_pushes (map (λ e. e.items) elements.now) redeem.now ≡ Err fault)) }
    ensures size { IfOk result (λ script. length script.items ≤ LONGEST_SCRIPT) }
{
    let mut code = pushes_in_order(alloc, elements)?;
    code.push(Instr::Push(copy_of(redeem)))?;
    let script = encode(alloc, code.as_slice())?;
    if script.len() > LONGEST_SCRIPT {
        let bytes = capped(script.len());
        return Err(BuildFault::UnlockTooLong { bytes });
    }
    Ok(script)
}

/// A number of 32 bits, the greatest for a greater one.
pub(crate) fn capped(n: usize) -> u32
    ensures { result ≡ Building.capped n }
{
    if n <= 4_294_967_295 {
        n as u32
    } else {
        u32::MAX
    }
}

/// As many elements as are wanted, or the fault that tells both numbers.
#[tactic(auto, using(crate::proofs::Pushed::counted))]
fn check_elements(wanted: usize, elements: &[Element]) -> Result<(), BuildFault>
    ensures { result ≡ count_check wanted (length (map (λ e. e.items) elements.now)) }
{
    check_count(wanted, elements.len())
}

pub(crate) fn check_count(wanted: usize, found: usize) -> Result<(), BuildFault>
    ensures value { result ≡ count_check wanted found }
    ensures same { OnOk result (found ≡ wanted) }
{
    if wanted == found {
        return Ok(());
    }
    let wanted = capped(wanted);
    let found = capped(found);
    Err(BuildFault::WrongCount { wanted, found })
}

/// The pushes of what an unlocking script hands to a redeem script.
#[tactic(auto, using(crate::proofs::Pushed::first_last, crate::proofs::Pushed::more_spelled, crate::proofs::Sizes::more_size))]
fn handed_pushes(
    alloc: Global,
    functions: usize,
    function: usize,
    args: &[Element],
) -> Result<Vec<Instr>, Memory>
    requires { function < 2 ^ 63 }
    ensures pushed { IfOk result (λ code. code.items
        ≡ map push (reverse (handed_in functions function (map (λ e. e.items) args.now)))) }
    ensures spelled { IfOk result (λ code. IsTrue (are_instructions code.items)) }
    ensures size { IfOk result (λ code. length (spellings code.items) ≤ 523 * (length args.now + 1)) }
{
    let mut code = pushes(alloc, args)?;
    if functions < 2 {
        return Ok(code);
    }
    let number = write_number(function as i64);
    prove!(number.len() <= MAX_ELEMENT_LEN);
    code.push(Instr::Push(number))?;
    Ok(code)
}

/// The pushes of some elements, in order.
#[tactic(auto, using(crate::proofs::Pushed::more_spelled))]
fn pushes_in_order(alloc: Global, elements: &[Element]) -> Result<Vec<Instr>, Memory>
    ensures pushed { IfOk result (λ code. code.items ≡ map push (map (λ e. e.items) elements.now)) }
    ensures spelled { IfOk result (λ code. IsTrue (are_instructions code.items)) }
{
    let mut code = Vec::new(alloc);
    let mut rest = elements;
    'rest: while let Some((first, others)) = rest.split_first() {
        code.push(Instr::Push(copy_of(first.as_slice())))?;
        rest = others;
    }
    Ok(code)
}

/// The pushes of some elements, the last first.
#[tactic(auto, using(crate::proofs::Pushed::last_first, crate::proofs::Pushed::more_spelled, crate::proofs::Sizes::more_size))]
fn pushes(alloc: Global, elements: &[Element]) -> Result<Vec<Instr>, Memory>
    ensures pushed { IfOk result (λ code. code.items ≡ map push (reverse (map (λ e. e.items) elements.now))) }
    ensures spelled { IfOk result (λ code. IsTrue (are_instructions code.items)) }
    ensures size { IfOk result (λ code. length (spellings code.items) ≤ 523 * length elements.now) }
{
    let mut code = Vec::new(alloc);
    let mut rest = elements;
    'rest: while let Some((last, others)) = rest.split_last() {
        code.push(Instr::Push(copy_of(last.as_slice())))?;
        rest = others;
    }
    Ok(code)
}
