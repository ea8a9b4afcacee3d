//! From a source to the program of its contract.

ghost use Rattle.std.specs.Prelude.{◌≡◌, ◌≢◌, ◌^◌, ◌<◌, ◌≤◌, List, length, map, IfOk, IfErr, IsTrue};
ghost use Rattle.row_runs.specs.Rows.{instructions};
ghost use Rattle.selector.specs.Place.{is_unseparated};
ghost use Rattle.script_codec.specs.declared.spans.Spanned.{Spanned as Row};
ghost use Rattle.slot_lowering.specs.Functions.{CanLower};
ghost use Rattle.typed_sources.specs.Fits.{Fits};
ghost use Rattle.cash_compile.specs.declared.refusal.Refusal.TheVariants.{Memory as WithoutMemory};
ghost use Rattle.tidied_code.specs.Ends.{places};
ghost use Rattle.cash_compile.specs.Compile.{IsCompiled, IsUncompiled, code_size, code_count, most_bytes, most_opcodes};
ghost use Rattle.cash_compile.specs.Compile.{IsAccepted};
ghost use Rattle.cash_compile.specs.Code.{IsCode};

use crate::describe::{CodeAndPlaces, program_of, split};
use crate::functions::codes_of;
use crate::reading::typed_contract_of;
use crate::refusal::Refusal;
use crate::size::within_limits;
use artifact_json::Program;
use cash_base::Memory;
use cash_base::number::{number_of_written, written_is_element};
use cash_tree::TypedContract;
use counting_laws::laws::{choices_count_few, pushes_count_nothing};
use rows_behind::rows_run_behind;
use script_codec::{Instr, Marked, Spanned};
use selector::select;
use slot_lowering::lower;
use span_map::SpanRow;
use spend_laws::laws::spend_is_decided;
use std::alloc::Global;
use tidied_code::tidied;
use typed_sources::accepted_contracts_fit;

/// A contract and its program.
#[derive(Drop)]
pub struct Compiled {
    pub program: Program,
    pub contract: TypedContract,
}

/// The contract that a source stands for, and a program that is correct for it. The program tells `updated` as the time of its
/// compilation.
///
/// Each spend that is built of the program ends as the run of the source: accepted where the run is met, and otherwise
/// refused in the redeem script, with the cause and at the place of the run's failure. Its code has at most 520 bytes and counts
/// at most 201 opcodes, and at most those of the contract's room, a sum over its statements; and a file can hold it.
///
/// # Errors
///
/// The refusal of the first stage that gives nothing, each exactly where its cause stands in the source, in the order of
/// [`Refusal`]; `CodeTooLong` and `TooManyOps` with code that decides the contract by its runs, over the limit and within the
/// contract's room; or `Memory`, where memory ran out.
pub fn compile(alloc: Global, source: &[u8], updated: &str) -> Result<Compiled, Refusal>
    requires { length source.now < 2 ^ 32 }
    ensures compiled { IfOk result (λ compiled. IsCompiled source.now compiled.contract compiled.program) }
    ensures updated { IfOk result (λ compiled. compiled.program.updated ≡ updated.now) }
    ensures refused { IfErr result (λ refusal. refusal ≢ WithoutMemory → IsUncompiled source.now refusal) }
{
    accepted_contracts_fit();
    let contract = typed_contract_of(alloc, source)?;
    let rows = code_of(alloc, &contract)?;
    let program = sized_program(alloc, source, updated, &contract, rows)?;
    Ok(Compiled { program, contract })
}

/// The code of a contract, whatever its size.
fn code_of(alloc: Global, contract: &TypedContract) -> Result<Vec<Spanned>, Memory>
    requires can { CanLower contract.now }
    requires few_params { length contract.now.params ≤ 16 }
    requires some_function { 1 ≤ length contract.now.functions }
    requires few_functions { length contract.now.functions ≤ 64 }
    ensures { IfOk result (λ rows. IsCode contract.now rows.items) }
{
    let rows = untidied_code(alloc, contract)?;
    let shorter = tidied(alloc, rows)?;
    Ok(shorter)
}

/// The code of a contract as it is before the rewrite rules make it shorter: that of its functions, behind the choice of one.
///
/// # Errors
///
/// `Memory`, where memory ran out.
pub fn untidied_code(alloc: Global, contract: &TypedContract) -> Result<Vec<Spanned>, Memory>
    requires can { CanLower contract.now }
    requires few_params { length contract.now.params ≤ 16 }
    requires some_function { 1 ≤ length contract.now.functions }
    requires few_functions { length contract.now.functions ≤ 64 }
    ensures code { IfOk result (λ rows. IsCode contract.now rows.items) }
    ensures unseparated { IfOk result (λ rows. IsTrue (is_unseparated (instructions rows.items))) }
{
    rows_run_behind();
    number_of_written();
    choices_count_few();
    let lowered = lower(alloc, contract)?;
    let codes = codes_of(alloc, lowered.as_slice())?;
    let ctors = ctor_count(contract);
    let code = select(alloc, codes.as_slice(), ctors, contract.span)?;
    let rows = rows_of(code);
    Ok(rows)
}

/// The number of the constructor's parameters.
fn ctor_count(contract: &TypedContract) -> u16
    requires { length contract.now.params ≤ 16 }
    ensures { result ≡ length contract.now.params }
{
    contract.params.len() as u16
}

fn rows_of(code: Marked) -> Vec<Spanned>
    ensures { result ≡ code.code }
{
    let Marked { code, marks: _ } = code;
    code
}

/// The program of code that is within the limits; or why it isn't.
fn sized_program(
    alloc: Global,
    source: &[u8],
    updated: &str,
    contract: &TypedContract,
    rows: Vec<Spanned>,
) -> Result<Program, Refusal>
    requires accepted { IsAccepted source.now contract.now }
    requires fits { Fits source.now contract.now }
    requires code { IsCode contract.now rows.items }
    ensures compiled { IfOk result (λ program. IsCompiled source.now contract.now program) }
    ensures updated { IfOk result (λ program. program.updated ≡ updated.now) }
    ensures refused { IfErr result (λ refusal. refusal ≢ WithoutMemory → IsUncompiled source.now refusal) }
{
    let CodeAndPlaces { code, spans } = split(alloc, rows)?;
    match within_limits(alloc, code) {
        Ok(code) => {
            let program = compiled_program(alloc, source, updated, contract, code, spans)?;
            Ok(program)
        }
        Err(refusal) => Err(refusal),
    }
}

fn compiled_program(
    alloc: Global,
    source: &[u8],
    updated: &str,
    contract: &TypedContract,
    code: Vec<Instr>,
    spans: Vec<SpanRow>,
) -> Result<Program, Memory>
    requires accepted { IsAccepted source.now contract.now }
    requires fits { Fits source.now contract.now }
    requires code { (rows : List Row) × IsCode contract.now rows × (code.items ≡ instructions rows) × (spans.items ≡ map places rows) }
    requires short { code_size code.items ≤ most_bytes }
    requires few { code_count code.items ≤ most_opcodes }
    ensures compiled { IfOk result (λ program. IsCompiled source.now contract.now program) }
    ensures updated { IfOk result (λ program. program.updated ≡ updated.now) }
{
    spend_is_decided();
    written_is_element();
    pushes_count_nothing();
    let program = program_of(alloc, source, updated, contract, code, spans)?;
    Ok(program)
}
