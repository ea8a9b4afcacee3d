//! Sizes of code.

ghost use Rattle.std.specs.Prelude.{◌≡◌, ◌≤◌, ℕ, List, length, IfOk, IsTrue};
ghost use Rattle.script_codec.specs.Spelling.{are_instructions};
ghost use Rattle.row_runs.specs.Rows.{instructions};
ghost use Rattle.source_stages.specs.Stages.{max_source_len};
ghost use Rattle.typed_sources.specs.Fits.{Fits};

use anyhow::{Result, bail, ensure};
use cash_compile::compile::{Compiled, compile, untidied_code};
use cash_tree::TypedContract;
use script_codec::{Instr, Spanned, counted, encode};
use std::alloc::Global;
use typed_sources::accepted_contracts_fit;

/// The bytes of code, and the opcodes that count in it.
#[derive(Clone, Copy)]
pub struct Size {
    pub bytes: usize,
    pub opcodes: u32,
}

/// The sizes of a contract's code before the rewrite rules, and of the code that is compiled.
#[derive(Clone, Copy)]
pub struct Sizes {
    pub before: Size,
    pub after: Size,
}

fn size_of(alloc: Global, code: &[Instr]) -> Result<Size>
    requires { IsTrue (are_instructions code.now) }
{
    let Ok(script) = encode(alloc, code) else {
        bail!("out of memory");
    };
    ensure!(script.len() <= 10000, "the code is too long to be counted");
    Ok(Size {
        bytes: script.len(),
        opcodes: counted(script.as_slice()),
    })
}

/// The instructions of rows.
fn code_of(alloc: Global, rows: Vec<Spanned>) -> Result<Vec<Instr>>
    ensures { IfOk result (λ code. code.items ≡ instructions rows.items) }
{
    let mut code = Vec::new(alloc);
    for row in rows {
        let Spanned {
            instr,
            doing: _,
            checking: _,
        } = row;
        code.push(instr)?;
    }
    Ok(code)
}

/// The size of a contract's code before the rewrite rules.
fn untidied_size(alloc: Global, contract: &TypedContract) -> Result<Size>
    requires { (source : List ℕ) × Fits source contract.now }
{
    let Ok(rows) = untidied_code(alloc, contract) else {
        bail!("out of memory");
    };
    let code = code_of(alloc, rows)?;
    size_of(alloc, code.as_slice())
}

/// Both sizes of the code of a source.
pub fn sizes_of(alloc: Global, source: &str) -> Result<Sizes>
    requires { length source.now ≤ max_source_len }
{
    accepted_contracts_fit();
    let Ok(compiled) = compile(alloc, source.as_bytes(), "") else {
        bail!("the source isn't compiled");
    };
    let Compiled { program, contract } = compiled;
    let before = untidied_size(alloc, &contract)?;
    let after = size_of(alloc, program.code.as_slice())?;
    Ok(Sizes { before, after })
}
