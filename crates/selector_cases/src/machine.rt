//! A run of instructions by the table of the Bitcoin Cash specification: pushes, DUP, DROP, ROLL, NUMEQUAL, NUMEQUALVERIFY, NOP
//! and the opcodes of conditions.

use anyhow::{Result, bail};
use cash_base::{Span, read_number};
use script_codec::{Instr, Spanned};
use std::alloc::Global;

/// The place of the contract.
pub const CONTRACT: Span = Span {
    from: 5000,
    to: 6000,
};

/// How a run ends: with a stack, whose top is the last, or at an instruction.
#[derive(Drop)]
pub enum End {
    Left(Vec<Vec<u8>>),
    Failed { at: usize, cause: &'static str },
}

/// Both stacks of a run: of elements, and of open conditions.
#[derive(Drop)]
struct Run {
    alloc: Global,
    stack: Vec<Vec<u8>>,
    conditions: Vec<bool>,
}

/// What an instruction gives: nothing, or why it fails.
type Step = Option<&'static str>;

impl Run {
    fn is_live(&self) -> bool {
        self.conditions.iter().all(|c| *c)
    }

    fn push(&mut self, bytes: &[u8]) -> Result<()> {
        let element = Vec::from_slice(self.alloc, bytes)?;
        self.stack.push(element)?;
        Ok(())
    }

    fn copy(&mut self) -> Result<Step> {
        let Some(top) = self.stack.pop() else {
            return Ok(Some("Underflow"));
        };
        self.push(top.as_slice())?;
        self.push(top.as_slice())?;
        Ok(None)
    }

    fn roll(&mut self) -> Result<Step> {
        if self.stack.len() < 2 {
            return Ok(Some("Underflow"));
        }
        let Some(index) = self.stack.pop() else {
            return Ok(Some("Underflow"));
        };
        let Some(n) = read_number(index.as_slice()) else {
            return Ok(Some("NotANumber"));
        };
        let height = self.stack.len();
        let Ok(below) = usize::try_from(n) else {
            return Ok(Some("Underflow"));
        };
        if below >= height {
            return Ok(Some("Underflow"));
        }
        let element = self.stack.remove(height - 1 - below);
        self.stack.push(element)?;
        Ok(None)
    }

    fn equal(&mut self) -> Result<Step> {
        if self.stack.len() < 2 {
            return Ok(Some("Underflow"));
        }
        let second = self.stack.pop().unwrap_or(Vec::new(self.alloc));
        let first = self.stack.pop().unwrap_or(Vec::new(self.alloc));
        let Some(a) = read_number(first.as_slice()) else {
            return Ok(Some("NotANumber"));
        };
        let Some(b) = read_number(second.as_slice()) else {
            return Ok(Some("NotANumber"));
        };
        let truth = if a == b { &[1u8][..] } else { &[][..] };
        self.push(truth)?;
        Ok(None)
    }

    fn verify(&mut self) -> Step {
        match self.stack.pop() {
            None => Some("Underflow"),
            Some(e) if e.is_empty() => Some("CheckFailed"),
            Some(_) => None,
        }
    }

    /// An opcode that is executed.
    fn execute(&mut self, opcode: u8) -> Result<Step> {
        match opcode {
            0x61 => Ok(None),
            0x75 => match self.stack.pop() {
                None => Ok(Some("Underflow")),
                Some(_) => Ok(None),
            },
            0x76 => self.copy(),
            0x7a => self.roll(),
            0x9c => self.equal(),
            0x9d => match self.equal()? {
                None => Ok(self.verify()),
                Some(cause) => Ok(Some(cause)),
            },
            _ => bail!("opcode {opcode} stands in the code"),
        }
    }

    /// IF, ELSE or ENDIF, in every branch.
    fn condition(&mut self, opcode: u8) -> Result<Step> {
        match opcode {
            0x63 => {
                let mut is_true = false;
                if self.is_live() {
                    let Some(test) = self.stack.pop() else {
                        return Ok(Some("Unbalanced"));
                    };
                    is_true = !test.is_empty();
                }
                self.conditions.push(is_true)?;
            }
            0x67 => {
                let Some(c) = self.conditions.pop() else {
                    return Ok(Some("Unbalanced"));
                };
                self.conditions.push(!c)?;
            }
            _ => {
                if self.conditions.pop().is_none() {
                    return Ok(Some("Unbalanced"));
                }
            }
        }
        Ok(None)
    }

    fn step(&mut self, instr: &Instr) -> Result<Step> {
        match instr {
            Instr::Push(e) => {
                if self.is_live() {
                    self.push(e.as_slice())?;
                }
                Ok(None)
            }
            Instr::Do(opcode) => match opcode.0 {
                0x63 | 0x67 | 0x68 => self.condition(opcode.0),
                byte => {
                    if self.is_live() {
                        self.execute(byte)
                    } else {
                        Ok(None)
                    }
                }
            },
        }
    }
}

/// The end of the run of these rows on a stack, whose top is the last.
pub fn end_of(alloc: Global, rows: &[Spanned], stack: Vec<Vec<u8>>) -> Result<End> {
    let mut run = Run {
        alloc,
        stack,
        conditions: Vec::new(alloc),
    };
    for (at, row) in rows.iter().enumerate() {
        if let Some(cause) = run.step(&row.instr)? {
            return Ok(End::Failed { at, cause });
        }
    }
    if !run.conditions.is_empty() {
        return Ok(End::Failed {
            at: rows.len(),
            cause: "Unbalanced",
        });
    }
    Ok(End::Left(run.stack))
}
