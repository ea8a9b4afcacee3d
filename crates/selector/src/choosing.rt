//! The instructions that choose.

ghost use Rattle.std.specs.Prelude.{◌≡◌, ◌+◌, ◌<◌, ◌≤◌, ◌∷◌, [], ◌++◌, length, map, OnOk, pos};
ghost use Rattle.selector.specs.Pieces.{code_of, marks_of, mark_behind};
ghost use Rattle.selector.specs.Choice;
ghost use Rattle.selector.specs.Choice.{own, raising, choice};

use crate::code::{copied_mark, copied_row};
use cash_base::{Memory, Span, write_number};
use script_codec::{Instr, Mark, Marked, Opcode, Spanned};

/// Takes the top away.
const DROP: Opcode = Opcode(0x75);

/// Copies the top.
const DUP: Opcode = Opcode(0x76);

/// Takes a number, and moves the element that lies so deep to the top.
const ROLL: Opcode = Opcode(0x7a);

/// Takes two numbers, which must be equal.
const NUMEQUALVERIFY: Opcode = Opcode(0x9d);

/// Takes a truth, and opens a branch that is executed where it is true.
const IF: Opcode = Opcode(0x63);

/// Begins the other branch.
const ELSE: Opcode = Opcode(0x67);

/// Closes both branches.
const ENDIF: Opcode = Opcode(0x68);

/// The code and the marks so far, and the contract's place.
#[derive(Drop)]
pub(crate) struct Chooser {
    pub(crate) code: Vec<Spanned>,
    pub(crate) marks: Vec<Mark>,
    pub(crate) contract: Span,
}

impl Chooser {
    /// Adds an instruction of the selector.
    fn put(&mut self, instr: Instr) -> Result<(), Memory>
        ensures code { OnOk result (self.new.code.items ≡ self.old.code.items ++ own self.old.contract instr ∷ []) }
        ensures marks { self.new.marks ≡ self.old.marks }
        ensures contract { self.new.contract ≡ self.old.contract }
    {
        let contract = self.contract;
        self.code.push(Spanned {
            instr,
            doing: contract,
            checking: contract,
        })?;
        Ok(())
    }

    /// Adds the push of a number.
    fn put_number(&mut self, n: usize) -> Result<(), Memory>
        requires { n ≤ 100000 }
        ensures code { OnOk result
            (self.new.code.items ≡ self.old.code.items ++ own self.old.contract (Choice.number n) ∷ []) }
        ensures marks { self.new.marks ≡ self.old.marks }
        ensures contract { self.new.contract ≡ self.old.contract }
    {
        let element = write_number(n as i64);
        self.put(Instr::Push(element))?;
        Ok(())
    }

    /// Brings the selector to the top from below so many elements.
    pub(crate) fn raise(&mut self, below: u16) -> Result<(), Memory>
        ensures code { OnOk result (self.new.code.items ≡ self.old.code.items ++ raising self.old.contract below) }
        ensures marks { self.new.marks ≡ self.old.marks }
        ensures contract { self.new.contract ≡ self.old.contract }
    {
        if below > 0 {
            self.put_number(usize::from(below))?;
            self.put(Instr::Do(ROLL))?;
        }
        Ok(())
    }

    /// Compares the selector with a number, and keeps it.
    fn compare(&mut self, n: usize) -> Result<(), Memory>
        requires { n ≤ 65535 }
        ensures code { OnOk result (self.new.code.items ≡ self.old.code.items ++ Choice.comparing self.old.contract n) }
        ensures marks { self.new.marks ≡ self.old.marks }
        ensures contract { self.new.contract ≡ self.old.contract }
    {
        self.put(Instr::Do(DUP))?;
        self.put_number(n)?;
        self.put(Instr::Do(Opcode::NUMEQUAL))?;
        Ok(())
    }

    /// Begins the branch that is executed where the selector is a number.
    fn open(&mut self, n: usize) -> Result<(), Memory>
        requires { n ≤ 65535 }
        ensures code { OnOk result (self.new.code.items ≡ self.old.code.items ++ Choice.opening self.old.contract n) }
        ensures marks { self.new.marks ≡ self.old.marks }
        ensures contract { self.new.contract ≡ self.old.contract }
    {
        self.compare(n)?;
        self.put(Instr::Do(IF))?;
        self.put(Instr::Do(DROP))?;
        Ok(())
    }

    /// Fails where the selector isn't the last number.
    fn close(&mut self, n: usize) -> Result<(), Memory>
        requires { n ≤ 65535 }
        ensures code { OnOk result (self.new.code.items ≡ self.old.code.items ++ Choice.closing self.old.contract n) }
        ensures marks { self.new.marks ≡ self.old.marks }
        ensures contract { self.new.contract ≡ self.old.contract }
    {
        self.put_number(n)?;
        self.put(Instr::Do(NUMEQUALVERIFY))?;
        Ok(())
    }

    /// Adds the marks of code that comes next.
    fn put_marks(&mut self, marks: &[Mark]) -> Result<(), Memory>
        ensures code { self.new.code ≡ self.old.code }
        ensures marks { OnOk result (self.new.marks.items
            ≡ self.old.marks.items ++ map (mark_behind (length self.old.code.items)) marks.now) }
        ensures contract { self.new.contract ≡ self.old.contract }
    {
        let before = self.code.len();
        for mark in marks {
            let moved = copied_mark(mark, before)?;
            self.marks.push(moved)?;
        }
        Ok(())
    }

    /// Adds rows that equal these.
    fn put_rows(&mut self, rows: &[Spanned]) -> Result<(), Memory>
        ensures code { OnOk result (self.new.code.items ≡ self.old.code.items ++ rows.now) }
        ensures marks { self.new.marks ≡ self.old.marks }
        ensures contract { self.new.contract ≡ self.old.contract }
    {
        for row in rows {
            self.code.push(copied_row(row))?;
        }
        Ok(())
    }

    /// Adds the code of a function, and its marks at the same instructions.
    pub(crate) fn put_function(&mut self, function: &Marked) -> Result<(), Memory>
        ensures code { OnOk result (self.new.code.items ≡ self.old.code.items ++ function.now.code.items) }
        ensures marks { OnOk result (self.new.marks.items
            ≡ self.old.marks.items ++ map (mark_behind (length self.old.code.items)) function.now.marks.items) }
        ensures contract { self.new.contract ≡ self.old.contract }
    {
        self.put_marks(function.marks.as_slice())?;
        self.put_rows(function.code.as_slice())?;
        Ok(())
    }

    /// Adds the code of the functions that are run for the numbers from this one on.
    pub(crate) fn choose(&mut self, functions: &[Marked], n: usize) -> Result<(), Memory>
        requires { n + length functions.now ≤ 65535 }
        ensures code { OnOk result (self.new.code.items
            ≡ self.old.code.items ++ code_of (choice self.old.contract n functions.now)) }
        ensures marks { OnOk result (self.new.marks.items
            ≡ self.old.marks.items ++ marks_of (length self.old.code.items) (choice self.old.contract n functions.now)) }
        ensures contract { self.new.contract ≡ self.old.contract }
    {
        let Some((function, others)) = functions.split_first() else {
            return Ok(());
        };
        if others.is_empty() {
            self.close(n)?;
            self.put_function(function)?;
            return Ok(());
        }
        self.open(n)?;
        self.put_function(function)?;
        self.put(Instr::Do(ELSE))?;
        self.choose(others, n + 1)?;
        self.put(Instr::Do(ENDIF))?;
        Ok(())
    }

    /// The code and its marks.
    pub(crate) fn marked(self) -> Marked
        ensures code { result.code ≡ self.code }
        ensures marks { result.marks ≡ self.marks }
    {
        let Chooser {
            code,
            marks,
            contract: _,
        } = self;
        Marked { code, marks }
    }
}
