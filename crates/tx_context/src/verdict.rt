//! Verdicts on signatures, which are handed in as a table.

ghost use Rattle.std.specs.Prelude.{◌≡◌, ◌≤◌, ◌<◌, ◌^◌, [], length, IfOk, IfErr, OnOk, IsTrue, Ok, Err, vec_len};
ghost use Rattle.std.specs.List.{list_all};
ghost use Rattle.tx_context.specs.Table.{checked_table, rows_check, speaks_of, has_needless_message, is_empty_and_good, has_bytes, is_same_kind as same_kind, IsTableFault, IsRowsFault, AreVerdicts};

use crate::laws::are_below_256;
use std::alloc::Global;
use std::collections::BTreeSet;
use std::marker::Model;
use thiserror::Error;

/// A table has at most so many rows.
pub const MOST_ROWS: usize = 4096;

/// Which check a verdict is on.
#[derive(Clone, Copy, Debug, PartialEq, Eq, PartialOrd, Ord)]
pub enum Kind {
    /// A signature of the transaction, checked against one key.
    Single,
    /// A signature of the transaction, checked against a key of a multisignature check.
    Multi,
    /// A signature of a message.
    DataSig,
}

/// What a verdict says of a signature, a key and a message.
#[derive(Clone, Copy, Debug, PartialEq, Eq)]
pub enum Answer {
    /// The signature is good.
    Good,
    /// The signature or the key isn't well formed.
    Malformed,
}

/// A verdict on a signature.
#[derive(Debug, Drop)]
pub struct VerdictRow {
    /// Which check it is on.
    pub kind: Kind,
    /// The signature.
    pub sig: Vec<u8>,
    /// The public key.
    pub key: Vec<u8>,
    /// The signed message, which is empty but for `DataSig`.
    pub message: Vec<u8>,
    /// What it says.
    pub answer: Answer,
}

impl Model for VerdictRow {
    ghost use Rattle.tx_context.specs.Table.{Row, row_parts};

    ghost Value = { Row };

    ghost view = { λ r. row_parts r.kind r.sig.items r.key.items r.message.items r.answer };
}

/// What a row speaks of: no two rows of a table speak of the same.
#[derive(Clone, Copy, PartialEq, Eq, PartialOrd, Ord)]
struct Subject<'a> {
    kind: Kind,
    sig: &'a [u8],
    key: &'a [u8],
    message: &'a [u8],
}

/// Why rows make no table. A row is counted from 0, and the first that offends is named.
#[derive(Clone, Copy, Debug, PartialEq, Eq, Error)]
pub enum TableFault {
    /// There are so many rows, above 4,096.
    #[error("there are {rows} rows, and at most 4096 are allowed")]
    TooMany {
        /// How many there are.
        rows: u32,
    },
    /// A message that isn't empty, in a row that is on no `DataSig`.
    #[error("row {row} has a message, and is on no signature of a message")]
    MessageGiven {
        /// The row.
        row: u32,
    },
    /// An empty signature that is answered `Good`.
    #[error("row {row} says that an empty signature is good")]
    EmptySignatureGood {
        /// The row.
        row: u32,
    },
    /// An earlier row has the same kind, signature, key and message.
    #[error("row {row} has the kind, signature, key and message of an earlier row")]
    Repeated {
        /// The row.
        row: u32,
    },
    /// Memory ran out. It is the only fault that no contract ties to the rows.
    #[error("memory ran out")]
    Memory,
}

/// A table of at most 4,096 verdicts, of which no two are on the same kind, signature, key and message.
#[derive(Debug, Drop)]
pub struct Verdicts {
    rows: Vec<VerdictRow>,
}

impl Model for Verdicts {
    ghost use Rattle.std.specs.Prelude.{List};
    ghost use Rattle.tx_context.specs.Table.{Row, AreVerdicts};

    ghost Value = { List Row };

    ghost view = { λ v. v.rows.items };

    ghost invariant = { λ v. AreVerdicts v.rows.items };
}

impl Verdicts {
    /// The table of these rows; `TooMany` where there are more than 4,096, and else the fault of the first row that has one. A
    /// fault drops the rows.
    ///
    /// At one row `MessageGiven` stands before `EmptySignatureGood`, and that before `Repeated`. What the rows speak of
    /// is kept in order while they are read, so that a repeated one is found at once: `Memory` comes where there is no
    /// memory for that.
    pub fn from_rows(alloc: Global, rows: Vec<VerdictRow>) -> Result<Verdicts, TableFault>
        requires { vec_len rows < 2 ^ 32 }
        ensures ok { IfOk result (λ table. checked_table rows.items ≡ Ok table) }
        ensures fault { IfErr result (IsTableFault rows.items) }
    {
        if rows.len() > MOST_ROWS {
            return Err(TableFault::TooMany {
                rows: rows.len() as u32,
            });
        }
        check_rows(alloc, &rows)?;
        Ok(Verdicts { rows })
    }

    /// The rows.
    pub fn rows(&self) -> &[VerdictRow]
        ensures value { result.now ≡ self.now }
        ensures verdicts { AreVerdicts self.now }
    {
        self.rows.as_slice()
    }
}

// The tests of each row in turn.
fn check_rows(alloc: Global, rows: &[VerdictRow]) -> Result<(), TableFault>
    requires { length rows.now ≤ MOST_ROWS }
    ensures ok { OnOk result (rows_check [] rows.now ≡ Ok tt) }
    ensures bytes { OnOk result (IsTrue (list_all has_bytes rows.now)) }
    ensures fault { IfErr result (IsRowsFault rows.now) }
{
    let mut seen = BTreeSet::new(alloc);
    for (i, row) in rows.iter().enumerate() {
        let index = i as u32;
        let subject = subject_of(row);
        if is_needless_message(row) {
            return Err(TableFault::MessageGiven { row: index });
        }
        if is_empty_good(row) {
            return Err(TableFault::EmptySignatureGood { row: index });
        }
        let Ok(is_new) = seen.insert(subject) else {
            return Err(TableFault::Memory);
        };
        if !is_new {
            return Err(TableFault::Repeated { row: index });
        }
    }
    Ok(())
}

// What the row speaks of.
fn subject_of(row: &VerdictRow) -> Subject<'_>
    ensures kind { result.kind ≡ row.now.kind }
    ensures sig { result.sig.now ≡ row.now.sig }
    ensures key { result.key.now ≡ row.now.key }
    ensures message { result.message.now ≡ row.now.message }
    ensures bytes { IsTrue (has_bytes row.now) }
{
    // laws
    are_below_256(&row.sig);
    are_below_256(&row.key);
    are_below_256(&row.message);

    Subject {
        kind: row.kind,
        sig: &row.sig,
        key: &row.key,
        message: &row.message,
    }
}

// Whether there is a message where the kind has none.
fn is_needless_message(row: &VerdictRow) -> bool
    ensures { result ≡ has_needless_message row.now }
{
    !is_same_kind(row.kind, Kind::DataSig) && !row.message.is_empty()
}

// Whether an empty signature is answered to be good.
fn is_empty_good(row: &VerdictRow) -> bool
    ensures { result ≡ is_empty_and_good row.now }
{
    row.sig.is_empty() && matches!(row.answer, Answer::Good)
}

// Whether the row speaks of this kind, signature, key and message.
pub(crate) fn speaks(row: &VerdictRow, kind: Kind, sig: &[u8], key: &[u8], message: &[u8]) -> bool
    ensures { result ≡ speaks_of kind sig.now key.now message.now row.now }
{
    is_same_kind(row.kind, kind)
        && row.sig.as_slice() == sig
        && row.key.as_slice() == key
        && row.message.as_slice() == message
}

fn is_same_kind(a: Kind, b: Kind) -> bool
    ensures { result ≡ same_kind a b }
{
    match a {
        Kind::Single => matches!(b, Kind::Single),
        Kind::Multi => matches!(b, Kind::Multi),
        Kind::DataSig => matches!(b, Kind::DataSig),
    }
}
