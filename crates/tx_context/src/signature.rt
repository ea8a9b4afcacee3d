//! Checks of signatures, which are answered by a table of verdicts.

ghost use Rattle.std.specs.Prelude.{◌≡◌, ◌≤◌, nat_lt, [], length, map, reverse};
ghost use Rattle.std.specs.List.{list_any};
ghost use Rattle.tx_context.specs.Verdict.{answer_in, asked_message, are_met, single_verdict, multi_verdict};

use crate::verdict::{Answer, Kind, VerdictRow, Verdicts, speaks};
use cash_base::{Cause, Element};

/// Whether a signature is good for a key.
///
/// `Malformed` comes where the row on it says so. Without a row it is false where the signature is empty, and
/// `NullFail` otherwise. A check of the kind `Single` asks with the empty message. It takes no memory.
/// Source: the Bitcoin Cash specification, OP_CHECKSIG and OP_CHECKDATASIG with the NULLFAIL rule; the table is this
/// project's own.
pub fn check_one(
    v: &Verdicts,
    kind: Kind,
    sig: &[u8],
    key: &[u8],
    message: &[u8],
) -> Result<bool, Cause>
    ensures { result ≡ single_verdict v.now kind sig.now key.now message.now }
{
    let message = message_of(kind, message);
    match answer_of(v.rows(), kind, sig, key, message) {
        Some(Answer::Good) => Ok(true),
        Some(Answer::Malformed) => Err(Cause::Malformed),
        None => {
            if sig.is_empty() {
                Ok(false)
            } else {
                Err(Cause::NullFail)
            }
        }
    }
}

// The message that is asked about.
fn message_of(kind: Kind, message: &[u8]) -> &[u8]
    ensures { result.now ≡ asked_message kind message.now }
{
    match kind {
        Kind::Single => &[],
        Kind::Multi => message,
        Kind::DataSig => message,
    }
}

// What the row says, if there is one.
fn answer_of(
    rows: &[VerdictRow],
    kind: Kind,
    sig: &[u8],
    key: &[u8],
    message: &[u8],
) -> Option<Answer>
    ensures { result ≡ answer_in kind sig.now key.now message.now rows.now }
{
    for row in rows {
        if speaks(row, kind, sig, key, message) {
            return Some(row.answer);
        }
    }
    None
}

/// Whether each of several signatures is good for one of several keys, in the order of both. There are at most 20 keys, and no
/// more signatures than keys.
///
/// It goes from the last signature and the last key. A row that says `Malformed` ends it with `Malformed`. A good row
/// moves to the signature before; the key always moves to the one before. It is false once more signatures than keys
/// are left, and true once no signature is left. Where it would be false and some signature isn't empty it is
/// `NullFail`. It takes no memory.
/// Source: the Bitcoin Cash specification, OP_CHECKMULTISIG with the NULLFAIL rule; the table is this project's own.
pub fn check_many(v: &Verdicts, sigs: &[Element], keys: &[Element]) -> Result<bool, Cause>
    requires keys { length keys.now ≤ 20 }
    requires sigs { length sigs.now ≤ length keys.now }
    ensures { result ≡ multi_verdict v.now (map (λ e. e.items) sigs.now) (map (λ e. e.items) keys.now) }
{
    let met = walk(v.rows(), sigs, keys)?;
    if met {
        return Ok(true);
    }
    if has_signature(sigs) {
        return Err(Cause::NullFail);
    }
    Ok(false)
}

// Whether a signature isn't empty.
fn has_signature(sigs: &[Element]) -> bool
    ensures { result ≡ list_any (λ sig. nat_lt 0 (length sig)) (map (λ e. e.items) sigs.now) }
{
    for sig in sigs {
        if !sig.is_empty() {
            return true;
        }
    }
    false
}

// Whether the signatures are met by the keys, from the last of both.
#[tactic(auto, using(crate::proofs::Turned::turned, crate::proofs::Turned::length_turned))]
fn walk(rows: &[VerdictRow], sigs: &[Element], keys: &[Element]) -> Result<bool, Cause>
    ensures { result ≡ are_met rows.now
        (reverse (map (λ e. e.items) sigs.now)) (reverse (map (λ e. e.items) keys.now)) }
{
    let Some((sig, earlier_sigs)) = sigs.split_last() else {
        return Ok(true);
    };
    let Some((key, earlier_keys)) = keys.split_last() else {
        return Ok(false);
    };
    if sigs.len() > keys.len() {
        return Ok(false);
    }
    match answer_of(rows, Kind::Multi, sig, key, &[]) {
        Some(Answer::Good) => walk(rows, earlier_sigs, earlier_keys),
        Some(Answer::Malformed) => Err(Cause::Malformed),
        None => walk(rows, sigs, earlier_keys),
    }
}
