//! Rewriting until no rule matches.

ghost use Rattle.std.specs.Prelude.{◌≡◌, ◌++◌, ◌+◌, reverse, length, option_to_list, None, IfOk, IfSome, OnOk};
ghost use Rattle.rewrite_rules.specs.Rules.{copy_rules, move_rules, swap_rules, fusing_rules, all_rules};
ghost use Rattle.peephole.specs.Tidy;
ghost use Rattle.peephole.specs.Tidy.{ends, EachRule, EndsFreeOf, Replaces, IsTidy};

use cash_base::Memory;
use rewrite_rules::rules::{
    ByOne, COMMUTING, CheckDataSigVerify, CheckMultiSigVerify, CheckSigVerify, DropTwice, DupDrop,
    DupSwap, EqualVerify, NumEqualNot, NumEqualVerify, OneThen, OverDrop, OverTwice, PickSecond,
    PickTop, RollSecond, RollThird, RollTop, RotThreeTimes, SecondHash, Sha256Then, SwapDrop,
    SwapOver, SwapThen, SwapTwice,
};
use rewrite_rules::{Replacement, Rewrite};
use script_codec::{Instr, Spanned};
use std::alloc::Global;

/// What stands in place of the code from `start` on.
#[derive(Drop)]
struct Found {
    start: usize,
    replacement: Replacement,
}

/// The rows with the rules applied until none matches.
pub(crate) fn tidied(alloc: Global, mut code: Vec<Spanned>) -> Result<Vec<Spanned>, Memory>
    ensures { IfOk result (λ tidied. IsTidy code.items tidied.items) }
{
    code.reverse();
    let mut left = code;
    let mut done = Vec::new(alloc);
    'rows: while let Some(row) = left.pop() {
        done.push(row)?;
        let last = is_last(left.as_slice());
        let Some(found) = any_found(done.as_slice(), last) else {
            continue;
        };
        done.truncate(found.start);
        put_back(&mut left, found.replacement)?;
    }
    Ok(done)
}

/// Whether IF, NOTIF, ELSE, ENDIF or the end is next. The next row stands last.
fn is_last(left: &[Spanned]) -> bool
    ensures { result ≡ ends (reverse left.now) }
{
    match left.last() {
        None => true,
        Some(row) => is_branch(&row.instr),
    }
}

fn is_branch(instr: &Instr) -> bool
    ensures { result ≡ Tidy.is_branch instr.now }
{
    match instr {
        Instr::Push(_) => false,
        Instr::Do(opcode) => 0x63 <= opcode.0
            && opcode.0 <= 0x68
            && !(opcode.0 == 0x65 || opcode.0 == 0x66),
    }
}

/// Puts a replacement before what is left.
fn put_back(left: &mut Vec<Spanned>, replacement: Replacement) -> Result<(), Memory>
    ensures { OnOk result (left.new.items ≡ left.old.items ++ option_to_list replacement.code) }
{
    if let Some(row) = replacement.code {
        left.push(row)?;
    }
    Ok(())
}

/// What a rule finds at the end of the code.
fn found_by<R: Rewrite>(rule: &R, code: &[Spanned], last: bool) -> Option<Found>
    ensures found { IfSome result (λ f. Replaces code.now last f.start (option_to_list f.replacement.code)) }
    ensures none { result ≡ None → EndsFreeOf code.now last (R.rule rule.now) }
{
    if code.len() < R::WIDTH {
        return None;
    }
    let start = code.len() - R::WIDTH;
    let replacement = rule.rewrite(&code[start..])?;
    if last && replacement.code.is_none() {
        return None;
    }
    Some(Found { start, replacement })
}

/// What the first rule finds that copies or moves an element by its depth, or moves it back to its place.
fn any_copied(code: &[Spanned], last: bool) -> Option<Found>
    ensures found { IfSome result (λ f. Replaces code.now last f.start (option_to_list f.replacement.code)) }
    ensures none { result ≡ None → EachRule (EndsFreeOf code.now last) copy_rules }
{
    let answer = found_by(&PickTop, code, last);
    if answer.is_some() {
        return answer;
    }
    let answer = found_by(&PickSecond, code, last);
    if answer.is_some() {
        return answer;
    }
    let answer = found_by(&RollTop, code, last);
    if answer.is_some() {
        return answer;
    }
    let answer = found_by(&RollSecond, code, last);
    if answer.is_some() {
        return answer;
    }
    let answer = found_by(&RollThird, code, last);
    if answer.is_some() {
        return answer;
    }
    let answer = found_by(&SwapTwice, code, last);
    if answer.is_some() {
        return answer;
    }
    let answer = found_by(&RotThreeTimes, code, last);
    if answer.is_some() {
        return answer;
    }
    None
}

/// What the first rule finds that makes one move of two.
fn any_moved(code: &[Spanned], last: bool) -> Option<Found>
    ensures found { IfSome result (λ f. Replaces code.now last f.start (option_to_list f.replacement.code)) }
    ensures none { result ≡ None → EachRule (EndsFreeOf code.now last) move_rules }
{
    let answer = found_by(&DupSwap, code, last);
    if answer.is_some() {
        return answer;
    }
    let answer = found_by(&DupDrop, code, last);
    if answer.is_some() {
        return answer;
    }
    let answer = found_by(&OverDrop, code, last);
    if answer.is_some() {
        return answer;
    }
    let answer = found_by(&SwapDrop, code, last);
    if answer.is_some() {
        return answer;
    }
    let answer = found_by(&SwapOver, code, last);
    if answer.is_some() {
        return answer;
    }
    let answer = found_by(&DropTwice, code, last);
    if answer.is_some() {
        return answer;
    }
    let answer = found_by(&OverTwice, code, last);
    if answer.is_some() {
        return answer;
    }
    None
}

/// What the rule of a swap finds, at the first operation that it fits.
fn any_swap(code: &[Spanned], last: bool) -> Option<Found>
    ensures found { IfSome result (λ f. Replaces code.now last f.start (option_to_list f.replacement.code)) }
    ensures none { result ≡ None → EachRule (EndsFreeOf code.now last) swap_rules }
{
    for op in COMMUTING.iter() {
        let answer = found_by(&SwapThen { op: *op }, code, last);
        if answer.is_some() {
            return answer;
        }
    }
    None
}

/// What the first rule finds that makes one operation of two.
fn any_fused(code: &[Spanned], last: bool) -> Option<Found>
    ensures found { IfSome result (λ f. Replaces code.now last f.start (option_to_list f.replacement.code)) }
    ensures none { result ≡ None → EachRule (EndsFreeOf code.now last) fusing_rules }
{
    let answer = found_by(&EqualVerify, code, last);
    if answer.is_some() {
        return answer;
    }
    let answer = found_by(&NumEqualVerify, code, last);
    if answer.is_some() {
        return answer;
    }
    let answer = found_by(&CheckSigVerify, code, last);
    if answer.is_some() {
        return answer;
    }
    let answer = found_by(&CheckDataSigVerify, code, last);
    if answer.is_some() {
        return answer;
    }
    let answer = found_by(&CheckMultiSigVerify, code, last);
    if answer.is_some() {
        return answer;
    }
    let answer = found_by(&NumEqualNot, code, last);
    if answer.is_some() {
        return answer;
    }
    let answer = found_by(&OneThen { op: ByOne::Add }, code, last);
    if answer.is_some() {
        return answer;
    }
    let answer = found_by(&OneThen { op: ByOne::Sub }, code, last);
    if answer.is_some() {
        return answer;
    }
    let answer = found_by(
        &Sha256Then {
            op: SecondHash::Ripemd160,
        },
        code,
        last,
    );
    if answer.is_some() {
        return answer;
    }
    let answer = found_by(
        &Sha256Then {
            op: SecondHash::Sha256,
        },
        code,
        last,
    );
    if answer.is_some() {
        return answer;
    }
    None
}

/// What the first rule of the table finds that matches the end of the code.
#[tactic(auto, using(crate::proofs::Ends::each_rule))]
fn any_found(code: &[Spanned], last: bool) -> Option<Found>
    ensures found { IfSome result (λ f. Replaces code.now last f.start (option_to_list f.replacement.code)) }
    ensures none { result ≡ None → EachRule (EndsFreeOf code.now last) all_rules }
{
    let answer = any_copied(code, last);
    if answer.is_some() {
        return answer;
    }
    let answer = any_moved(code, last);
    if answer.is_some() {
        return answer;
    }
    let answer = any_swap(code, last);
    if answer.is_some() {
        return answer;
    }
    any_fused(code, last)
}
