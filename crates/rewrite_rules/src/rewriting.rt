//! What a rewrite rule is.

ghost use Rattle.std.specs.Prelude.{◌≡◌, ℕ, ◌<◌, length, map, slice_index_or, option_to_list, IfSome, None, IsTrue, ◌↔◌};
ghost use Rattle.std.specs.List.{All};
ghost use Rattle.script_codec.specs.declared.instr.Instr.TheVariants.{Do};
ghost use Rattle.rewrite_rules.specs.Rows.{row};
ghost use Rattle.rewrite_rules.specs.Rules.{Rule, rule, Matches, Rewrites};
ghost use Rattle.rewrite_rules.specs.Law.{Holds, RunsAlike};
ghost use Rattle.rewrite_rules.specs.Fitting;
ghost use Rattle.rewrite_rules.specs.Fitting.{instr_of};

use cash_base::Span;
use script_codec::{Instr, Opcode, Spanned};

/// What stands in place of a window: an instruction, or nothing.
#[derive(Drop)]
pub struct Replacement {
    pub code: Option<Spanned>,
}

/// A rule, with the law that its replacement does what its window does.
///
/// A window is code of `WIDTH` instructions of one statement, none of them IF, NOTIF, ELSE or ENDIF. In every world and on every
/// stack of at least `LEAST` elements window and replacement leave the same stack, or fail with the same cause at the same place;
/// on a lower one the window fails with Underflow.
pub trait Rewrite {
    const WIDTH: usize;

    const LEAST: usize;

    ghost WIDTH: { ℕ };

    ghost LEAST: { ℕ };

    ghost rule: { Self → Rule };

    /// What stands in place of a window; None where the rule doesn't match it.
    fn rewrite(&self, window: &[Spanned]) -> Option<Replacement>
        ensures found { IfSome result (λ r. Rewrites (rule self.now) window.now (option_to_list r.code)) }
        ensures none { result ≡ None → Matches (rule self.now) window.now → ⊥ };

    ghost law: { (r : Self) → Holds WIDTH LEAST (rule r) };
}

/// What a rule puts in place of a window, with its law as a clause.
pub fn replacement_by<R: Rewrite>(rule: &R, window: &[Spanned]) -> Option<Replacement>
    ensures alike { IfSome result (λ r. RunsAlike R.LEAST window.now (option_to_list r.code)) }
    ensures found { IfSome result (λ r. Rewrites (R.rule rule.now) window.now (option_to_list r.code)) }
    ensures none { result ≡ None → Matches (R.rule rule.now) window.now → ⊥ }
{
    rule.rewrite(window)
}

/// An instruction of a window: the push of 0, 1 or 2, or an opcode.
#[derive(Clone, Copy, Debug, PartialEq, Eq)]
pub enum Pattern {
    Zero,
    One,
    Two,
    Does(Opcode),
}

/// The rewriting by a row of the table.
pub(crate) fn rewritten(
    window: &[Spanned],
    before: &[Pattern],
    after: Option<Opcode>,
    place: usize,
) -> Option<Replacement>
    requires placed { place < length before.now }
    ensures found { IfSome result (λ r.
        Rewrites (rule (map instr_of before.now) (map (λ o. Do o) (option_to_list after)) place) window.now (option_to_list r.code)) }
    ensures none { result ≡ None → Matches (rule (map instr_of before.now) (map (λ o. Do o) (option_to_list after)) place) window.now → ⊥ }
{
    if !has_instrs(window, before) {
        return None;
    }
    let doing = doing_at(window, place);
    let checking = checking_at(window, place);
    if !is_one_statement(window, checking) {
        return None;
    }
    Some(Replacement {
        code: placed(after, doing, checking),
    })
}

#[tactic(auto, using(crate::proofs::Patterns::all_fit_exactly))]
fn has_instrs(window: &[Spanned], before: &[Pattern]) -> bool
    ensures { IsTrue result ↔ map (λ r. r.instr) window.now ≡ map instr_of before.now }
{
    all_fit(window, before)
}

fn all_fit(window: &[Spanned], before: &[Pattern]) -> bool
    ensures { result ≡ Fitting.all_fit window.now before.now }
{
    match window {
        [] => before.is_empty(),
        [row, rows @ ..] => match before {
            [] => false,
            [pattern, patterns @ ..] => fits(*pattern, &row.instr) && all_fit(rows, patterns),
        },
    }
}

fn fits(pattern: Pattern, instr: &Instr) -> bool
    ensures { result ≡ Fitting.fits pattern instr.now }
{
    match instr {
        Instr::Push(e) => pushes(pattern, e.as_slice()),
        Instr::Do(opcode) => does(pattern, *opcode),
    }
}

fn pushes(pattern: Pattern, bytes: &[u8]) -> bool
    ensures { result ≡ Fitting.pushes pattern bytes.now }
{
    match pattern {
        Pattern::Zero => bytes.is_empty(),
        Pattern::One => bytes == [1].as_slice(),
        Pattern::Two => bytes == [2].as_slice(),
        Pattern::Does(_) => false,
    }
}

fn does(pattern: Pattern, opcode: Opcode) -> bool
    ensures { result ≡ Fitting.does pattern opcode.0 }
{
    match pattern {
        Pattern::Does(other) => opcode.0 == other.0,
        _ => false,
    }
}

fn doing_at(window: &[Spanned], place: usize) -> Span
    requires { place < length window.now }
    ensures { (x : _) → result ≡ (slice_index_or window.now place x).doing }
{
    window[place].doing
}

fn checking_at(window: &[Spanned], place: usize) -> Span
    requires { place < length window.now }
    ensures { (x : _) → result ≡ (slice_index_or window.now place x).checking }
{
    window[place].checking
}

fn is_one_statement(window: &[Spanned], checking: Span) -> bool
    ensures { IsTrue result ↔ All (λ r. r.checking ≡ checking) window.now }
{
    window.iter().all(|row| row.checking == checking)
}

fn placed(opcode: Option<Opcode>, doing: Span, checking: Span) -> Option<Spanned>
    ensures { option_to_list result ≡ map (λ o. row checking (Do o) doing) (option_to_list opcode) }
{
    let opcode = opcode?;
    Some(Spanned {
        instr: Instr::Do(opcode),
        doing,
        checking,
    })
}
