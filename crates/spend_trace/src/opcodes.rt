//! The opcode and the place of an instruction.

ghost use Rattle.std.specs.Prelude.{◌≡◌, ◌<◌, ◌^◌, length, option_map};
ghost use Rattle.spend_trace.specs.Traced;

use bch_vm::Which;
use cash_base::Span;
use script_codec::next_instr;
use span_map::SpanRow;

/// The opcode of the instruction of this index, counted from 0, or 0 where the script has none of it.
#[tactic(auto, using(crate::proofs::Sought::cut_off))]
pub fn opcode_at(script: &[u8], at: u32) -> u8
    requires { length script.now < 2 ^ 31 }
    ensures { result ≡ Traced.opcode_at script.now at }
{
    let mut place = 0;
    let mut left = at;
    'left: loop {
        match next_instr(script, place) {
            Ok(Some((instr, next))) => {
                if left == 0 {
                    return instr.opcode;
                }
                place = next;
                left -= 1;
            }
            Ok(None) => return 0,
            Err(_) => return 0,
        }
    }
}

/// The doing place of an instruction of a script, after so many pushes of the constructor, where the rows are known.
pub fn doing_place(
    spans: &Option<Vec<SpanRow>>,
    before: usize,
    script: Which,
    at: u32,
) -> Option<Span>
    ensures { result ≡ Traced.doing_place (option_map (λ rows. rows.items) spans.now) before script at }
{
    let Some(rows) = spans else {
        return None;
    };
    match script {
        Which::Redeem => {
            let at = at as usize;
            if at < before {
                return None;
            }
            let row = rows.as_slice().get(at - before)?;
            Some(row.doing)
        }
        _ => None,
    }
}
