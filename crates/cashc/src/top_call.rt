//! The program's top call.

ghost use Rattle.std.specs.Prelude.{◌≡◌, ◌≢◌, ◌⊎◌, ◌≤◌, ◌-◌, ℕ, List, Some, None, [], option_map, IfSome};
ghost use Rattle.cash_base.specs.Outside.{Grew};
ghost use Rattle.source_texts.specs.RefusalText.{out_of_memory};
ghost use Rattle.cashc.specs.TopCall;
ghost use Rattle.cashc.specs.TopCall.{read_failed, IsShown, IsTold, HasReadCause, Stopped, Tried};
ghost use Rattle.cashc.specs.Complete.{CanAnswer, IsQuiet};
ghost use Rattle.cashc.specs.Answering.{seen, IsSmall};

use crate::commands::{Command, answer};
use cash_base::{Sink, Store};
use cash_compile::laws::small_contracts_fit;
use command_files::{Output, Stop};
use source_commands::NO_TIME;
use std::alloc::Global;

const USAGE: &str =
    "usage: cashc compile FILE [--updated-at TEXT] | debug SOURCE SPEND | trace SOURCE SPEND | spend ARTIFACT SPEND | meaning SOURCE SPEND | workload NUMBER\n";

/// A time of compilation has at most so many bytes.
const LONGEST_TIME: usize = 64;

const READ_FAILED: &str = "read failed\n";

const OUT_OF_MEMORY: &str = "out of memory\n";

/// Does what the words say, and answers the program's status.
///
/// `compile FILE` reads a source and writes the artifact of its program, compiled at 1970-01-01T00:00:00.000Z, or at TEXT where
/// `--updated-at TEXT` follows. `debug SOURCE SPEND` reads a source and a spend file, and writes the lines `redeem HEX`, `unlocking
/// HEX` and `locking HEX`, and then `accepted`, or `refused LINE:COL CAUSE opcode N`: the place in the source, or the script where
/// there is none, the cause, and the index of the instruction in its script. `trace SOURCE SPEND` writes before this verdict a line
/// for each instruction that is executed. `spend ARTIFACT SPEND` reads an artifact in place of a source. `meaning SOURCE SPEND` writes
/// in the place of the verdict how the run of the source ends: `met`, or `failed LINE:COL CAUSE`. `workload NUMBER` compiles so many
/// generated contracts, from 1 to 200, tries fifty spends of each, and writes the lines `contracts N`, `spends N`, `accepted N` and
/// `digest HEX`. The statuses are
///
/// - 0: the artifact was written to `out`, or the scripts of a spend that is accepted or met.
/// - 1: the source is refused: the line on `err` is that of its refusal.
/// - 2: the words are no command.
/// - 3: the machine refuses the spend, or for `meaning` the run fails; the lines were written to `out`.
/// - 4: the artifact is refused, the spend file, or a value in it: a line on `err` begins with `input`.
/// - 5: the store had a fault, or has no such file. A spend file is read only beside a source that is compiled, or an artifact that
///   is read.
/// - 6: a sink had a fault.
/// - 7: memory ran out.
///
/// At 5 and 7 a line on `err` says so; it is tried once. What is written to `out` is written in one call, after all of it
/// is computed.
pub fn cashc<S: Store, K: Sink, E: Sink>(
    alloc: Global,
    words: &[String],
    store: &mut S,
    out: &mut K,
    err: &mut E,
) -> u8
    ensures shown { (result ≡ 0) ⊎ (result ≡ 3) →
        ((text : List ℕ) × IsShown (S.files store.old) words.now result text × Grew (K.written out.old) (K.written out.new) text)
        × (E.written err.new ≡ E.written err.old) }
    ensures told { (result ≡ 1) ⊎ (result ≡ 2) ⊎ (result ≡ 4) →
        ((text : List ℕ) × IsTold (S.files store.old) words.now result text × Grew (E.written err.old) (E.written err.new) text)
        × (K.written out.new ≡ K.written out.old) }
    ensures unread { result ≡ 5 →
        HasReadCause (S.files store.old) words.now (S.faults store.old) (S.faults store.new)
        × Tried (E.faults err.old) (E.faults err.new) (E.written err.old) (E.written err.new) read_failed × (K.written out.new ≡ K.written out.old) }
    ensures stopped { result ≡ 6 →
        ((text : List ℕ) × (status : ℕ) × IsTold (S.files store.old) words.now status text
        × Stopped (E.faults err.old) (E.faults err.new) (E.written err.old) (E.written err.new) text
        × (K.written out.new ≡ K.written out.old))
        ⊎ ((text : List ℕ) × (status : ℕ) × IsShown (S.files store.old) words.now status text
        × Stopped (K.faults out.old) (K.faults out.new) (K.written out.old) (K.written out.new) text
        × (E.written err.new ≡ E.written err.old)) }
    ensures memory { result ≡ 7 →
        Tried (E.faults err.old) (E.faults err.new) (E.written err.old) (E.written err.new) out_of_memory × (K.written out.new ≡ K.written out.old) }
    ensures only { result ≤ 7 }
    // Words that are no command have no other answer than 2, or 6 where `err` fails.
    ensures always_misused { TopCall.command_of words.now ≡ None → (result ≡ 2) ⊎ (result ≡ 6) }
    // Where the files are there and say what can be done, and nothing outside fails, only memory can be wanting.
    ensures complete { (command : TopCall.Command) → TopCall.command_of words.now ≡ Some command → CanAnswer (S.files store.old) command
        → IsQuiet (S.faults store.old) (S.faults store.new) → IsQuiet (K.faults out.old) (K.faults out.new)
        → IsQuiet (E.faults err.old) (E.faults err.new) → (result ≡ 0) ⊎ (result ≡ 3) ⊎ (result ≡ 7) }
    ensures files { S.files store.new ≡ S.files store.old }
{
    small_contracts_fit();
    let Some(command) = command_of(words) else {
        return write(err, USAGE.as_bytes(), 2);
    };
    match answer(alloc, &command, store) {
        Ok(Output { status, text }) => write(out, text.as_slice(), status),
        Err(Stop::Refused { status, text }) => write(err, text.as_slice(), status),
        Err(Stop::Unread) => fail(err, READ_FAILED.as_bytes(), 5),
        Err(Stop::Memory) => fail(err, OUT_OF_MEMORY.as_bytes(), 7),
    }
}

/// The command that the words are, if they are one.
fn command_of(words: &[String]) -> Option<Command<'_>>
    ensures named { option_map seen result ≡ TopCall.command_of words.now }
    ensures small { IfSome result (λ command. IsSmall (seen command)) }
{
    match words {
        [command, word] => with_one_word(command.as_str(), word.as_str()),
        [command, first, second] => {
            with_two_files(command.as_str(), first.as_str(), second.as_str())
        }
        [command, source, flag, time] => with_time(
            command.as_str(),
            source.as_str(),
            flag.as_str(),
            time.as_str(),
        ),
        _ => None,
    }
}

/// A command with one word.
fn with_one_word<'a>(command: &str, word: &'a str) -> Option<Command<'a>>
    ensures named { option_map seen result ≡ TopCall.with_one_word command.now word.now }
    ensures small { IfSome result (λ command. IsSmall (seen command)) }
{
    match command {
        "compile" => Some(Command::Compile {
            source: word,
            updated: NO_TIME,
        }),
        "workload" => {
            let contracts = work_count(word)?;
            Some(Command::Workload { contracts })
        }
        _ => None,
    }
}

/// A number from 1 to 200 in decimal digits, without a leading zero.
fn work_count(word: &str) -> Option<u32>
    ensures count { result ≡ TopCall.work_count word.now }
    ensures small { IfSome result (λ count. count ≤ 200) }
{
    let number = digits_number(word.as_bytes())?;
    if number <= 200 { Some(number) } else { None }
}

fn is_digit_from(least: u8, byte: u8) -> bool
    ensures { result ≡ TopCall.is_digit_from least byte }
{
    least <= byte && byte <= b'9'
}

/// The number that at most three digits stand for, the first of which is no zero.
fn digits_number(digits: &[u8]) -> Option<u32>
    ensures { result ≡ TopCall.digits_number digits.now }
{
    match *digits {
        [a] if is_digit_from(b'1', a) => Some(digit(a)),
        [a, b] if is_digit_from(b'1', a) && is_digit_from(b'0', b) => Some(
            digit(a) * 10 + digit(b),
        ),
        [a, b, c] if is_digit_from(b'1', a) && (is_digit_from(b'0', b) && is_digit_from(b'0', c)) =>
            { Some(digit(a) * 100 + digit(b) * 10 + digit(c)) }
        _ => None,
    }
}

fn digit(byte: u8) -> u32
    requires { 48 ≤ byte }
    ensures value { result ≡ byte - 48 }
    ensures small { result ≤ 207 }
{
    u32::from(byte - b'0')
}

/// A command with two files.
fn with_two_files<'a>(command: &str, first: &'a str, second: &'a str) -> Option<Command<'a>>
    ensures named { option_map seen result ≡ TopCall.with_two_files command.now first.now second.now }
    ensures small { IfSome result (λ command. IsSmall (seen command)) }
{
    match command {
        "debug" => Some(Command::Debug {
            source: first,
            spend: second,
        }),
        "trace" => Some(Command::Trace {
            source: first,
            spend: second,
        }),
        "spend" => Some(Command::Spend {
            artifact: first,
            spend: second,
        }),
        "meaning" => Some(Command::Meaning {
            source: first,
            spend: second,
        }),
        _ => None,
    }
}

/// `compile FILE --updated-at TEXT`, where the text has at most 64 bytes.
fn with_time<'a>(
    command: &str,
    source: &'a str,
    flag: &str,
    updated: &'a str,
) -> Option<Command<'a>>
    ensures named { option_map seen result ≡ TopCall.with_time command.now source.now flag.now updated.now }
    ensures small { IfSome result (λ command. IsSmall (seen command)) }
{
    if command == "compile" && flag == "--updated-at" && updated.len() <= LONGEST_TIME {
        return Some(Command::Compile { source, updated });
    }
    None
}

/// Writes a text, and answers the status that goes with it, or 6 where the writing failed.
fn write<K: Sink>(sink: &mut K, text: &[u8], status: u8) -> u8
    requires some { text.now ≢ [] }
    requires other { status ≢ 6 }
    ensures done { result ≢ 6 → (result ≡ status) × Grew (K.written sink.old) (K.written sink.new) text.now }
    ensures stopped { result ≡ 6
        → Stopped (K.faults sink.old) (K.faults sink.new) (K.written sink.old) (K.written sink.new) text.now }
    ensures only { (result ≡ status) ⊎ (result ≡ 6) }
{
    match sink.write_all(text) {
        Ok(()) => status,
        Err(_) => 6,
    }
}

/// Tries to write why the call failed, and answers the status whether or not that works.
#[tactic(auto, using(crate::proofs::Told::tried))]
fn fail<E: Sink>(err: &mut E, text: &[u8], status: u8) -> u8
    requires { text.now ≢ [] }
    ensures told { Tried (E.faults err.old) (E.faults err.new) (E.written err.old) (E.written err.new) text.now }
    ensures status { result ≡ status }
{
    let _ = err.write_all(text);
    status
}
