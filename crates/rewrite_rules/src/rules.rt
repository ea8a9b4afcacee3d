//! The rules: a type for each row of the table.

ghost use Rattle.std.specs.Prelude.{◌≡◌};
ghost use Rattle.script_codec.specs.declared.instr.Instr.TheVariants.{Do};
ghost use Rattle.rewrite_rules.specs.Rules.{commuting, with_one, by_one, hashed_again, hashed_twice, pick_top, pick_second, roll_top, roll_second, roll_third, swap_twice, rot_three_times, dup_swap, dup_drop, over_drop, swap_drop, swap_over, drop_twice, over_twice, equal_verify, num_equal_verify, check_sig_verify, check_data_sig_verify, check_multi_sig_verify, num_equal_not, swap_then, one_then, sha256_then};
ghost use Rattle.rewrite_rules.specs.Laws.{pick_top_holds, pick_second_holds, roll_top_holds, roll_second_holds, roll_third_holds, swap_twice_holds, rot_three_times_holds, dup_swap_holds, dup_drop_holds, over_drop_holds, swap_drop_holds, swap_over_holds, drop_twice_holds, over_twice_holds, equal_verify_holds, num_equal_verify_holds, check_sig_verify_holds, check_data_sig_verify_holds, check_multi_sig_verify_holds, num_equal_not_holds, swap_then_holds, one_then_holds, sha256_then_holds};

use crate::rewriting::{Pattern, Replacement, Rewrite, rewritten};
use script_codec::{Opcode, Spanned};

/// Takes a truth, which must be true.
const VERIFY: Opcode = Opcode(0x69);

/// 2DROP takes two elements away.
const DROP2: Opcode = Opcode(0x6d);

/// 2DUP copies two elements.
const DUP2: Opcode = Opcode(0x6e);

/// Takes the top away.
const DROP: Opcode = Opcode(0x75);

/// Copies the top.
const DUP: Opcode = Opcode(0x76);

/// Copies the element below the top.
const OVER: Opcode = Opcode(0x78);

/// Takes a number, and moves the element that lies so deep to the top.
const ROLL: Opcode = Opcode(0x7a);

/// Moves the third element to the top.
const ROT: Opcode = Opcode(0x7b);

/// Exchanges the two elements on top.
const SWAP: Opcode = Opcode(0x7c);

/// Copies the top below the element under it.
const TUCK: Opcode = Opcode(0x7d);

/// The bitwise and of two elements.
const AND: Opcode = Opcode(0x84);

/// The bitwise or of two elements.
const OR: Opcode = Opcode(0x85);

/// The bitwise exclusive or of two elements.
const XOR: Opcode = Opcode(0x86);

/// EQUAL, and then VERIFY.
const EQUALVERIFY: Opcode = Opcode(0x88);

/// 1ADD adds one.
const ADD1: Opcode = Opcode(0x8b);

/// 1SUB takes one away.
const SUB1: Opcode = Opcode(0x8c);

/// Whether a number is zero.
const NOT: Opcode = Opcode(0x91);

/// The sum of two numbers.
const ADD: Opcode = Opcode(0x93);

/// The difference of two numbers.
const SUB: Opcode = Opcode(0x94);

/// The product of two numbers.
const MUL: Opcode = Opcode(0x95);

/// Whether two numbers both aren't zero.
const BOOLAND: Opcode = Opcode(0x9a);

/// Whether one of two numbers isn't zero.
const BOOLOR: Opcode = Opcode(0x9b);

/// NUMEQUAL, and then VERIFY.
const NUMEQUALVERIFY: Opcode = Opcode(0x9d);

/// Whether two numbers differ.
const NUMNOTEQUAL: Opcode = Opcode(0x9e);

/// The lesser of two numbers.
const MIN: Opcode = Opcode(0xa3);

/// The greater of two numbers.
const MAX: Opcode = Opcode(0xa4);

/// The RIPEMD-160 of an element.
const RIPEMD160: Opcode = Opcode(0xa6);

/// The SHA-256 of an element.
const SHA256: Opcode = Opcode(0xa8);

/// The SHA-256 of the SHA-256 of an element.
const HASH256: Opcode = Opcode(0xaa);

/// Whether a signature of the transaction is good.
const CHECKSIG: Opcode = Opcode(0xac);

/// CHECKSIG, and then VERIFY.
const CHECKSIGVERIFY: Opcode = Opcode(0xad);

/// Whether a signature of a message is good.
const CHECKDATASIG: Opcode = Opcode(0xba);

/// CHECKDATASIG, and then VERIFY.
const CHECKDATASIGVERIFY: Opcode = Opcode(0xbb);

/// An operation that gives the same with its two operands swapped.
#[derive(Clone, Copy, Debug, PartialEq, Eq)]
pub enum Commuting {
    Add,
    Mul,
    And,
    Or,
    Xor,
    Equal,
    EqualVerify,
    NumEqual,
    NumEqualVerify,
    NumNotEqual,
    BoolAnd,
    BoolOr,
    Min,
    Max,
}

pub const COMMUTING: [Commuting; 14] = [
    Commuting::Add,
    Commuting::Mul,
    Commuting::And,
    Commuting::Or,
    Commuting::Xor,
    Commuting::Equal,
    Commuting::EqualVerify,
    Commuting::NumEqual,
    Commuting::NumEqualVerify,
    Commuting::NumNotEqual,
    Commuting::BoolAnd,
    Commuting::BoolOr,
    Commuting::Min,
    Commuting::Max,
];

impl Commuting {
    pub fn opcode(self) -> Opcode
        ensures { Do result ≡ commuting self }
    {
        match self {
            Commuting::Add => ADD,
            Commuting::Mul => MUL,
            Commuting::And => AND,
            Commuting::Or => OR,
            Commuting::Xor => XOR,
            Commuting::Equal => Opcode::EQUAL,
            Commuting::EqualVerify => EQUALVERIFY,
            Commuting::NumEqual => Opcode::NUMEQUAL,
            Commuting::NumEqualVerify => NUMEQUALVERIFY,
            Commuting::NumNotEqual => NUMNOTEQUAL,
            Commuting::BoolAnd => BOOLAND,
            Commuting::BoolOr => BOOLOR,
            Commuting::Min => MIN,
            Commuting::Max => MAX,
        }
    }
}

/// ADD or SUB.
#[derive(Clone, Copy, Debug, PartialEq, Eq)]
pub enum ByOne {
    Add,
    Sub,
}

impl ByOne {
    /// The operation on two numbers.
    pub fn opcode(self) -> Opcode
        ensures { Do result ≡ with_one self }
    {
        match self {
            ByOne::Add => ADD,
            ByOne::Sub => SUB,
        }
    }

    /// The operation with one.
    pub fn opcode_by_one(self) -> Opcode
        ensures { Do result ≡ by_one self }
    {
        match self {
            ByOne::Add => ADD1,
            ByOne::Sub => SUB1,
        }
    }
}

/// A hash of a SHA-256.
#[derive(Clone, Copy, Debug, PartialEq, Eq)]
pub enum SecondHash {
    Ripemd160,
    Sha256,
}

impl SecondHash {
    /// The hash alone.
    pub fn opcode(self) -> Opcode
        ensures { Do result ≡ hashed_again self }
    {
        match self {
            SecondHash::Ripemd160 => RIPEMD160,
            SecondHash::Sha256 => SHA256,
        }
    }

    /// The hash of the SHA-256.
    pub fn opcode_twice(self) -> Opcode
        ensures { Do result ≡ hashed_twice self }
    {
        match self {
            SecondHash::Ripemd160 => Opcode::HASH160,
            SecondHash::Sha256 => HASH256,
        }
    }
}

/// push 0, PICK is DUP.
#[derive(Clone, Copy)]
pub struct PickTop;

impl Rewrite for PickTop {
    const WIDTH: usize = 2;

    const LEAST: usize = 1;

    ghost WIDTH = { 2 };

    ghost LEAST = { 1 };

    ghost rule = { λ _. pick_top };

    ghost law = { λ _. pick_top_holds };

    fn rewrite(&self, window: &[Spanned]) -> Option<Replacement> {
        rewritten(
            window,
            &[Pattern::Zero, Pattern::Does(Opcode::PICK)],
            Some(DUP),
            1,
        )
    }
}

/// push 1, PICK is OVER.
#[derive(Clone, Copy)]
pub struct PickSecond;

impl Rewrite for PickSecond {
    const WIDTH: usize = 2;

    const LEAST: usize = 2;

    ghost WIDTH = { 2 };

    ghost LEAST = { 2 };

    ghost rule = { λ _. pick_second };

    ghost law = { λ _. pick_second_holds };

    fn rewrite(&self, window: &[Spanned]) -> Option<Replacement> {
        rewritten(
            window,
            &[Pattern::One, Pattern::Does(Opcode::PICK)],
            Some(OVER),
            1,
        )
    }
}

/// push 0, ROLL is nothing.
#[derive(Clone, Copy)]
pub struct RollTop;

impl Rewrite for RollTop {
    const WIDTH: usize = 2;

    const LEAST: usize = 1;

    ghost WIDTH = { 2 };

    ghost LEAST = { 1 };

    ghost rule = { λ _. roll_top };

    ghost law = { λ _. roll_top_holds };

    fn rewrite(&self, window: &[Spanned]) -> Option<Replacement> {
        rewritten(window, &[Pattern::Zero, Pattern::Does(ROLL)], None, 1)
    }
}

/// push 1, ROLL is SWAP.
#[derive(Clone, Copy)]
pub struct RollSecond;

impl Rewrite for RollSecond {
    const WIDTH: usize = 2;

    const LEAST: usize = 2;

    ghost WIDTH = { 2 };

    ghost LEAST = { 2 };

    ghost rule = { λ _. roll_second };

    ghost law = { λ _. roll_second_holds };

    fn rewrite(&self, window: &[Spanned]) -> Option<Replacement> {
        rewritten(window, &[Pattern::One, Pattern::Does(ROLL)], Some(SWAP), 1)
    }
}

/// push 2, ROLL is ROT.
#[derive(Clone, Copy)]
pub struct RollThird;

impl Rewrite for RollThird {
    const WIDTH: usize = 2;

    const LEAST: usize = 3;

    ghost WIDTH = { 2 };

    ghost LEAST = { 3 };

    ghost rule = { λ _. roll_third };

    ghost law = { λ _. roll_third_holds };

    fn rewrite(&self, window: &[Spanned]) -> Option<Replacement> {
        rewritten(window, &[Pattern::Two, Pattern::Does(ROLL)], Some(ROT), 1)
    }
}

/// SWAP, SWAP is nothing.
#[derive(Clone, Copy)]
pub struct SwapTwice;

impl Rewrite for SwapTwice {
    const WIDTH: usize = 2;

    const LEAST: usize = 2;

    ghost WIDTH = { 2 };

    ghost LEAST = { 2 };

    ghost rule = { λ _. swap_twice };

    ghost law = { λ _. swap_twice_holds };

    fn rewrite(&self, window: &[Spanned]) -> Option<Replacement> {
        rewritten(window, &[Pattern::Does(SWAP), Pattern::Does(SWAP)], None, 1)
    }
}

/// ROT, ROT, ROT is nothing.
#[derive(Clone, Copy)]
pub struct RotThreeTimes;

impl Rewrite for RotThreeTimes {
    const WIDTH: usize = 3;

    const LEAST: usize = 3;

    ghost WIDTH = { 3 };

    ghost LEAST = { 3 };

    ghost rule = { λ _. rot_three_times };

    ghost law = { λ _. rot_three_times_holds };

    fn rewrite(&self, window: &[Spanned]) -> Option<Replacement> {
        rewritten(
            window,
            &[Pattern::Does(ROT), Pattern::Does(ROT), Pattern::Does(ROT)],
            None,
            2,
        )
    }
}

/// DUP, SWAP is DUP.
#[derive(Clone, Copy)]
pub struct DupSwap;

impl Rewrite for DupSwap {
    const WIDTH: usize = 2;

    const LEAST: usize = 1;

    ghost WIDTH = { 2 };

    ghost LEAST = { 1 };

    ghost rule = { λ _. dup_swap };

    ghost law = { λ _. dup_swap_holds };

    fn rewrite(&self, window: &[Spanned]) -> Option<Replacement> {
        rewritten(
            window,
            &[Pattern::Does(DUP), Pattern::Does(SWAP)],
            Some(DUP),
            1,
        )
    }
}

/// DUP, DROP is nothing.
#[derive(Clone, Copy)]
pub struct DupDrop;

impl Rewrite for DupDrop {
    const WIDTH: usize = 2;

    const LEAST: usize = 1;

    ghost WIDTH = { 2 };

    ghost LEAST = { 1 };

    ghost rule = { λ _. dup_drop };

    ghost law = { λ _. dup_drop_holds };

    fn rewrite(&self, window: &[Spanned]) -> Option<Replacement> {
        rewritten(window, &[Pattern::Does(DUP), Pattern::Does(DROP)], None, 1)
    }
}

/// OVER, DROP is nothing.
#[derive(Clone, Copy)]
pub struct OverDrop;

impl Rewrite for OverDrop {
    const WIDTH: usize = 2;

    const LEAST: usize = 2;

    ghost WIDTH = { 2 };

    ghost LEAST = { 2 };

    ghost rule = { λ _. over_drop };

    ghost law = { λ _. over_drop_holds };

    fn rewrite(&self, window: &[Spanned]) -> Option<Replacement> {
        rewritten(window, &[Pattern::Does(OVER), Pattern::Does(DROP)], None, 1)
    }
}

/// SWAP, DROP is NIP.
#[derive(Clone, Copy)]
pub struct SwapDrop;

impl Rewrite for SwapDrop {
    const WIDTH: usize = 2;

    const LEAST: usize = 2;

    ghost WIDTH = { 2 };

    ghost LEAST = { 2 };

    ghost rule = { λ _. swap_drop };

    ghost law = { λ _. swap_drop_holds };

    fn rewrite(&self, window: &[Spanned]) -> Option<Replacement> {
        rewritten(
            window,
            &[Pattern::Does(SWAP), Pattern::Does(DROP)],
            Some(Opcode::NIP),
            1,
        )
    }
}

/// SWAP, OVER is TUCK.
#[derive(Clone, Copy)]
pub struct SwapOver;

impl Rewrite for SwapOver {
    const WIDTH: usize = 2;

    const LEAST: usize = 2;

    ghost WIDTH = { 2 };

    ghost LEAST = { 2 };

    ghost rule = { λ _. swap_over };

    ghost law = { λ _. swap_over_holds };

    fn rewrite(&self, window: &[Spanned]) -> Option<Replacement> {
        rewritten(
            window,
            &[Pattern::Does(SWAP), Pattern::Does(OVER)],
            Some(TUCK),
            1,
        )
    }
}

/// DROP, DROP is 2DROP.
#[derive(Clone, Copy)]
pub struct DropTwice;

impl Rewrite for DropTwice {
    const WIDTH: usize = 2;

    const LEAST: usize = 2;

    ghost WIDTH = { 2 };

    ghost LEAST = { 2 };

    ghost rule = { λ _. drop_twice };

    ghost law = { λ _. drop_twice_holds };

    fn rewrite(&self, window: &[Spanned]) -> Option<Replacement> {
        rewritten(
            window,
            &[Pattern::Does(DROP), Pattern::Does(DROP)],
            Some(DROP2),
            1,
        )
    }
}

/// OVER, OVER is 2DUP.
#[derive(Clone, Copy)]
pub struct OverTwice;

impl Rewrite for OverTwice {
    const WIDTH: usize = 2;

    const LEAST: usize = 2;

    ghost WIDTH = { 2 };

    ghost LEAST = { 2 };

    ghost rule = { λ _. over_twice };

    ghost law = { λ _. over_twice_holds };

    fn rewrite(&self, window: &[Spanned]) -> Option<Replacement> {
        rewritten(
            window,
            &[Pattern::Does(OVER), Pattern::Does(OVER)],
            Some(DUP2),
            1,
        )
    }
}

/// SWAP before an operation whose operands commute is nothing.
#[derive(Clone, Copy)]
pub struct SwapThen {
    pub op: Commuting,
}

impl Rewrite for SwapThen {
    const WIDTH: usize = 2;

    const LEAST: usize = 2;

    ghost WIDTH = { 2 };

    ghost LEAST = { 2 };

    ghost rule = { λ r. swap_then r.op };

    ghost law = { λ r. swap_then_holds r.op };

    fn rewrite(&self, window: &[Spanned]) -> Option<Replacement> {
        let op = self.op.opcode();
        rewritten(
            window,
            &[Pattern::Does(SWAP), Pattern::Does(op)],
            Some(op),
            1,
        )
    }
}

/// EQUAL, VERIFY is EQUALVERIFY.
#[derive(Clone, Copy)]
pub struct EqualVerify;

impl Rewrite for EqualVerify {
    const WIDTH: usize = 2;

    const LEAST: usize = 2;

    ghost WIDTH = { 2 };

    ghost LEAST = { 2 };

    ghost rule = { λ _. equal_verify };

    ghost law = { λ _. equal_verify_holds };

    fn rewrite(&self, window: &[Spanned]) -> Option<Replacement> {
        rewritten(
            window,
            &[Pattern::Does(Opcode::EQUAL), Pattern::Does(VERIFY)],
            Some(EQUALVERIFY),
            1,
        )
    }
}

/// NUMEQUAL, VERIFY is NUMEQUALVERIFY, which keeps both spans.
#[derive(Clone, Copy)]
pub struct NumEqualVerify;

impl Rewrite for NumEqualVerify {
    const WIDTH: usize = 2;

    const LEAST: usize = 2;

    ghost WIDTH = { 2 };

    ghost LEAST = { 2 };

    ghost rule = { λ _. num_equal_verify };

    ghost law = { λ _. num_equal_verify_holds };

    fn rewrite(&self, window: &[Spanned]) -> Option<Replacement> {
        rewritten(
            window,
            &[Pattern::Does(Opcode::NUMEQUAL), Pattern::Does(VERIFY)],
            Some(NUMEQUALVERIFY),
            0,
        )
    }
}

/// CHECKSIG, VERIFY is CHECKSIGVERIFY.
#[derive(Clone, Copy)]
pub struct CheckSigVerify;

impl Rewrite for CheckSigVerify {
    const WIDTH: usize = 2;

    const LEAST: usize = 2;

    ghost WIDTH = { 2 };

    ghost LEAST = { 2 };

    ghost rule = { λ _. check_sig_verify };

    ghost law = { λ _. check_sig_verify_holds };

    fn rewrite(&self, window: &[Spanned]) -> Option<Replacement> {
        rewritten(
            window,
            &[Pattern::Does(CHECKSIG), Pattern::Does(VERIFY)],
            Some(CHECKSIGVERIFY),
            0,
        )
    }
}

/// CHECKDATASIG, VERIFY is CHECKDATASIGVERIFY.
#[derive(Clone, Copy)]
pub struct CheckDataSigVerify;

impl Rewrite for CheckDataSigVerify {
    const WIDTH: usize = 2;

    const LEAST: usize = 3;

    ghost WIDTH = { 2 };

    ghost LEAST = { 3 };

    ghost rule = { λ _. check_data_sig_verify };

    ghost law = { λ _. check_data_sig_verify_holds };

    fn rewrite(&self, window: &[Spanned]) -> Option<Replacement> {
        rewritten(
            window,
            &[Pattern::Does(CHECKDATASIG), Pattern::Does(VERIFY)],
            Some(CHECKDATASIGVERIFY),
            0,
        )
    }
}

/// CHECKMULTISIG, VERIFY is CHECKMULTISIGVERIFY.
#[derive(Clone, Copy)]
pub struct CheckMultiSigVerify;

impl Rewrite for CheckMultiSigVerify {
    const WIDTH: usize = 2;

    const LEAST: usize = 1;

    ghost WIDTH = { 2 };

    ghost LEAST = { 1 };

    ghost rule = { λ _. check_multi_sig_verify };

    ghost law = { λ _. check_multi_sig_verify_holds };

    fn rewrite(&self, window: &[Spanned]) -> Option<Replacement> {
        rewritten(
            window,
            &[Pattern::Does(Opcode::CHECKMULTISIG), Pattern::Does(VERIFY)],
            Some(Opcode::CHECKMULTISIGVERIFY),
            0,
        )
    }
}

/// NUMEQUAL, NOT is NUMNOTEQUAL.
#[derive(Clone, Copy)]
pub struct NumEqualNot;

impl Rewrite for NumEqualNot {
    const WIDTH: usize = 2;

    const LEAST: usize = 2;

    ghost WIDTH = { 2 };

    ghost LEAST = { 2 };

    ghost rule = { λ _. num_equal_not };

    ghost law = { λ _. num_equal_not_holds };

    fn rewrite(&self, window: &[Spanned]) -> Option<Replacement> {
        rewritten(
            window,
            &[Pattern::Does(Opcode::NUMEQUAL), Pattern::Does(NOT)],
            Some(NUMNOTEQUAL),
            0,
        )
    }
}

/// push 1, ADD is 1ADD, and push 1, SUB is 1SUB.
#[derive(Clone, Copy)]
pub struct OneThen {
    pub op: ByOne,
}

impl Rewrite for OneThen {
    const WIDTH: usize = 2;

    const LEAST: usize = 1;

    ghost WIDTH = { 2 };

    ghost LEAST = { 1 };

    ghost rule = { λ r. one_then r.op };

    ghost law = { λ r. one_then_holds r.op };

    fn rewrite(&self, window: &[Spanned]) -> Option<Replacement> {
        let op = self.op.opcode();
        let by_one = self.op.opcode_by_one();
        rewritten(window, &[Pattern::One, Pattern::Does(op)], Some(by_one), 1)
    }
}

/// SHA256, RIPEMD160 is HASH160, and SHA256, SHA256 is HASH256.
#[derive(Clone, Copy)]
pub struct Sha256Then {
    pub op: SecondHash,
}

impl Rewrite for Sha256Then {
    const WIDTH: usize = 2;

    const LEAST: usize = 1;

    ghost WIDTH = { 2 };

    ghost LEAST = { 1 };

    ghost rule = { λ r. sha256_then r.op };

    ghost law = { λ r. sha256_then_holds r.op };

    fn rewrite(&self, window: &[Spanned]) -> Option<Replacement> {
        let op = self.op.opcode();
        let twice = self.op.opcode_twice();
        rewritten(
            window,
            &[Pattern::Does(SHA256), Pattern::Does(op)],
            Some(twice),
            1,
        )
    }
}
