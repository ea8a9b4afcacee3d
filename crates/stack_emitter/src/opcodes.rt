//! The opcodes of operations.

ghost use Rattle.std.specs.Prelude.{◌≡◌, true, false};
ghost use Rattle.element_ops.specs.declared.op.Op1.TheVariants.{Size};
ghost use Rattle.opcode_table.specs.declared.rows.Deed.TheVariants.{One, Two, Three, Asks, AsksAt};
ghost use Rattle.stack_emitter.specs.Codes.{IsOpcode, deed1};

use cash_base::{Look0, LookAt};
use element_ops::{Op1, Op2, Op3};
use script_codec::Opcode;

/// Whether an operation gives the size of an element.
pub fn is_size(op: Op1) -> bool
    ensures size { result ≡ true → op ≡ Size }
    ensures other { result ≡ false → deed1 op ≡ One op }
{
    match op {
        Op1::Size => true,
        Op1::Negate
        | Op1::Abs
        | Op1::Not
        | Op1::NonZero
        | Op1::AddOne
        | Op1::SubOne
        | Op1::Reverse
        | Op1::ToNumber
        | Op1::Ripemd160
        | Op1::Sha1
        | Op1::Sha256
        | Op1::Hash160
        | Op1::Hash256 => false,
    }
}

/// The opcode of an operation on one element. That of `Size` leaves the element below its size.
#[tactic(auto, unfolding(opcode_table::specs::Table::rows))]
pub fn opcode1(op: Op1) -> Opcode
    ensures { IsOpcode result.0 (deed1 op) }
{
    match op {
        Op1::Negate => Opcode(0x8f),
        Op1::Abs => Opcode(0x90),
        Op1::Not => Opcode(0x91),
        Op1::NonZero => Opcode(0x92),
        Op1::AddOne => Opcode(0x8b),
        Op1::SubOne => Opcode(0x8c),
        Op1::Size => Opcode(0x82),
        Op1::Reverse => Opcode(0xbc),
        Op1::ToNumber => Opcode(0x81),
        Op1::Ripemd160 => Opcode(0xa6),
        Op1::Sha1 => Opcode(0xa7),
        Op1::Sha256 => Opcode(0xa8),
        Op1::Hash160 => Opcode(0xa9),
        Op1::Hash256 => Opcode(0xaa),
    }
}

/// The opcode of an operation on two elements.
#[tactic(auto, unfolding(opcode_table::specs::Table::rows))]
pub fn opcode2(op: Op2) -> Opcode
    ensures { IsOpcode result.0 (Two op) }
{
    match op {
        Op2::Add => Opcode(0x93),
        Op2::Sub => Opcode(0x94),
        Op2::Mul => Opcode(0x95),
        Op2::Div => Opcode(0x96),
        Op2::Mod => Opcode(0x97),
        Op2::Min => Opcode(0xa3),
        Op2::Max => Opcode(0xa4),
        Op2::Less => Opcode(0x9f),
        Op2::Greater => Opcode(0xa0),
        Op2::LessEqual => Opcode(0xa1),
        Op2::GreaterEqual => Opcode(0xa2),
        Op2::NumEqual => Opcode(0x9c),
        Op2::NumNotEqual => Opcode(0x9e),
        Op2::BoolAnd => Opcode(0x9a),
        Op2::BoolOr => Opcode(0x9b),
        Op2::Equal => Opcode(0x87),
        Op2::And => Opcode(0x84),
        Op2::Or => Opcode(0x85),
        Op2::Xor => Opcode(0x86),
        Op2::Cat => Opcode(0x7e),
        Op2::Pad => Opcode(0x80),
    }
}

/// The opcode of an operation on three elements.
#[tactic(auto, unfolding(opcode_table::specs::Table::rows))]
pub fn opcode3(op: Op3) -> Opcode
    ensures { IsOpcode result.0 (Three op) }
{
    match op {
        Op3::Within => Opcode(0xa5),
    }
}

/// The opcode that asks for what the transaction has one of.
#[tactic(auto, unfolding(opcode_table::specs::Table::rows))]
pub fn opcode_of_look0(what: Look0) -> Opcode
    ensures { IsOpcode result.0 (Asks what) }
{
    match what {
        Look0::ActiveIndex => Opcode(0xc0),
        Look0::ActiveBytecode => Opcode(0xc1),
        Look0::Version => Opcode(0xc2),
        Look0::InputCount => Opcode(0xc3),
        Look0::OutputCount => Opcode(0xc4),
        Look0::Locktime => Opcode(0xc5),
    }
}

/// The opcode that asks for what an input or an output has.
#[tactic(auto, unfolding(opcode_table::specs::Table::rows))]
pub fn opcode_of_look_at(what: LookAt) -> Opcode
    ensures { IsOpcode result.0 (AsksAt what) }
{
    match what {
        LookAt::UtxoValue => Opcode(0xc6),
        LookAt::UtxoBytecode => Opcode(0xc7),
        LookAt::OutpointHash => Opcode(0xc8),
        LookAt::OutpointIndex => Opcode(0xc9),
        LookAt::InputBytecode => Opcode(0xca),
        LookAt::InputSequence => Opcode(0xcb),
        LookAt::OutputValue => Opcode(0xcc),
        LookAt::OutputBytecode => Opcode(0xcd),
    }
}
