//! The hash function RIPEMD-160, after its standard by Hans Dobbertin, Antoon Bosselaers and Bart Preneel.
//!
//! It takes no memory, and reads the message where it stands.
#![tactic(auto)]

ghost use Rattle.std.specs.Prelude.{◌≡◌, ◌<◌, ◌+◌, ◌-◌, ◌*◌, ◌%◌, ◌^◌, ◌++◌, fold, length};
ghost use Rattle.std.specs.Int.{w64, to_le_bytes};
ghost use Rattle.ripemd160.specs.Ripemd160.{blocks_of, compressed, padding, ripemd160};

mod compress;

use compress::State;

// The chaining value after these blocks.
fn after_blocks(start: State, blocks: &[[u8; 64]]) -> State
    ensures { result ≡ fold compressed start blocks.now }
{
    let mut state = start;
    for block in blocks {
        state = compress::compressed(state, block);
    }
    state
}

// How far so many bytes, after the last whole block, go with the byte 0x80, zeros and the length: one block or two.
fn padded_len(used: usize) -> usize
    requires { used < 64 }
    ensures { result ≡ used + 1 + (119 - used) % 64 + 8 }
{
    if used < 56 { 64 } else { 128 }
}

// The length in bits modulo 2^64 of a message of so many bytes.
fn length_field(len: usize) -> [u8; 8]
    ensures { result ≡ to_le_bytes w64 (8 * len % 2 ^ 64) }
{
    (len as u64).wrapping_mul(8).to_le_bytes()
}

// Goes on over what is after the last whole block: the last bytes of a message of this length, and the padding.
fn after_padding(start: State, rest: &[u8], len: usize) -> State
    requires { length rest.now ≡ len % 64 }
    ensures { result ≡ fold compressed start (blocks_of (rest.now ++ padding len)) }
{
    let mut last = [0; 128];
    last[..rest.len()].copy_from_slice(rest);
    last[rest.len()] = 0x80;
    let end = padded_len(rest.len());
    last[end - 8..end].copy_from_slice(&length_field(len));
    let (blocks, _) = last[..end].as_chunks::<64>();
    after_blocks(start, blocks)
}

/// The RIPEMD-160 digest of the message, for a message of any length.
///
/// The padding has the length in bits modulo 2^64, as the standard says.
pub fn ripemd160(message: &[u8]) -> [u8; 20]
    ensures { result ≡ ripemd160 message.now }
{
    let (blocks, rest) = message.as_chunks::<64>();
    let state = after_blocks(State::INITIAL, blocks);
    compress::bytes_of(after_padding(state, rest, message.len()))
}
