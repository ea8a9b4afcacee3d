// One block: the two lines of eighty steps, and their joining.
ghost use Rattle.std.specs.Prelude.{◌≡◌, ◌<◌, IsTrue, fold};
ghost use Rattle.std.specs.List.{flat_map, list_all};
ghost use Rattle.ripemd160.specs.Ripemd160.{bytes_of, compressed, joined, line, stepped, words_of};
ghost use Rattle.ripemd160.specs.Rounds.{function_of, has_words, step_at, steps_of};

/// The chaining value, and the five words that a line turns.
#[derive(Clone, Copy)]
pub struct State {
    pub a: u32,
    pub b: u32,
    pub c: u32,
    pub d: u32,
    pub e: u32,
}

impl State {
    /// The chaining value before the first block.
    pub const INITIAL: State = State {
        a: 0x6745_2301,
        b: 0xefcd_ab89,
        c: 0x98ba_dcfe,
        d: 0x1032_5476,
        e: 0xc3d2_e1f0,
    };
}

// The five functions of three words.
#[derive(Clone, Copy)]
enum Function {
    F0,
    F1,
    F2,
    F3,
    F4,
}

// Sixteen steps with one function and one constant: the places of the words that they add, and their rotations.
#[derive(Clone, Copy)]
struct Round {
    function: Function,
    constant: u32,
    words: [usize; 16],
    shifts: [u32; 16],
}

// The left line, in the rows that the standard prints. The definition in specs/ has its own tables, and these are
// proved equal to them.
const LEFT: [Round; 5] = [
    Round {
        function: Function::F0,
        constant: 0x0000_0000,
        words: [0, 1, 2, 3, 4, 5, 6, 7, 8, 9, 10, 11, 12, 13, 14, 15],
        shifts: [11, 14, 15, 12, 5, 8, 7, 9, 11, 13, 14, 15, 6, 7, 9, 8],
    },
    Round {
        function: Function::F1,
        constant: 0x5a82_7999,
        words: [7, 4, 13, 1, 10, 6, 15, 3, 12, 0, 9, 5, 2, 14, 11, 8],
        shifts: [7, 6, 8, 13, 11, 9, 7, 15, 7, 12, 15, 9, 11, 7, 13, 12],
    },
    Round {
        function: Function::F2,
        constant: 0x6ed9_eba1,
        words: [3, 10, 14, 4, 9, 15, 8, 1, 2, 7, 0, 6, 13, 11, 5, 12],
        shifts: [11, 13, 6, 7, 14, 9, 13, 15, 14, 8, 13, 6, 5, 12, 7, 5],
    },
    Round {
        function: Function::F3,
        constant: 0x8f1b_bcdc,
        words: [1, 9, 11, 10, 0, 8, 12, 4, 13, 3, 7, 15, 14, 5, 6, 2],
        shifts: [11, 12, 14, 15, 14, 15, 9, 8, 9, 14, 5, 6, 8, 6, 5, 12],
    },
    Round {
        function: Function::F4,
        constant: 0xa953_fd4e,
        words: [4, 0, 5, 9, 7, 12, 2, 10, 14, 1, 3, 8, 11, 6, 15, 13],
        shifts: [9, 15, 5, 11, 6, 8, 13, 12, 5, 12, 13, 14, 11, 8, 5, 6],
    },
];

// The right line.
const RIGHT: [Round; 5] = [
    Round {
        function: Function::F4,
        constant: 0x50a2_8be6,
        words: [5, 14, 7, 0, 9, 2, 11, 4, 13, 6, 15, 8, 1, 10, 3, 12],
        shifts: [8, 9, 9, 11, 13, 15, 15, 5, 7, 7, 8, 11, 14, 14, 12, 6],
    },
    Round {
        function: Function::F3,
        constant: 0x5c4d_d124,
        words: [6, 11, 3, 7, 0, 13, 5, 10, 14, 15, 8, 12, 4, 9, 1, 2],
        shifts: [9, 13, 15, 7, 12, 8, 9, 11, 7, 7, 12, 7, 6, 15, 13, 11],
    },
    Round {
        function: Function::F2,
        constant: 0x6d70_3ef3,
        words: [15, 5, 1, 3, 7, 14, 6, 9, 11, 8, 12, 2, 10, 0, 4, 13],
        shifts: [9, 7, 15, 11, 8, 6, 6, 14, 12, 13, 5, 14, 13, 13, 7, 5],
    },
    Round {
        function: Function::F1,
        constant: 0x7a6d_76e9,
        words: [8, 6, 4, 1, 3, 11, 15, 0, 5, 12, 2, 13, 9, 7, 10, 14],
        shifts: [15, 5, 8, 11, 14, 14, 6, 14, 6, 9, 12, 9, 12, 5, 15, 8],
    },
    Round {
        function: Function::F0,
        constant: 0x0000_0000,
        words: [12, 15, 10, 4, 1, 5, 8, 7, 6, 2, 13, 14, 0, 3, 9, 11],
        shifts: [8, 5, 12, 9, 12, 5, 14, 6, 8, 13, 6, 5, 15, 13, 11, 11],
    },
];

// What a function makes of the three words in the middle.
fn mixed(function: Function, x: u32, y: u32, z: u32) -> u32
    ensures { result ≡ function_of function x y z }
{
    match function {
        Function::F0 => x ^ y ^ z,
        Function::F1 => (x & y) | (!x & z),
        Function::F2 => (x | !y) ^ z,
        Function::F3 => (x & z) | (y & !z),
        Function::F4 => x ^ (y | !z),
    }
}

// Step `i` of a round.
fn step(words: &[u32; 16], state: State, round: &Round, i: usize) -> State
    requires i_in_range { i < 16 }
    requires words_in_range { IsTrue (has_words round.now) }
    ensures { result ≡ stepped words.now state (step_at round.now i) }
{
    let State { a, b, c, d, e } = state;
    let sum = a
        .wrapping_add(mixed(round.function, b, c, d))
        .wrapping_add(words[round.words[i]])
        .wrapping_add(round.constant);
    State {
        a: e,
        b: sum.rotate_left(round.shifts[i]).wrapping_add(e),
        c: b,
        d: c.rotate_left(10),
        e: d,
    }
}

// The sixteen steps of a round.
fn after_round(words: &[u32; 16], start: State, round: &Round) -> State
    requires { IsTrue (has_words round.now) }
    ensures { result ≡ fold (stepped words.now) start (steps_of round.now) }
{
    let mut state = start;
    for i in 0..16 {
        state = step(words, state, round, i);
    }
    state
}

// The five rounds of a line.
#[tactic(auto, unfolding(crate::specs::Ripemd160::line))]
fn line(words: &[u32; 16], start: State, rounds: &[Round; 5]) -> State
    requires { IsTrue (list_all has_words rounds.now) }
    ensures { result ≡ line (flat_map steps_of rounds.now) words.now start }
{
    let mut state = start;
    for round in rounds {
        state = after_round(words, state, round);
    }
    state
}

// Each word is the sum of the words one, two and three places on: of `h`, of the left and of the right line.
fn joined(h: State, left: State, right: State) -> State
    ensures { result ≡ joined h left right }
{
    State {
        a: h.b.wrapping_add(left.c).wrapping_add(right.d),
        b: h.c.wrapping_add(left.d).wrapping_add(right.e),
        c: h.d.wrapping_add(left.e).wrapping_add(right.a),
        d: h.e.wrapping_add(left.a).wrapping_add(right.b),
        e: h.a.wrapping_add(left.b).wrapping_add(right.c),
    }
}

// The sixteen words of a block, the low byte of each first.
fn words_of(block: &[u8; 64]) -> [u32; 16]
    ensures { result ≡ words_of block.now }
{
    let (quads, _) = block.as_chunks::<4>();
    let mut words = [0; 16];
    for i in 0..16 {
        words[i] = u32::from_le_bytes(quads[i]);
    }
    words
}

/// The chaining value after one block.
pub fn compressed(state: State, block: &[u8; 64]) -> State
    ensures { result ≡ compressed state block.now }
{
    let words = words_of(block);
    let left = line(&words, state, &LEFT);
    let right = line(&words, state, &RIGHT);
    joined(state, left, right)
}

/// The digest's bytes, the low byte of each word first.
pub fn bytes_of(state: State) -> [u8; 20]
    ensures { result ≡ bytes_of state }
{
    let words = [state.a, state.b, state.c, state.d, state.e];
    let mut bytes = [0; 20];
    for i in 0..5 {
        bytes[4 * i..4 * i + 4].copy_from_slice(&words[i].to_le_bytes());
    }
    bytes
}
