//! Numbers that look like chance.

ghost use Rattle.std.specs.Prelude.{◌≡◌, ◌<◌};
ghost use Rattle.generated_spends.specs.Draws as numbers;
ghost use Rattle.generated_spends.specs.Generated;

/// A source of numbers, by its state.
#[derive(Drop)]
pub(crate) struct Draws {
    pub(crate) state: u64,
}

/// The source of the numbers of contract `number`.
pub(crate) fn draws_of(number: u32) -> Draws
    ensures { result.state ≡ Generated.first_state number }
{
    Draws {
        state: u64::from(number)
            .wrapping_mul(2862933555777941757)
            .wrapping_add(3037000493),
    }
}

/// The next number, below `bound`.
pub(crate) fn draw(draws: &mut Draws, bound: u64) -> u64
    requires { 0 < bound }
    ensures value { result ≡ (numbers.draw bound draws.old.state).value }
    ensures state { draws.new.state ≡ (numbers.draw bound draws.old.state).state }
    ensures below { result < bound }
{
    draws.state = draws
        .state
        .wrapping_mul(6364136223846793005)
        .wrapping_add(1442695040888963407);
    (draws.state >> 33) % bound
}
