// The number that is drawn from.
ghost use Rattle.std.specs.Prelude.{◌≡◌, ◌<◌};
ghost use Rattle.large_program.specs.Draws.{after_draws, below, next};

/// The number that follows is the number by the one of these and the other more, modulo 2 to the 32.
const FACTOR: u32 = 1_664_525;

const STEP: u32 = 1_013_904_223;

/// The number that is drawn from.
#[derive(Clone, Copy, Debug)]
pub(crate) struct Draws {
    pub number: u32,
}

impl Draws {
    /// The next draw, below m: the number goes on to the one that follows, and its upper 16 bits are taken modulo m. Takes no
    /// memory.
    pub(crate) fn below(&mut self, m: u32) -> u32
        requires { 0 < m }
        ensures number { self.new.number ≡ next self.old.number }
        ensures drawn { result ≡ below m self.new.number }
        ensures small { result < m }
    {
        self.number = self.number.wrapping_mul(FACTOR).wrapping_add(STEP);
        self.number / 65_536 % m
    }

    /// The number after so many draws. Takes no memory.
    pub(crate) fn after(n: u32, draws: u32) -> Draws
        ensures { result.number ≡ after_draws draws n }
    {
        let mut drawn = Draws { number: n };
        for _ in 0..draws {
            drawn.below(1);
        }
        drawn
    }
}
