//! Pseudo-random numbers, drawn one after another.
ghost use Rattle.std.specs.Prelude.{◌≡◌, ◌%◌, ◌^◌};
ghost use Rattle.rv_generate.specs.Generator.{step, value_of};

/// How many states there are.
const STATES: u64 = 1 << 32;

/// The state of a linear congruence, with the constants of Numerical Recipes. 4 bytes.
#[derive(Clone, Copy)]
pub(crate) struct Draws {
    state: u32,
}

impl Draws {
    /// Starts from a number modulo 2^32.
    pub(crate) fn new(number: u64) -> Draws
        ensures { result.state ≡ number % 2 ^ 32 }
    {
        Draws {
            state: (number % STATES) as u32,
        }
    }

    /// Draws the next number, from 1 to 64.
    pub(crate) fn draw(&mut self) -> u32
        ensures state { self.new.state ≡ step self.old.state }
        ensures value { result ≡ value_of (step self.old.state) }
    {
        let next = (1_664_525 * u64::from(self.state) + 1_013_904_223) % STATES;
        self.state = next as u32;
        1 + (self.state / 65_536) % 64
    }
}
