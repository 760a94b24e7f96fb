//! Numbers that look random, the same for the same seed.
ghost use Rattle.std.specs.Prelude.{◌<◌};

use rand_core::utils::NextWord;
use rand_pcg::Pcg32;

/// A sequence of such numbers.
#[derive(Drop)]
pub struct Random {
    generator: Pcg32,
}

impl Random {
    /// Returns the sequence of this seed.
    pub fn new(seed: u32) -> Random {
        Random {
            generator: Pcg32::new(u64::from(seed), 54),
        }
    }

    /// Returns the next number, below the limit, which must not be 0.
    pub fn below(&mut self, limit: usize) -> usize
        requires { 0 < limit }
        ensures { result < limit }
    {
        self.generator.next_word() as usize % limit
    }

    /// Returns whether the next throw of a die with so many sides is a 1.
    pub fn one_in(&mut self, sides: usize) -> bool
        requires { 0 < sides }
    {
        self.below(sides) == 0
    }

    /// Returns one of some pieces of text, or an empty text if there are none.
    pub fn piece(&mut self, pieces: &[&'static str]) -> &'static str {
        if pieces.is_empty() {
            return "";
        }
        pieces[self.below(pieces.len())]
    }
}
