//! The generator that draws letters from a seed.
ghost use Rattle.std.specs.Prelude.{◌≡◌, ℕ, ◌/◌, ◌%◌, ◌^◌, ◌<◌, map, length};
ghost use Rattle.std.specs.List.{range_with_len};
ghost use Rattle.ca_questions.specs.Samples.{next_state, state_after, drawn};

use std::marker::Model;

const MULTIPLIER: u64 = 6364136223846793005;

const INCREMENT: u64 = 1442695040888963407;

/// A linear congruential generator modulo 2^64 (Knuth 1969). It draws a letter from the upper 31 bits of its state. In
/// contracts the generator is its state.
#[derive(Debug, Drop)]
pub struct Generator {
    state: u64,
}

impl Model for Generator {
    ghost use Rattle.std.specs.Prelude.{ℕ};

    ghost Value = { ℕ };

    ghost view = { λ g. g.state };
}

impl Generator {
    /// Makes a generator whose state is the seed.
    pub fn from_seed(seed: u64) -> Generator
        ensures { result ≡ seed }
    {
        Generator { state: seed }
    }

    /// Draws a letter below k for each place of `letters`, from the first place to the last one.
    pub fn fill(&mut self, letters: &mut [u8], k: u8)
        requires { 0 < k }
        ensures letters { letters.new ≡ map (drawn k self.old) (range_with_len 0 (length letters.old)) }
        ensures state { self.new ≡ state_after self.old (length letters.old) }
    {
        for letter in letters.iter_mut() {
            *letter = self.letter(k);
        }
    }

    /// Draws one letter below k.
    fn letter(&mut self, k: u8) -> u8
        requires { 0 < k }
        ensures letter { result ≡ self.new / 2 ^ 33 % k }
        ensures state { self.new ≡ next_state self.old }
    {
        self.state = self.state.wrapping_mul(MULTIPLIER).wrapping_add(INCREMENT);
        ((self.state >> 33) as u32 % u32::from(k)) as u8
    }
}
