//! The generator of numbers.

ghost use Rattle.std.specs.Prelude.{◌≡◌, ◌<◌};
ghost use Rattle.room_drill.specs.Draws.{draw};

use std::marker::Model;

/// What a word is multiplied by for the next one.
const MULTIPLIER: u64 = 6_364_136_223_846_793_005;

/// What is added to the product.
const INCREMENT: u64 = 1_442_695_040_888_963_407;

/// How many low bits of a word are left out of a number: they repeat soonest.
const LOW_BITS: u32 = 33;

/// A generator, which contracts see as its word.
#[derive(Drop)]
pub(crate) struct Generator {
    word: u64,
}

impl Model for Generator {
    ghost use Rattle.std.specs.Prelude.{ℕ};

    ghost Value = { ℕ };

    ghost view = { λ generator. generator.word };
}

impl Generator {
    /// The generator whose first word is the seed.
    pub fn of(seed: u32) -> Self
        ensures { result ≡ seed }
    {
        Generator {
            word: u64::from(seed),
        }
    }

    /// The next number, below the limit, which is above 0.
    pub fn below(&mut self, limit: u32) -> u32
        requires { 0 < limit }
        ensures drawn { (result, self.new) ≡ draw limit self.old }
        ensures below { result < limit }
    {
        self.word = self.word.wrapping_mul(MULTIPLIER).wrapping_add(INCREMENT);
        (self.word >> LOW_BITS) as u32 % limit
    }
}
