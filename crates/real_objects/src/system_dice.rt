ghost use Rattle.std.specs.Prelude.{◌≡◌, ℕ, None};
ghost use Rattle.real_objects.specs.Standard.{next_number, word_of};

use crate::system_clock::system_millis;
use sb_outside::Dice;
use std::marker::Model;
use std::random::RandomSource;
use std::time;

/// Dice that count on from a seed: each number is 6364136223846793005 times the one before plus
/// 1442695040888963407, modulo 2^64, and its upper 32 bits are the word. They are no secret. Contracts
/// see them as the last number.
#[derive(Clone, Debug, Drop)]
pub struct SystemDice {
    number: u64,
}

impl Model for SystemDice {
    ghost Value = { ℕ };

    ghost view = { λ s. s.number };
}

/// A seed that the system draws, or `None` where it draws none.
fn drawn_seed(rt: &impl RandomSource) -> Option<u64> {
    let mut bytes = [0; 8];
    rt.fill_bytes(&mut bytes).ok()?;
    Some(u64::from_le_bytes(bytes))
}

impl SystemDice {
    /// Dice whose seed the system draws. Where it draws none, the seed is what the system's clock says, in milliseconds
    /// since 1970, and 0 where the clock cannot be read.
    pub fn new<R: RandomSource + time::Clock>(rt: &R) -> Self {
        let seed = match drawn_seed(rt) {
            Some(seed) => seed,
            None => system_millis(rt).unwrap_or(0),
        };
        SystemDice { number: seed }
    }
}

impl Dice for SystemDice {
    ghost given = { λ _. None };

    fn word(&mut self) -> u32
        ensures number { self.new ≡ next_number self.old }
        ensures word { result ≡ word_of self.new }
    {
        self.number = self
            .number
            .wrapping_mul(6_364_136_223_846_793_005)
            .wrapping_add(1_442_695_040_888_963_407);
        (self.number >> 32) as u32
    }
}
