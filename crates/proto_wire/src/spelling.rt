ghost use Rattle.std.specs.Prelude.{◌≡◌, length};
ghost use Rattle.proto_wire.specs.Spelling.{shortest_varint};

use std::marker::Model;

/// The bytes of a varint. Contracts see it as these.
#[derive(Drop)]
pub struct SpelledVarint {
    bytes: [u8; 10],
    /// How many of them these are, less 1.
    last: usize,
}

impl Model for SpelledVarint {
    ghost use Rattle.std.specs.Prelude.{ℕ, List, ◌+◌, ◌<◌, take};

    ghost Value = { List ℕ };

    ghost view = { λ s. take (s.last + 1) s.bytes };

    ghost invariant = { λ s. s.last < 10 };
}

impl SpelledVarint {
    pub fn as_slice(&self) -> &[u8]
        ensures { result.now ≡ self.now }
    {
        &self.bytes[..=self.last]
    }

    pub fn len(&self) -> usize
        ensures { result ≡ length self.now }
    {
        self.last + 1
    }
}

/// The shortest varint of a number.
pub fn spell(number: u64) -> SpelledVarint
    ensures { result ≡ shortest_varint number }
{
    let mut bytes = [0; 10];
    let mut last = 0;
    let mut left = number;
    while left >= 128 {
        bytes[last] = (left % 128 + 128) as u8;
        left /= 128;
        last += 1;
    }
    bytes[last] = left as u8;
    SpelledVarint { bytes, last }
}
