ghost use Rattle.std.specs.Prelude.{◌≡◌, ℕ, ◌^◌, ◌<◌, ◌≤◌, [], ◌++◌, IfOk, OnOk};
ghost use Rattle.rice_coding.specs.Bits.{low_bits, packed};
ghost use Rattle.rice_coding.specs.Codes.{code};

use sb_model::{Bytes, OutOfMemory};
use std::alloc::Global;
use std::marker::Model;

/// Bits that were written, eight bytes at a time. Contracts see it as these. After an `Err` it is
/// not used again.
#[derive(Drop)]
pub struct BitWriter {
    bytes: Vec<u8>,
}

impl Model for BitWriter {
    ghost use Rattle.std.specs.Prelude.{ℕ, List, Bool, ◌<◌, slice_index};
    ghost use Rattle.rice_coding.specs.Bits.{bits_of};

    ghost Value = { List Bool };

    ghost view = { λ w. bits_of w.bytes.items };

    ghost invariant = { λ w. (i : ℕ) → slice_index w.bytes.items i < 256 };
}

impl BitWriter {
    /// No bits, with room for this many.
    pub fn with_room(alloc: Global, bits: u64) -> Result<Self, OutOfMemory>
        ensures { IfOk result (λ writer. writer ≡ []) }
    {
        Ok(BitWriter {
            bytes: Vec::with_capacity(alloc, (bits / 8) as usize + 8)?,
        })
    }

    /// Writes the 64 bits of a word.
    #[inline]
    fn put_word(&mut self, word: u64) -> Result<(), OutOfMemory>
        ensures { OnOk result (self.new ≡ self.old ++ low_bits 64 word) }
    {
        self.bytes.extend_from_slice(&word.to_le_bytes())?;
        Ok(())
    }

    /// The bytes that hold the bits and those that are pending.
    pub fn finish(self, pending: Pending) -> Result<Bytes, OutOfMemory>
        ensures { IfOk result (λ bytes. bytes ≡ packed (self ++ pending)) }
    {
        let BitWriter { mut bytes } = self;
        let last = pending.word.to_le_bytes();
        bytes.extend_from_slice(&last[..pending.count.div_ceil(8) as usize])?;
        Ok(Bytes::from_vec(bytes))
    }
}

/// Fewer than 64 bits, which come after those that a writer has. Contracts see it as these.
#[derive(Drop)]
pub struct Pending {
    word: u64,
    /// How many low bits of the word these are.
    count: u32,
}

impl Model for Pending {
    ghost use Rattle.std.specs.Prelude.{List, Bool, ◌<◌, ◌^◌};
    ghost use Rattle.rice_coding.specs.Bits.{low_bits};

    ghost Value = { List Bool };

    ghost view = { λ p. low_bits p.count p.word };

    ghost invariant = { λ p. (p.count < 64) × (p.word < 2 ^ p.count) };
}

impl Pending {
    /// No bits.
    pub fn none() -> Self
        ensures { result ≡ [] }
    {
        Pending { word: 0, count: 0 }
    }

    /// Adds this many low bits of a number, and writes a word where there are 64.
    #[inline]
    fn put(self, writer: &mut BitWriter, number: u64, count: u32) -> Result<Pending, OutOfMemory>
        requires few { count < 64 }
        requires fits { number < 2 ^ count }
        ensures { IfOk result (λ pending.
            writer.new ++ pending ≡ writer.old ++ self ++ low_bits count number) }
    {
        let word = self.word | (number << self.count);
        let total = self.count + count;
        if total < 64 {
            return Ok(Pending { word, count: total });
        }
        writer.put_word(word)?;
        Ok(Pending {
            word: number >> (64 - self.count),
            count: total - 64,
        })
    }

    /// Adds the code of a delta: all of it at once where its quotient is below 32, and otherwise the
    /// ones that are too many before it.
    #[inline]
    pub fn put_code(
        self,
        writer: &mut BitWriter,
        delta: u32,
        parameter: u32,
    ) -> Result<Pending, OutOfMemory>
        requires { parameter ≤ 28 }
        ensures { IfOk result (λ pending.
            writer.new ++ pending ≡ writer.old ++ self ++ code parameter delta) }
    {
        let mut pending = self;
        let mut ones = delta >> parameter;
        while ones > 31 {
            pending = pending.put(writer, 0xffff_ffff, 32)?;
            ones -= 32;
        }
        let low = u64::from(delta & ((1 << parameter) - 1));
        // The ones are the lowest bits, then comes the zero, and above it the low bits of the delta.
        let number = ((2 * low + 1) << ones) - 1;
        pending.put(writer, number, ones + parameter + 1)
    }
}
