ghost use Rattle.std.specs.Prelude.{◌≡◌, ℕ, ◌^◌, ◌<◌, ◌≤◌, ◌==◌, Bool, false, List, length, drop, slice_index_or, IfSome, Some};
ghost use Rattle.std.specs.Int.{bit_at};
ghost use Rattle.rice_coding.specs.Reading.{delta_at};

/// A delta, and how many bits its code takes.
#[derive(Clone, Copy)]
pub struct Code {
    pub delta: u64,
    pub length: u32,
}

/// The code that comes first, where it stands whole in the low `valid` bits of a word.
#[inline]
pub fn code_in(word: u64, valid: u32, parameter: u32) -> Option<Code>
    requires word { valid ≤ 57 }
    requires few { parameter ≤ 28 }
    ensures short { IfSome result (λ code. code.length ≤ valid) }
    ensures small { IfSome result (λ code. code.delta < 2 ^ 34) }
    // It is the first code of any bits that begin with these.
    ensures first { IfSome result (λ code. (bits : List Bool) → valid ≤ length bits
        → ((i : ℕ) → i < valid → slice_index_or bits i false ≡ (bit_at word i == 1))
        → delta_at parameter bits ≡ Some (code.delta, drop code.length bits)) }
{
    let ones = word.trailing_ones();
    let length = ones + parameter + 1;
    if length > valid {
        return None;
    }
    let low = (word >> (ones + 1)) & ((1 << parameter) - 1);
    Some(Code {
        delta: (u64::from(ones) << parameter) + low,
        length,
    })
}
