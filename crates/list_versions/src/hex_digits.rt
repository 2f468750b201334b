ghost use Rattle.std.specs.Prelude.{◌≡◌, length, IfSome};
ghost use Rattle.hex.specs.Hex.{hex_digit_value};
ghost use Rattle.list_versions.specs.Hexes.{digit_of, byte_of_digits};
ghost use Rattle.list_versions.specs.Lines.{hash_of};

// The values of the hexadecimal digits of both cases, each at its byte, and 255 at any other byte.
static DIGIT_VALUES: [u8; 256] = [
    255, 255, 255, 255, 255, 255, 255, 255, 255, 255, 255, 255, 255, 255, 255, 255, 255, 255, 255,
    255, 255, 255, 255, 255, 255, 255, 255, 255, 255, 255, 255, 255, 255, 255, 255, 255, 255, 255,
    255, 255, 255, 255, 255, 255, 255, 255, 255, 255, 0, 1, 2, 3, 4, 5, 6, 7, 8, 9, 255, 255, 255,
    255, 255, 255, 255, 10, 11, 12, 13, 14, 15, 255, 255, 255, 255, 255, 255, 255, 255, 255, 255,
    255, 255, 255, 255, 255, 255, 255, 255, 255, 255, 255, 255, 255, 255, 255, 255, 10, 11, 12, 13,
    14, 15, 255, 255, 255, 255, 255, 255, 255, 255, 255, 255, 255, 255, 255, 255, 255, 255, 255,
    255, 255, 255, 255, 255, 255, 255, 255, 255, 255, 255, 255, 255, 255, 255, 255, 255, 255, 255,
    255, 255, 255, 255, 255, 255, 255, 255, 255, 255, 255, 255, 255, 255, 255, 255, 255, 255, 255,
    255, 255, 255, 255, 255, 255, 255, 255, 255, 255, 255, 255, 255, 255, 255, 255, 255, 255, 255,
    255, 255, 255, 255, 255, 255, 255, 255, 255, 255, 255, 255, 255, 255, 255, 255, 255, 255, 255,
    255, 255, 255, 255, 255, 255, 255, 255, 255, 255, 255, 255, 255, 255, 255, 255, 255, 255, 255,
    255, 255, 255, 255, 255, 255, 255, 255, 255, 255, 255, 255, 255, 255, 255, 255, 255, 255, 255,
    255, 255, 255, 255, 255, 255, 255, 255, 255, 255, 255, 255, 255, 255, 255, 255, 255, 255, 255,
    255, 255, 255,
];

// The value of a digit; 16 or more where the byte is none.
#[inline(always)]
fn value_of(byte: u8) -> u8
    ensures { digit_of result ≡ hex_digit_value byte }
{
    DIGIT_VALUES[byte as usize]
}

// The byte that two digits write.
#[inline(always)]
fn byte_of(high: u8, low: u8) -> Option<u8>
    ensures { result ≡ byte_of_digits high low }
{
    let high = value_of(high);
    let low = value_of(low);
    if high > 15 || low > 15 {
        return None;
    }
    Some(high * 16 + low)
}

/// Reads the 64 digits of a full hash.
pub(crate) fn read_hash(digits: &[u8]) -> Option<[u8; 32]>
    ensures value { result ≡ hash_of digits.now }
    ensures whole { IfSome result (λ hash. length hash ≡ 32) }
{
    if digits.len() != 64 {
        return None;
    }
    let mut hash = [0; 32];
    'bytes: for i in 0..32 {
        let byte = byte_of(digits[2 * i], digits[2 * i + 1])?;
        hash[i] = byte;
    }
    Some(hash)
}
