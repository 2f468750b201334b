ghost use Rattle.std.specs.Prelude.{◌≡◌, length};
ghost use Rattle.std.specs.Int.{w32, from_le_bytes, to_le_bytes};

use crate::Prefix;

/// A prefix of four bytes as a number, the lowest byte first, as Rice-coded updates carry it.
pub fn hash_number(prefix: &Prefix) -> u32
    requires { length prefix.now ≡ 4 }
    ensures value { result ≡ from_le_bytes w32 prefix.now }
    ensures back { to_le_bytes w32 result ≡ prefix.now }
{
    let bytes = prefix.as_bytes();
    u32::from_le_bytes([bytes[0], bytes[1], bytes[2], bytes[3]])
}

/// The prefix of four bytes that a number stands for, the lowest byte first.
pub fn number_hash(number: u32) -> Prefix
    ensures value { result ≡ to_le_bytes w32 number }
    ensures back { from_le_bytes w32 result ≡ number }
    ensures size { length result ≡ 4 }
{
    Prefix::of(&number.to_le_bytes())
}
