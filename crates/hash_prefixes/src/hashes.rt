ghost use Rattle.std.specs.Prelude.{◌≡◌, ◌≤◌, take};
ghost use Rattle.sha2.specs.Sha256.{sha256};

use crate::Prefix;
use sha2::{Digest, Sha256};

/// The SHA-256 digest of an expression. Full hashes are ordered as byte strings.
#[derive(Clone, Copy, Debug, PartialEq, Eq, PartialOrd, Ord, Hash)]
pub struct FullHash {
    pub bytes: [u8; 32],
}

/// The SHA-256 digest of the bytes of a text (FIPS 180-4, section 6.2).
pub fn full_hash(text: &[u8]) -> FullHash
    ensures { result.bytes ≡ sha256 text.now }
{
    FullHash {
        bytes: Sha256::digest(text),
    }
}

impl FullHash {
    /// The first `size` bytes, 4 to 32 of them.
    pub fn prefix(&self, size: u8) -> Prefix
        requires at_least { 4 ≤ size }
        requires at_most { size ≤ 32 }
        ensures { result ≡ take size self.now.bytes }
    {
        Prefix::of(&self.bytes[..size as usize])
    }
}
