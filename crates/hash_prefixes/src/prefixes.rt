ghost use Rattle.std.specs.Prelude.{◌≡◌, ◌-◌, ◌≤◌, ◌↔◌, ◌++◌, length, take, replicate, nat_eq, Some, IsTrue, IsSome, IfSome, refl};
ghost use Rattle.std.specs.Int.{w32, from_be_bytes};
ghost use Rattle.std.specs.Cmp.{partial_equiv_from_equiv};
ghost use Rattle.std.specs.Cmp.Lexicographic.{pointwise, nat_list_eq_equiv, nat_list_cmp_total, texts_ties, texts_po};
ghost use Rattle.std.specs.Cmp.Rules.{hashing};
ghost use Rattle.std.specs.Hash as fed;
ghost use Rattle.std.proofs.Common.{rules};
ghost use Rattle.hex.specs.Hex.{IsBytes};
ghost use Rattle.sb_model.specs.Prefixes.{bytes_cmp};

use crate::FullHash;
use std::cmp::Ordering;
use std::hash::{Hash, Hasher};
use std::marker::Model;

/// The first 4 to 32 bytes of a full hash. Contracts see it as these bytes.
///
/// Prefixes are ordered as byte strings, so a prefix of a prefix comes first.
#[derive(Clone, Copy, Debug)]
pub struct Prefix {
    size: u8,
    bytes: [u8; 32],
}

impl Model for Prefix {
    ghost use Rattle.std.specs.Prelude.{ℕ, List};

    ghost Value = { List ℕ };

    ghost use Rattle.hash_prefixes.specs.Padded.{own_bytes, IsPadded, padded_fields, padded_fields-own_bytes};

    ghost view = { own_bytes };

    ghost invariant = { IsPadded };

    ghost inverse = { padded_fields };

    ghost inverse_ok = { padded_fields-own_bytes };
}

// The bytes, and zeros up to 32.
fn padded(bytes: &[u8]) -> [u8; 32]
    requires { length bytes.now ≤ 32 }
    ensures { result ≡ bytes.now ++ replicate (32 - length bytes.now) 0 }
{
    let mut own = [0; 32];
    own[..bytes.len()].copy_from_slice(bytes);
    own
}

// The first four bytes as a big-endian number: these numbers have the order of the bytes.
#[inline(always)]
fn leading_number(bytes: &[u8; 32]) -> u32
    ensures value { result ≡ from_be_bytes w32 bytes.now }
    ensures bytes { IsBytes bytes.now }
{
    u32::from_be_bytes([bytes[0], bytes[1], bytes[2], bytes[3]])
}

impl Prefix {
    // The prefix of these bytes.
    pub(crate) fn of(bytes: &[u8]) -> Prefix
        requires at_least { 4 ≤ length bytes.now }
        requires at_most { length bytes.now ≤ 32 }
        ensures { result ≡ bytes.now }
    {
        Prefix {
            size: bytes.len() as u8,
            bytes: padded(bytes),
        }
    }

    /// The prefix of these bytes. `None` comes exactly where there are not 4 to 32 of them.
    pub fn from_bytes(bytes: &[u8]) -> Option<Prefix>
        ensures value { IfSome result (λ prefix. prefix ≡ bytes.now) }
        ensures found { IsSome result ↔ ((4 ≤ length bytes.now) × (length bytes.now ≤ 32)) }
    {
        if bytes.len() < 4 || bytes.len() > 32 {
            return None;
        }
        Some(Prefix::of(bytes))
    }

    /// How many bytes there are.
    pub fn size(&self) -> u8
        ensures value { result ≡ length self.now }
        ensures at_least { 4 ≤ length self.now }
        ensures at_most { length self.now ≤ 32 }
    {
        self.size
    }

    /// The bytes themselves, 4 to 32 of them.
    pub fn as_bytes(&self) -> &[u8]
        ensures { result.now ≡ self.now }
    {
        &self.bytes[..self.size as usize]
    }

    /// Whether the hash begins with these bytes.
    pub fn begins(&self, hash: &FullHash) -> bool
        ensures { IsTrue result ↔ (take (length self.now) hash.now.bytes ≡ self.now) }
    {
        &hash.bytes[..self.size as usize] == self.as_bytes()
    }
}

impl PartialEq for Prefix {
    ghost eq = { pointwise nat_eq };

    ghost laws = { partial_equiv_from_equiv nat_list_eq_equiv };

    fn eq(&self, other: &Prefix) -> bool {
        self.as_bytes() == other.as_bytes()
    }
}

impl Eq for Prefix {
    ghost laws = { nat_list_eq_equiv };
}

impl PartialOrd for Prefix {
    ghost partial_cmp = { λ x y. Some (bytes_cmp x y) };

    ghost laws = { texts_po };

    fn partial_cmp(&self, other: &Prefix) -> Option<Ordering> {
        Some(self.cmp(other))
    }
}

impl Ord for Prefix {
    ghost cmp = { bytes_cmp };

    ghost total = { nat_list_cmp_total };

    ghost matches_partial_cmp = { λ x y. refl };

    ghost matches_eq = { texts_ties };

    fn cmp(&self, other: &Prefix) -> Ordering {
        // Most prefixes differ in their first four bytes.
        match leading_number(&self.bytes).cmp(&leading_number(&other.bytes)) {
            Ordering::Equal => self.as_bytes()[4..].cmp(&other.as_bytes()[4..]),
            unequal => unequal,
        }
    }
}

impl Hash for Prefix {
    ghost hash_input = { fed.slice fed.u8 };

    ghost respects_eq = { Prim.search (hashing, rules) };

    fn hash<H: Hasher>(&self, state: &mut H) {
        self.as_bytes().hash(state);
    }
}
