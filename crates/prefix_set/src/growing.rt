ghost use Rattle.std.specs.Prelude.{◌≡◌, ⊤, ℕ, ◌-◌, ◌≤◌, List, [], ◌∷◌, ◌++◌, length, take, drop, OnOk};
ghost use Rattle.sb_model.specs.Prefixes.{concatenation};
ghost use Rattle.sb_model.specs.History.{IsPrefixSize};

use crate::packed::PackedPrefixes;
use sb_model::OutOfMemory;
use sha2::Digest;
use std::convert::AsSlice;
use std::marker::Model;

// How many bytes are hashed at once, or more: many short pieces would cost more than a long one.
const PIECE: usize = 16_384;

/// A hash function whose digest is nothing, for sets of which no digest is asked.
#[derive(Drop)]
pub(crate) struct NoDigest;

impl Digest for NoDigest {
    type Output = ();

    ghost holds = { λ _ _. ⊤ };

    ghost digest_of = { λ _ _. ⊤ };

    ghost size = { 0 };

    fn output_size() -> usize {
        0
    }

    fn new() -> NoDigest {
        NoDigest
    }

    fn update<T: AsSlice<u8> + Drop>(&mut self, _data: T) {}

    fn finalize(self) {}
}

/// The members of a set that is being made, and a hasher that follows them. Contracts see it as the
/// members.
#[derive(Drop)]
pub(crate) struct Growing<D: Digest> {
    members: PackedPrefixes,
    hasher: D,
    // how many of the members' bytes the hasher has
    hashed: usize,
}

impl<D: Digest> Model for Growing<D> {
    ghost use Rattle.std.specs.Prelude.{ℕ, List, ◌≤◌, length, take};
    ghost use Rattle.sb_model.specs.Prefixes.{concatenation};

    ghost Value = { List (List ℕ) };

    ghost view = { λ g. g.members };

    ghost invariant = { λ g. (g.hashed ≤ length (concatenation g.members))
        × D.holds g.hasher (take g.hashed (concatenation g.members)) };
}

/// The members of a set, and a hasher that has their bytes.
#[derive(Drop)]
pub(crate) struct Grown<D> {
    pub(crate) members: PackedPrefixes,
    pub(crate) hasher: D,
}

impl<D: Digest> Growing<D> {
    /// A set that begins with these members.
    pub(crate) fn of(members: PackedPrefixes) -> Self
        ensures { result ≡ members }
    {
        Growing {
            members,
            hasher: D::new(),
            hashed: 0,
        }
    }

    /// Appends one member.
    pub(crate) fn push(&mut self, member: &[u8]) -> Result<(), OutOfMemory>
        requires { IsPrefixSize (length member.now) }
        ensures { OnOk result (self.new ≡ self.old ++ member.now ∷ []) }
    {
        self.members.push(member)?;
        self.follow();
        Ok(())
    }

    /// Appends the members of another list from a place on and before another place.
    pub(crate) fn push_range(
        &mut self,
        other: &PackedPrefixes,
        from: usize,
        to: usize,
    ) -> Result<(), OutOfMemory>
        requires order { from ≤ to }
        requires within { to ≤ length other.now }
        ensures { OnOk result (self.new ≡ self.old ++ take (to - from) (drop from other.now)) }
    {
        self.members.push_range(other, from, to)?;
        self.follow();
        Ok(())
    }

    // Hashes what came since, where it is enough for a piece.
    #[inline]
    fn follow(&mut self)
        ensures { self.new ≡ self.old }
    {
        if self.members.byte_len() - self.hashed >= PIECE {
            self.hash_rest();
        }
    }

    // Hashes what came since.
    fn hash_rest(&mut self)
        ensures { self.new ≡ self.old }
    {
        self.hasher.update(self.members.bytes_from(self.hashed));
        self.hashed = self.members.byte_len();
    }

    /// The members, and the hasher with all their bytes.
    pub(crate) fn finish(self) -> Grown<D>
        ensures members { result.members ≡ self }
        ensures hasher { D.holds result.hasher (concatenation self) }
    {
        let Growing {
            members,
            mut hasher,
            hashed,
        } = self;
        hasher.update(members.bytes_from(hashed));
        Grown { members, hasher }
    }
}
