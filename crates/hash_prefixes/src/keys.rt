ghost use Rattle.std.specs.Prelude.{[], ◌∷◌, take, nat_eq};
ghost use Rattle.std.specs.Cmp.{partial_equiv_from_equiv};
ghost use Rattle.std.specs.Cmp.Lexicographic.{pointwise, nat_list_eq_equiv};
ghost use Rattle.std.proofs.Common.{ap};
ghost use Rattle.std.proofs.lemmas.Slice.Eq.{bytes_eq-Decides};

use std::hash::{Hash, Hasher};
use std::marker::Model;

/// A full hash as the key of a map, of which the first eight bytes are hashed: no more than 16 of the
/// full hashes of a version share their first four. Contracts see it as its bytes.
#[derive(Debug, Drop)]
pub struct HashKey {
    pub bytes: [u8; 32],
}

impl Model for HashKey {
    ghost use Rattle.std.specs.Prelude.{ℕ, List};

    ghost Value = { List ℕ };

    ghost view = { λ key. key.bytes };
}

impl PartialEq for HashKey {
    ghost eq = { pointwise nat_eq };

    ghost laws = { partial_equiv_from_equiv nat_list_eq_equiv };

    fn eq(&self, other: &HashKey) -> bool {
        self.bytes == other.bytes
    }
}

impl Eq for HashKey {
    ghost laws = { nat_list_eq_equiv };
}

impl Hash for HashKey {
    ghost hash_input = { λ key. take 8 key ∷ [] };

    ghost respects_eq = { λ x y same. ap (λ bytes. take 8 bytes ∷ []) ((bytes_eq-Decides x y).0 same) };

    fn hash<H: Hasher>(&self, state: &mut H) {
        state.write(&self.bytes[..8]);
    }
}
