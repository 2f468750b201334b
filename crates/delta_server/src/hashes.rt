ghost use Rattle.std.specs.Prelude.{◌≡◌, ◌<◌, ◌^◌, List, [], length, IfOk, OnOk};
ghost use Rattle.sb_model.specs.declared.history.Added.{Added as Entry};
ghost use Rattle.sb_model.specs.History.{prefix_of, without_hash, with_added};
ghost use Rattle.delta_server.specs.Counts.{prefix_of_hash, Knows};

use hash_prefixes::{HashKey, Prefix};
use sb_model::OutOfMemory;
use std::alloc::Global;
use std::collections::HashMap;

/// The full hashes of a version, each with the prefix that is published of it. They are digests, so
/// that a fixed seed spreads them well enough.
#[derive(Drop)]
pub(crate) struct Hashes {
    pub(crate) prefixes: HashMap<HashKey, Prefix>,
}

impl Hashes {
    // No full hashes, with room for some.
    pub(crate) fn with_capacity(alloc: Global, count: usize) -> Result<Hashes, OutOfMemory>
        ensures { IfOk result (λ hashes. Knows hashes []) }
    {
        let prefixes = HashMap::with_capacity(alloc, count)?;
        Ok(Hashes { prefixes })
    }

    // Takes a full hash out, and gives its prefix where it was there.
    pub(crate) fn take(&mut self, hash: &[u8; 32]) -> Option<Prefix>
        ensures prefix { (entries : List Entry) → Knows self.old entries
            → result ≡ prefix_of_hash hash.now entries }
        ensures knows { (entries : List Entry) → Knows self.old entries
            → Knows self.new (without_hash entries hash.now) }
    {
        self.prefixes.remove(&HashKey { bytes: *hash })
    }

    // Puts a full hash in, in place of the size that it had, and gives its prefix where it was
    // there.
    pub(crate) fn put(
        &mut self,
        hash: [u8; 32],
        prefix: Prefix,
    ) -> Result<Option<Prefix>, OutOfMemory>
        ensures prefix { IfOk result (λ gone. (entries : List Entry) → Knows self.old entries
            → gone ≡ prefix_of_hash hash entries) }
        ensures knows { OnOk result ((entries : List Entry) (added : Entry) → added.hash ≡ hash
            → prefix_of added ≡ prefix → Knows self.old entries
            → Knows self.new (with_added entries added)) }
        ensures few { OnOk result ((entries : List Entry) → Knows self.new entries
            → length entries < 2 ^ 63) }
    {
        let gone = self.prefixes.insert(HashKey { bytes: hash }, prefix)?;
        // looked at for the prover: a map holds fewer than 2^63 entries
        let _ = self.prefixes.len();
        Ok(gone)
    }
}
