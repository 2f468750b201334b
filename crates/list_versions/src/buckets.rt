ghost use Rattle.std.specs.Prelude.{◌≡◌, IfOk, OnOk};
ghost use Rattle.list_versions.specs.Buckets.{IsTally, without, with_line};
ghost use Rattle.list_versions.specs.Live.{lines_in, PutsBucket};

use crate::bucket::{Bucket, Standing, Tally};
use sb_model::OutOfMemory;
use std::alloc::Global;
use std::collections::HashMap;

/// The first four bytes of a full hash.
pub(crate) type HashHead = [u8; 4];

/// The lines that stand, by the first four bytes of their full hashes. These are bytes of a digest,
/// so that a fixed seed spreads them well enough.
pub(crate) type Buckets = HashMap<HashHead, Bucket>;

/// The lines whose full hashes begin with these bytes.
pub(crate) fn lines_at<'a>(buckets: &'a Buckets, head: &HashHead) -> &'a [Standing]
    ensures { result.now ≡ lines_in buckets.now.entries head.now }
{
    match buckets.get(head) {
        Some(bucket) => bucket.as_slice(),
        None => &[],
    }
}

/// Takes a full hash out of its bucket.
pub(crate) fn remove_at(buckets: &mut Buckets, head: &HashHead, hash: &[u8; 32]) -> Tally
    ensures puts { PutsBucket buckets.old.entries buckets.new.entries head.now
        (without (lines_in buckets.old.entries head.now) hash.now) }
    ensures tally { IsTally (lines_in buckets.old.entries head.now)
        (without (lines_in buckets.old.entries head.now) hash.now) result }
{
    match buckets.get_mut(head) {
        Some(bucket) => bucket.remove(hash),
        None => Bucket::empty().remove(hash),
    }
}

/// Puts a line into its bucket, in place of that which its full hash had.
pub(crate) fn put_at(
    buckets: &mut Buckets,
    alloc: Global,
    head: HashHead,
    line: Standing,
) -> Result<Tally, OutOfMemory>
    ensures puts { OnOk result (PutsBucket buckets.old.entries buckets.new.entries head
        (with_line (lines_in buckets.old.entries head) line)) }
    ensures tally { IfOk result (IsTally (lines_in buckets.old.entries head)
        (with_line (lines_in buckets.old.entries head) line)) }
{
    let bucket = buckets.entry(head)?.or_insert(Bucket::empty());
    bucket.put(alloc, line)
}
