ghost use Rattle.std.specs.Prelude.{◌≡◌, length, filter, slice_set};
ghost use Rattle.list_versions.specs.Ends.{ended_at, is_of, restored, restored_end};

use crate::bucket::Standing;

/// The end of a line that has none yet.
pub(crate) const NEVER: u32 = 4_294_967_295;

// The line at a place ends at a version.
fn end_at(ends: &mut Vec<u32>, place: u32, version: u32)
    ensures { ends.new.items ≡ slice_set ends.old.items place version }
{
    let place = place as usize;
    if place < ends.len() {
        ends[place] = version;
    }
}

/// Those of the lines that are of a hash end at a version.
pub(crate) fn end_each(ends: &mut Vec<u32>, lines: &[Standing], hash: &[u8; 32], version: u32)
    ensures { ends.new.items ≡ ended_at version ends.old.items (filter (is_of hash.now) lines.now) }
{
    for line in lines {
        if line.added.hash == *hash {
            end_at(ends, line.place, version);
        }
    }
}

// The end of a line, or none where it is above a version.
fn restored_end(end: u32, version: usize) -> u32
    ensures { result ≡ restored_end version end }
{
    if end as usize > version { NEVER } else { end }
}

/// Leaves the ends of the first lines, and none above a version.
pub(crate) fn restore(ends: &mut Vec<u32>, count: usize, version: usize)
    ensures { ends.new.items ≡ restored version count ends.old.items }
{
    ends.truncate(count);
    for end in ends.iter_mut() {
        *end = restored_end(*end, version);
    }
}
