ghost use Rattle.std.specs.Prelude.{◌≡◌, ◌≤◌, true, false, IfOk, IfSome, IfNone};
ghost use Rattle.sb_model.specs.History.{declares, version_count, prefixes_at};
ghost use Rattle.delta_server.specs.Served.{IsServedList};

use list_versions::History;
use prefix_set::PrefixSet;
use sb_model::{ListName, OutOfMemory};
use std::alloc::Global;

/// A declared list: its newest prefixes with their digest and the numbers of those of four bytes,
/// and its declared prefix size in bytes.
#[derive(Clone, Copy)]
pub(crate) struct Served<'a> {
    pub(crate) set: &'a PrefixSet,
    pub(crate) digest: [u8; 32],
    pub(crate) numbers: &'a [u32],
    pub(crate) size: u8,
}

/// A list of a history; `None` exactly where the history does not declare it.
pub(crate) fn served_list(history: &History, list: ListName) -> Option<Served<'_>>
    ensures served { IfSome result (λ served. IsServedList served history.now.versions list) }
    ensures none { IfNone result (declares history.now.versions list ≡ false) }
{
    let Some(size) = history.declared(list) else {
        return None;
    };
    let Some(newest) = history.newest(list) else {
        return None;
    };
    Some(Served {
        set: &newest.set,
        digest: newest.digest,
        numbers: newest.numbers.as_slice(),
        size,
    })
}

/// The prefixes of a declared list at a version.
pub(crate) fn set_at(
    alloc: Global,
    history: &History,
    list: ListName,
    version: u64,
) -> Result<PrefixSet, OutOfMemory>
    requires declared { declares history.now.versions list ≡ true }
    requires within { version ≤ version_count history.now.versions }
    ensures { IfOk result (λ set. set ≡ prefixes_at history.now.versions list version) }
{
    let Some(set) = history.prefixes(alloc, list, version)? else {
        unreachable!()
    };
    Ok(set)
}
