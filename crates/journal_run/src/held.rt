ghost use Rattle.std.specs.Prelude.{◌≡◌, ◌<◌, true, map, IfOk};
ghost use Rattle.sb_model.specs.History.{declares};
ghost use Rattle.sb_journal.specs.Records.{newest_hashes};

use hash_prefixes::FullHash;
use list_versions::History;
use sb_model::{ListName, OutOfMemory, Row, Steps};
use std::alloc::Global;
use std::marker::Brand;
use std::sync::ledger::{Blank, Ledger};

/// The newest full hashes of a list, rising, in counted steps.
fn hashes_counted<L: Ledger>(
    blank: Blank,
    alloc: Global,
    history: &History,
    list: ListName,
) -> Result<Row<FullHash>, OutOfMemory>
    requires name { blank.name ≡ L.name }
    requires parts { blank.parts ≡ L.parts }
    requires some { 0 < blank.parts }
    requires declared { declares history.now.versions list ≡ true }
    ensures { IfOk result (λ hashes. map (λ hash. hash.bytes) hashes ≡ newest_hashes history.now.versions list) }
{
    let mut steps = Steps::<L>::new(blank);
    history.hashes_counted(alloc, list, history.len(), &mut steps)
}

/// The newest full hashes of a declared list, rising.
pub(crate) fn newest_hashes(
    alloc: Global,
    history: &History,
    list: ListName,
) -> Result<Row<FullHash>, OutOfMemory>
    requires { declares history.now.versions list ≡ true }
    ensures { IfOk result (λ hashes. map (λ hash. hash.bytes) hashes ≡ newest_hashes history.now.versions list) }
{
    hashes_counted::<Brand>(Blank::new(1), alloc, history, list)
}
