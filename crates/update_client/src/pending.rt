ghost use Rattle.std.specs.Prelude.{◌≤◌, length};

use prefix_set::PrefixSet;
use sb_model::Bytes;

/// What an update installs.
#[derive(Debug, Drop)]
pub(crate) struct Fresh {
    pub(crate) token: Bytes,
    pub(crate) set: PrefixSet,
    ghost short: { length token ≤ 4096 },
}

/// What an answer changes of one held list. It is put in place once the whole answer was taken.
#[derive(Debug, Drop)]
pub(crate) struct Change {
    pub(crate) fresh: Option<Fresh>,
    pub(crate) resync: bool,
}
