use hash_prefixes::FullHash;
use sb_model::{Duration, ListName, Row};

/// A full hash of a list, which begins with an asked prefix.
#[derive(Clone, Copy, Debug, PartialEq, Eq, Hash)]
pub struct Match {
    pub name: ListName,
    pub hash: FullHash,
    /// How long the client may keep it; zero where the answer tells none.
    pub cache: Duration,
}

/// The answer to a find request.
#[derive(Debug, Drop)]
pub struct FindResponse {
    /// The full hashes that begin with an asked prefix, each with a list that has it.
    pub matches: Row<Match>,
    /// How long the client waits at least before its next find request; zero where it need not.
    pub wait: Duration,
    /// How long the client may keep that an asked prefix begins no further full hash.
    pub negative: Duration,
}
