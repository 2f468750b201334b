ghost use Rattle.std.specs.Prelude.{◌≤◌};

/// What a client asks for beside its lists.
#[derive(Clone, Copy, Debug, PartialEq, Eq)]
pub struct FetchOptions {
    /// The most entries that an update may have, at most 2,147,483,647; 0 for no limit.
    pub max_update: u32,
    /// The most entries that a list may have afterwards, at most 2,147,483,647; 0 for no limit.
    pub max_database: u32,
    /// Whether Rice coded sets are not taken.
    pub raw_only: bool,
    ghost update_limit: { max_update ≤ 2147483647 },
    ghost database_limit: { max_database ≤ 2147483647 },
}
