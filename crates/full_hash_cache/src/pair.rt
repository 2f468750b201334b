use hash_prefixes::Prefix;
use sb_model::ListName;

/// A list and a prefix, which answers are kept for.
#[derive(Clone, Copy, Debug, PartialEq, Eq, Hash)]
pub struct Pair {
    pub list: ListName,
    pub prefix: Prefix,
}

/// What the kept answers say of a hash.
#[derive(Clone, Copy, Debug, PartialEq, Eq)]
pub enum Cached {
    /// The list has the hash.
    Unsafe,
    /// The list does not have the hash.
    Safe,
    /// The server has to be asked.
    Ask,
}
