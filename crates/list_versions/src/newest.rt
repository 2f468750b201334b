use prefix_set::PrefixSet;
use sb_model::ListName;

/// The newest prefixes of a list, the SHA-256 digest of all of them in order, and the numbers of those
/// of four bytes, rising. The lowest byte of a number is the first of the prefix.
#[derive(Debug, Drop)]
pub struct Newest {
    pub name: ListName,
    pub set: PrefixSet,
    pub digest: [u8; 32],
    pub numbers: Vec<u32>,
}

/// A set, and the numbers of its prefixes of four bytes, rising.
#[derive(Drop)]
pub(crate) struct Numbered {
    pub set: PrefixSet,
    pub numbers: Vec<u32>,
}
