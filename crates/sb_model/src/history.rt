use crate::{ListName, Row};

/// A full hash that a change adds, with the size of its prefix.
#[derive(Clone, Copy, Debug, PartialEq, Eq, Hash)]
pub struct Added {
    /// The full hash, a SHA-256 digest.
    pub hash: [u8; 32],
    /// How many bytes of the hash are published, from 4 to 32.
    pub size: u8,
}

/// One recorded change of one list: what it takes out, and then what it puts in.
#[derive(Debug, Drop)]
pub struct Change {
    pub list: ListName,
    pub adds: Row<Added>,
    pub removes: Row<[u8; 32]>,
}
