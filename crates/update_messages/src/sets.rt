use rice_coding::RiceRecord;
use sb_model::{Bytes, Row};

/// How the entries of a set are written: the field `compressionType`.
#[derive(Clone, Copy, Debug, PartialEq, Eq, Hash)]
pub enum Compression {
    /// As they are.
    Raw,
    /// As Rice codes of their differences.
    Rice,
}

/// A set of hash prefixes that are to be added.
#[derive(Debug, Drop)]
pub enum Additions {
    /// Prefixes of one size, one after the other.
    Raw {
        /// The size of each prefix, from 4 to 32 bytes.
        size: u8,
        /// Their bytes, as many as a multiple of the size.
        bytes: Bytes,
    },
    /// Prefixes of four bytes as numbers, the lowest byte first.
    Rice(RiceRecord),
}

/// A set of places, counted from 0 in the sorted list, whose prefixes are to be removed.
#[derive(Debug, Drop)]
pub enum Removals {
    /// The places, each at most 2,147,483,647.
    Raw(Row<u32>),
    /// The places as a Rice record.
    Rice(RiceRecord),
}
