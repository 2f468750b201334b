use thiserror::Error;

/// Why a text is no store. What is looked at is its length, then its first four bytes, its format,
/// its digest, and at last its fields.
#[derive(Clone, Copy, Debug, PartialEq, Eq, Error)]
pub enum StoreFault {
    /// 1: the length of a text of fewer than 38 bytes; 0 where a text does not begin with `SBST`;
    /// else the place, counted from 0, where the first field that breaks a rule begins, or of the
    /// byte after the last list.
    #[error("the store is malformed at byte {0}")]
    Shape(u64),
    /// 2: the SHA-256 of the bytes before the digest, and the digest.
    #[error("the digest of the store is wrong")]
    Digest { got: [u8; 32], given: [u8; 32] },
    /// 3: the number of a format that is neither 1 nor 2.
    #[error("the store has the unknown format {0}")]
    Format(u8),
    /// Memory was refused.
    #[error("out of memory")]
    OutOfMemory,
}
