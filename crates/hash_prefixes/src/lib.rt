//! Full hashes and hash prefixes of Safe Browsing v4: the SHA-256 of an expression, its first
//! bytes, their hexadecimal text, and prefixes of four bytes as numbers.
#![tactic(auto)]

pub use hashes::{FullHash, full_hash};
pub use hex_text::{HexFault, append_hex, read_hex, write_hex};
pub use keys::HashKey;
pub use numbers::{hash_number, number_hash};
pub use prefixes::Prefix;

mod hashes;
mod hex_text;
mod keys;
mod numbers;
mod prefixes;
