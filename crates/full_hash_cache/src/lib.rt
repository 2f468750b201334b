//! The kept answers to find requests of the Safe Browsing Update API, version 4: what an answer told
//! of a list and a prefix is used again until its time of keeping has passed.
//!
//! `specs/Cache.antt` has the kept pairs as contracts see them, what is said of a hash by them, and
//! what an answer leaves.
#![tactic(auto)]

pub use cache::FullHashCache;
pub use laws::{safe_hashes_were_not_returned, unsafe_hashes_were_told};
pub use pair::{Cached, Pair};

mod cache;
mod laws;
mod matches;
mod pair;
