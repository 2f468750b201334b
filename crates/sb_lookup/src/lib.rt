//! The look-up service of a list server: which of some URLs are on its lists, and the names of these.
//!
//! `specs/Lookups.antt` has both answers.
#![tactic(auto)]

pub use answering::answer_lookup;
pub use laws::served_lookups_match_full_hashes;
pub use listing::write_lists;

mod answering;
mod laws;
mod listing;
