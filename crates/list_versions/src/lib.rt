//! The journal of a list server, and the versions of its lists: which lists there are, each change
//! of them, and the prefixes of every version. A history is written as a journal in pieces.
#![tactic(auto)]

pub use fault::JournalFault;
pub use hash_sizes::Folding;
pub use heads::{Head, Header};
pub use history::History;
pub use laws::{
    cuts_make_no_difference, full_hashes_stand_once, journals_read_as_written,
    records_are_read_as_their_changes, texts_are_read_as_their_histories,
};
pub use lines::{read_add, read_head, read_header, read_remove};
pub use newest::Newest;
pub use printing::push_journal_cause;
pub use split::{LongLine, next_line};
pub use stretch::Stretch;
pub use writing::{push_change, push_header, push_list};

mod bucket;
mod buckets;
mod draft;
mod ends;
mod fault;
mod growing;
mod hash_sizes;
mod heads;
mod hex_digits;
mod history;
mod known;
mod laws;
mod leading;
mod lines;
mod listing;
mod lists;
mod live;
mod lookup;
mod newest;
mod numbers;
mod older;
mod pieces;
mod places;
mod printing;
mod published;
mod quads;
mod refreshing;
mod renewing;
mod renumbering;
mod shifting;
mod split;
mod standing;
mod stretch;
mod stretches;
mod toggling;
mod writing;
