//! Records of a journal that are made from URLs, so that a list has the hashes of the URLs that an operator names.
//!
//! An input has a URL a line. Each stands for the full hash of its own expression, which is its host, its path and its
//! query as they stand in its canonical form. `specs/Feed.antt` says what lines say, `Records` how hash lines become
//! changes, and `Changes` which changes lead to the hashes of an input.
//!
//! - `read_urls` reads an input within its limits. `read_feed` takes the hashes of its URLs, and tells of each line
//!   whose URL has no canonical form.
//! - `put_in_order` makes hashes a rising list without repeats. `leading_lines` has what leads from the hashes that a
//!   list has to those that are wanted.
//! - `read_edits` reads lines that put a URL in or take one out. `last_lines` keeps the last line of each hash.
//! - `push_records` writes hash lines as records of a journal.
//! - `synced_lists_have_what_is_wanted` is the law that what leads to wanted hashes leaves a list exactly these.
//! - `changed_lists_have_what_lines_say` is the law of what lines with a sign leave, and `hash_lines_may_follow` that records of
//!   hash lines may follow a history.
//!
//! No command stands here. The crate reads no journal: its caller says which hashes a list has, and whether each line that
//! puts in names its size. The text of records is proved to be that of the changes. That it is read on as these changes
//! after a journal is a law of `list_versions`. Nothing here looks whether the journal then keeps its limits.
#![tactic(auto)]

pub use compacting::{push_puts, put_entries_in_order};
pub use edits::{Edits, read_edits};
pub use feed::{Feed, read_feed};
pub use hash_line::HashLine;
pub use input::{next_line, read_urls};
pub use known::{entries_have_bytes, lines_have_hashes};
pub use lasting::last_lines;
pub use laws::{
    changed_lists_have_what_lines_say, compacted_histories_have_texts,
    compacted_lists_are_the_newest, hash_lines_may_follow, synced_lists_have_what_is_wanted,
    synced_records_may_follow,
};
pub use records::push_records;
pub use sets::{leading_lines, put_in_order};
pub use urls::push_refusal;

mod compacting;
mod edits;
mod feed;
mod hash_line;
mod input;
mod known;
mod lasting;
mod laws;
mod records;
mod sets;
mod urls;
