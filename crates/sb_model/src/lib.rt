//! The words that every crate of Kestrelplumb shares: the small collections, the names of lists,
//! and in `specs/` the definitions that clauses of several crates cite.
#![tactic(auto)]

pub use bytes::Bytes;
pub use copying::TryCopy;
pub use durations::{cache_ms, later, read_duration, wait_ms, write_duration};
pub use history::{Added, Change};
pub use laws::{
    codes_name_types, durations_are_their_digits, names_go_by_their_codes, targets_are_the_greatest,
};
pub use memory::OutOfMemory;
pub use names::{
    EntryType, ListName, NameFault, PlatformType, ThreatType, read_list_name, write_list_name,
};
pub use row::Row;
pub use steps::Steps;
pub use text::Text;
pub use time::{Duration, DurationFault, Moment};

mod bytes;
mod copying;
mod durations;
mod history;
mod laws;
mod memory;
mod names;
mod row;
mod steps;
mod text;
mod time;
