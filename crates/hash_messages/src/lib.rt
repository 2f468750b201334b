//! The find messages of the Safe Browsing Update API, version 4 (`fullHashes.find`), which are read
//! strictly and written in one way.
//!
//! `specs/Messages.antt` has the request as contracts see it, `Ranges` what every message keeps,
//! `RequestRows` and `ResponseRows` the tables of their fields, `Reading` which message a JSON
//! value is, `Others` a request without unknown types and null states, `Faults` the first fault of
//! a value that is no message, `Writing` the one spelling of a message, and `Matches` what a server
//! answers.
#![tactic(auto)]

pub use laws::{
    answers_match_what_is_asked, find_values_read_one_way, find_values_read_or_have_a_fault,
    unknown_types_change_nothing, written_finds_read_again, written_matches_read_again,
};
pub use reading_asked::{AskedTypes, read_types};
pub use reading_request::read_find;
pub use reading_response::read_matches;
pub use request::FindRequest;
pub use response::{FindResponse, Match};
pub use writing_asked::{entry_values, platform_values, threat_values};
pub use writing_request::write_find;
pub use writing_response::write_matches;

mod laws;
mod reading_asked;
mod reading_request;
mod reading_response;
mod request;
mod response;
mod writing_asked;
mod writing_request;
mod writing_response;
