//! The messages of the Safe Browsing Lookup API, version 4 (`threatMatches.find`), which are read strictly and written
//! in one way, and the answer to a look-up.
//!
//! `specs/Messages.antt` has the request as contracts see it, `Ranges` what every message keeps, `RequestRows` and
//! `ResponseRows` the tables of their fields, `Reading` which message a JSON value is, `Others` a request without
//! unknown types, `Faults` the first fault of a value that is no message, `Writing` the one spelling of a message, and
//! `Lookups` what a look-up is answered.
#![tactic(auto)]

pub use laws::{
    lookup_values_read_one_way, lookup_values_read_or_have_a_fault, lookups_match_what_is_asked,
    unknown_types_change_no_lookup, written_lookup_matches_read_again, written_lookups_read_again,
};
pub use reading_request::read_lookup;
pub use reading_response::read_lookup_matches;
pub use request::LookupRequest;
pub use response::{LookupMatch, LookupResponse};
pub use writing_request::write_lookup;
pub use writing_response::write_lookup_matches;

mod laws;
mod reading_request;
mod reading_response;
mod request;
mod response;
mod writing_request;
mod writing_response;
mod writing_urls;
