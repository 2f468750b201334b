//! The fetch messages of the Safe Browsing Update API, version 4 (`threatListUpdates.fetch`), which are read strictly and
//! written in one way.
//!
//! `specs/Messages.antt` has the messages as contracts see them, `Ranges` what every one of them keeps,
//! `RequestRows` and `ResponseRows` the tables of their fields, `Reading` which message a JSON value is, `Others` a
//! request without the items of no name, `Faults` the first fault of one that is none, `Writing` the one spelling of a
//! message, `ReadAgain` that what is written reads as it, and `Answer` what a server answers.
#![tactic(auto)]

pub use client::ClientInfo;
pub use laws::{
    items_of_no_name_change_nothing, sent_numbers_rise, values_read_one_way,
    values_read_or_have_a_fault, written_requests_read_again, written_responses_read_again,
    written_values_read_again,
};
pub use reading_client::read_client;
pub use reading_request::read_request;
pub use reading_response::read_response;
pub use request::{FetchRequest, ListRequest};
pub use response::{FetchResponse, ListUpdate};
pub use sets::{Additions, Compression, Removals};
pub use writing_client::client_members;
pub use writing_request::write_request;
pub use writing_response::write_response;

mod client;
mod laws;
mod reading_client;
mod reading_items;
mod reading_request;
mod reading_response;
mod reading_sets;
mod request;
mod response;
mod rows;
mod sets;
mod writing_client;
mod writing_request;
mod writing_response;
mod writing_words;
