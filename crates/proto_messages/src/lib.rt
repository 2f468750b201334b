//! The messages of the Safe Browsing Update API, version 4, in the wire form of Protocol Buffers: requests are read strictly, and
//! answers are written in one way.
//!
//! `specs/Fields.antt` has how the fields of a message are found among those of its bytes, `Numbers` the numbers of names, `Fetch`
//! and `Find` which request bytes are, `Reading` their relations, `Writing` the one spelling of answers, and `Answers` and
//! `FetchAnswers` what the bytes of an answer tell. `Query` has the message that stands in a query, and `Printed` the printed causes of
//! faults.
#![tactic(auto)]

pub use fault::{PartFault, ProtoFault};
pub use fetch_answer::write_fetch;
pub use fetch_request::{NumberedFetch, read_fetch};
pub use find_answer::write_matches;
pub use find_request::{NumberedFind, read_find};
pub use laws::{
    other_fields_change_nothing, queries_read_one_way, requests_are_read_or_refused,
    requests_read_one_way, written_fetches_are_read, written_matches_are_read,
};
pub use printing::push_cause;
pub use query::message_of_query;

mod client;
mod fault;
mod fetch_answer;
mod fetch_items;
mod fetch_request;
mod find_answer;
mod find_request;
mod find_types;
mod laws;
mod numbers;
mod part;
mod printing;
mod query;
mod rows;
mod sizes;
mod writing;
