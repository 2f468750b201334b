//! The sessions in which a client asks for full hashes (`fullHashes.find` of the Safe Browsing Update API, version 4). Each keeps to the
//! moments which the API allows ("Request Frequency"), is held in two parts, and comes to a message or to a fault.
//!
//! `specs/Asking.antt` has the session of a request that is given, and what its outcome comes to; `Passing` a find that another client asked
//! and that is passed on, and that such finds keep to their waits one after the other.
#![tactic(auto)]

pub use asking::{AnsweredFind, begin_find_session, bids, end_find_session};
pub use laws::passed_finds_keep_to_waits;
pub use passing::{begin_passed, end_passed};

mod asking;
mod laws;
mod passing;
