//! A desk of finds: what answers a client keeps, when its next find may be sent, and the find that is open. Hits are looked up at it at any
//! time; one find after the other asks for those that are open, for several who wait, and is begun and ended in two parts.
//!
//! `specs/Events.antt` has what is looked up and found so far, `Desk` what it makes of a desk, and `Verdicts` to which look and which find a
//! verdict goes back.
#![tactic(auto)]

pub use desk::{EndedFind, FindDesk, OpenDeskFind};
pub use laws::{desks_keep_to_waits, finds_ask_for_open_hits, looks_stay};
pub use verdicts::verdict_after;

mod desk;
mod laws;
mod verdicts;
