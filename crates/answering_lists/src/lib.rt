//! Which list of a history answers for a name that a request asks: its own, or the one for any platform.
//!
//! `specs/Lists.antt` says it.
#![tactic(auto)]

pub use answering::{answering_list, for_any_platform, is_answered_for_any};
pub use laws::answered_names_are_those_of_lists;
pub use names::answered_names;

mod answering;
mod laws;
mod names;
