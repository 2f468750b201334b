//! What a list server answers under the names that are asked: a name whose list is not declared is answered by the list for any
//! platform, under the asked name.
//!
//! `answering_lists` says which list answers for a name, and `specs/Answers.antt` has both answers.
#![tactic(auto)]

pub use fetching::answer_named_fetch;
pub use finding::answer_named_find;
pub use laws::{declared_names_are_answered_as_before, named_answers_have_asked_names};

mod asking;
mod fetching;
mod finding;
mod laws;
mod naming;
