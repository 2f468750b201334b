//! Laws of mirrors: what their clients hold, in one mirror's words, and over a chain of mirrors in the words of a server's lists.
//!
//! `following` has that the rounds of a client leave it with the lists of its mirror, or of its server, and so what stands at the places of
//! a mirror. `specs/Mirrors.antt` has what a mirror came to, and the rounds of its clients. `strangers` has which states name no kept place
//! of a mirror and no version of a list server, so that a client that moves gets whole lists, with `specs/Strangers.antt`. `chains` has that
//! mirrors which take their lists from each other hand down the lists of the server at the top, with `specs/Chains.antt`, and `example` that
//! the premises can be met, with `specs/Example.antt`.
#![tactic(auto)]

pub use chains::{chains_lead_to_the_server, rounds_make_chains};
pub use example::{premises_of_a_chain_are_met, premises_of_rounds_are_met};
pub use following::{places_are_replicas, rounds_follow_mirrors};
pub use strangers::strangers_name_no_place;

mod chains;
mod example;
mod following;
mod strangers;
