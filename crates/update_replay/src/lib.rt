//! `sbupdate replay`: recorded response bodies, one a line, are taken to lists of which nothing is held before, and what became of
//! each is printed, and then the lists.
//!
//! `specs/Readings.antt` has what a line is to a client, `Printed` the text, `Replay` what a replay says of its input and its
//! output, `Law` that of honest bodies it prints replicas, and `Example` a small replay that meets every premise of that.
#![tactic(auto)]

pub use laws::{premises_are_met, replays_print_replicas};
pub use replaying::replay;

mod laws;
mod lines;
mod printing;
mod replaying;
