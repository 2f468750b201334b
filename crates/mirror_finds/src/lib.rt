//! The finds that a mirror passes on to the server that it asks itself: one session after the other, each begun and ended in two parts.
//!
//! A find for which memory is refused is stopped, and further ones go on.
//!
//! `specs/Finds.antt` has finds that were passed on or stopped, the one that is open, one that is ended and one that is stopped.
#![tactic(auto)]

pub use finds::{EndedFind, MirrorFinds, OpenFind};
pub use laws::mirror_finds_keep_to_waits;

mod finds;
mod laws;
