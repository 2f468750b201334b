//! The rounds of a mirror: each is begun and ended in two parts, told and saved, and what it installed is held as a place from which further
//! clients are answered.
//!
//! `specs/Rounds.antt` has rounds that were made and the one that is open, and `Ended` one that is ended, or in which the mirror stopped.
#![tactic(auto)]

pub use rounds::{MirrorRoundTold, MirrorRounds};

mod ending;
mod rounds;
mod telling;
