//! The rounds by which a client keeps its lists current, each begun and ended in two parts: it is told, and the lists are saved if it
//! installed one.
//!
//! `specs/Rounds.antt` has the rounds that a client has ended and the one that is open, and `Ended` how that one ends, or where the client
//! stops in it.
#![tactic(auto)]

pub use rounds::{ClientRoundTold, ClientRounds};

mod ending;
mod rounds;
mod telling;
