//! Runs of a client: the lists that it holds after the responses so far, and what ties them to a server's history.
//!
//! `specs/Run.antt` has the lists after any number of bodies, `Honest` and `Collision` what is asked of the bodies and of
//! SHA-256, `Law` what follows: lists that are replicas of a server's stay replicas. `Round` has one round of updates over
//! a link, `Rounds` a run of them, `Sessions` what the sessions of a log bring, and `Printed` rounds and the results of
//! updates as they are printed. How a session keeps to its wait is defined in `timed_sessions`.
#![tactic(auto)]

pub use asking::begin_round;
pub use laws::{
    logs_have_one_list_of_bodies, replicas_stay, rounds_are_their_sessions, rounds_go_on,
    rounds_keep_to_waits,
};
pub use printing::{push_name, push_taken};
pub use round_lines::{push_round, push_round_line, push_update_line};
pub use rounds::{RoundEnd, RoundFault, Taken};
pub use running::{end_round, run_round};

mod asking;
mod laws;
mod printing;
mod round_lines;
mod rounds;
mod running;
mod taking;
