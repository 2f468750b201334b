//! The connections of a mirror: each is taken and heard, and answered at once unless it asks a find. That one is put off, waits for its turn,
//! and is answered once its fate is known.
//!
//! `specs/Over.antt` has the connections that a door gave and those that are over, `Open` those that are put off, and `Answered` what a step
//! leaves.
#![tactic(auto)]

pub use answering::{EndedConnection, answer_begun, answer_first, refuse_begun};
pub use connections::{MirrorConnections, WaitingFind};
pub use taking::take_connection;

mod answering;
mod connections;
mod taking;
