//! The connections that a server holds: each is taken and heard, and is in hand until it is answered, or put behind those that wait for
//! something. One that waits is taken in hand again once it may be answered.
//!
//! `specs/Over.antt` has the connections that a door gave and those that are over, `Held` those that are held, and `Steps` what a step leaves.
#![tactic(auto)]

pub use answering::{EndedConnection, answer_hand, refuse_hand};
pub use held::{HeardConnection, HeldConnections, WaitingConnection};

mod answering;
mod held;
