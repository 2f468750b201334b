//! A door that gathers, but for its sockets: what a connection costs and how long it may take, what becomes of it with each
//! thing that happens, who gives way, what an error of `accept` means, and the wire that is handed out. All of it are values.
//!
//! `specs/Connections.antt` has what becomes of a connection, `Deadlines` until when, `Giving` who gives way, `Accepting` the
//! errors of `accept`, and `Wires` the wire.
#![tactic(auto)]

pub use accepting::{AcceptFault, accept_fault};
pub use addresses::{Address, address_of};
pub use counting::counted;
pub use crowds::Crowd;
pub use gathered::Gathered;
pub use limits::DoorLimits;
pub use outgoing::Outgoing;
pub use phases::{Ending, Phase, due_at, is_due};
pub use rooms::{HouseRoom, after_no_room, risen, whole_room};
pub use rows::{Place, Rows};
pub use shares::Shares;
pub use steps::{Heard, Sent, Step, after_answer, after_read, after_write};
pub use texts::Texts;
pub use turns::{Candidate, InLine, first_to_yield, first_turn};
pub use wires::GatheredWire;

mod accepting;
mod addresses;
mod counting;
mod crowds;
mod gathered;
mod limits;
mod outgoing;
mod own_bytes;
mod phases;
mod rooms;
mod rows;
mod shares;
mod steps;
mod texts;
mod turns;
mod wires;
