//! What the mains of the servers share: the door at the address that the words name, and what its operator is told of it.
#![tactic(auto)]

pub use listening::{DoorWatch, ServerDoor, door_at, limits_of, tell_port};

mod listening;
