//! A door at a TCP port that waits for all its peers at once, on one thread: it gathers requests, hands out connections whose
//! request is decided, and sends answers while others are served. What it does with a connection is the values of
//! `gathering`; this is the loop that carries them out.
#![tactic(auto)]

pub use door::TcpDoor;
pub use losses::Losses;
pub use teller::Teller;
pub use why::DoorFault;

mod answers;
mod door;
mod door_time;
mod guests;
mod house;
mod line;
mod losses;
mod open;
mod port;
mod teller;
mod why;
