//! The outside as traits: sources and sinks of bytes, links to another side, doors at which connections come in,
//! keepers of a text, clocks, dice and gates. Each counts its faults, and tells what it has left, holds or has logged
//! where it can. Beside them stand reading to an end, and writing whole pieces.
#![tactic(auto)]

pub use clocks::Clock;
pub use doors::{Arrival, Connection, Door};
pub use draws::Dice;
pub use gates::{Gate, OpenGate, Point};
pub use keepers::{KeepFault, Keeper};
pub use links::{Kind, Link, Session};
pub use reading::{InputFault, ReadFault, read_piece, read_to_end};
pub use shared::SharedText;
pub use traits::{Failed, Sink, Source, write_all};
pub use wires::Wire;
pub use writing::{FULL_BUFFER, flush, flush_if_full};

mod clocks;
mod doors;
mod draws;
mod gates;
mod keepers;
mod links;
mod reading;
mod shared;
mod traits;
mod wires;
mod writing;
