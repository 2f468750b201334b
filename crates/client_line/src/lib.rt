//! A client's line to its server: a link, the clock by which sessions on it begin and end, and the dice of the waits between them.
//!
//! `specs/Told.antt` has what the objects outside a client tell, and by how much more later; `Lines` a line as contracts see it,
//! and what each call on it does.
#![tactic(auto)]

pub use lent::LentLine;
pub use lines::Line;

mod lent;
mod lines;
