//! The input of a client's command: it is read whole within its limits, and taken apart line by line.
//!
//! `specs/Lines.antt` says what the lines of a text are and which limits an input has, `Input` what a source gave where
//! its input was not read to its end, and `Ending` how a command ends that reads its input whole and then writes a text of
//! it. `Writing` and `Ways` are for proofs about texts on their way to a sink.
#![tactic(auto)]

pub use input::{MAX_INPUT, MAX_LINES, first_line, read_input};
pub use laws::{fronts_are_within, lines_are_the_input};
pub use rows::{Lines, split_lines};
pub use stop::Stop;

mod input;
mod laws;
mod rows;
mod stop;
