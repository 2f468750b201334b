//! A line of a program: a link, a clock and dice that are its own.
#![tactic(auto)]

pub use line::OwnLine;

mod line;
