//! The words of a command line, read by the shape of its command, and the values that they give; the words that ask about
//! a program itself, and what is printed of it.
#![tactic(auto)]

pub use asking::{About, VERSION, about_text, asked_about};
pub use laws::clap_gives_the_same;
pub use named_lists::lists;
pub use reading::{Words, read_words};
pub use shape::{OptionKind, OptionShape, Shape};
pub use values::{HostPort, host_port, key, listen_address, number};

mod asking;
mod barred;
mod building;
mod laws;
mod named_lists;
mod reading;
mod shape;
mod values;
