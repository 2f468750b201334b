//! A run of a client: it begins with the lists that its keeper kept, makes rounds of updates over a link, saves its lists
//! after each round that installed one, and prints what became of all.
//!
//! `specs/Opening.antt` has what a run begins with, `Saved` what the keeper is handed, `Printed` the text, `Run` a whole run
//! and one that stopped, `Steps` the steps that a run is made of, which can be taken one by one, with the law that they go on,
//! and `Stepping` what they save and where they stop.
#![tactic(auto)]

pub use client::Client;
pub use laws::{saves_go_on, steps_go_on, steps_save_and_stop};
pub use opening::{load_lists, open_store};
pub use plan::Plan;
pub use printing::push_list_line;
pub use rounding::{RoundTold, make_round, take_round, write_page};
pub use running::run;
pub use saving::tell_round;
pub use stop::RunStop;

mod client;
mod laws;
mod opening;
mod plan;
mod printing;
mod rounding;
mod running;
mod saving;
mod stop;
