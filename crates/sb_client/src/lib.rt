//! The top call of the client programs: `sbupdate replay LIST..` reads recorded response bodies, one a
//! line, and prints the lists that result; `sbupdate run .. LIST..` makes rounds of updates with a server and
//! saves the lists; `sbcheck judge ..` judges URLs by the lists of a store; `sbcheck show` prints the canonical
//! form of URLs with their expressions, and `sbcheck vectors` how many published examples are met.
#![tactic(auto)]

pub use client::run_client;
pub use objects::Targets;
pub use targeting::targets;
pub use texts::{CHECK_USAGE, UPDATE_USAGE};

mod client;
mod command;
mod judge_words;
mod judged;
mod objects;
mod show;
mod targeting;
mod telling;
mod texts;
mod usage;
mod vectors;
