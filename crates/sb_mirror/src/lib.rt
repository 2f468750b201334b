//! The top call of the mirror program: its command line, its usage text, and its run. A mirror is a client of one list server, and
//! answers further clients from the lists that it holds, with state tokens of its own.
#![tactic(auto)]

pub use mirror::{USAGE, run_mirror};
pub use targets::{MirrorRoom, MirrorTargets, mirror_targets};
pub use world::mirror_world;

mod mirror;
mod serving;
mod targets;
mod telling;
mod world;
