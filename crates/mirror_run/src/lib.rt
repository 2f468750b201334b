//! A run of a mirror: in each turn what is due is begun, what is answered is ended, and a connection is taken.
//!
//! `specs/State.antt` has a mirror at one moment, `Events` what happens, `Allowed` when it may, and `SoFar` what the objects outside tell of it.
#![tactic(auto)]

pub use plan::MirrorPlan;
pub use running::run;
pub use stop::MirrorStop;
pub use world::MirrorWorld;

mod answering;
mod ending;
mod finds;
mod opening;
mod plan;
mod rounds;
mod running;
mod state;
mod stop;
mod taking;
mod turning;
mod world;
