//! What a proxy holds and does in its run: its look-ups, which are answered at once or held until a find decides them, and the rounds by which it
//! keeps its lists.
//!
//! `specs/LookState.antt` has the look-ups that are held at one moment, `LookEvents` what happens to them, `LookAllowed` when it may and what
//! each connection is answered, and `LookSoFar` what the objects outside tell of it. `State`, `Events`, `Allowed` and `SoFar` have the same of
//! the whole proxy, and `Steps` and `Run` what its steps keep to.
#![tactic(auto)]

pub use looks_world::LookWorld;
pub use plan::ProxyPlan;
pub use running::run;
pub use stop::ProxyStop;
pub use world::ProxyWorld;

mod answering;
mod asking;
mod deciding;
mod ending;
mod held;
mod looking;
mod looks_world;
mod opening;
mod plan;
mod rounds;
mod running;
mod settling;
mod state;
mod stop;
mod taking;
mod telling;
mod turning;
mod world;
