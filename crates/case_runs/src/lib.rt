//! Programs of cases: they read cases from their input, have programs run them over objects in memory, and print each that comes to
//! something else than it says. Which programs these are is a parameter, so that each top call has a program of cases of its own.
//! The sessions of a run's links are played from its case, or answered by a list server. `docs/FORMATS.md` says how a case is
//! written.
#![tactic(auto)]

pub use case_link::CaseLink;
pub use linking::Links;
pub use paging::run_cases;
pub use running::Programs;

mod case_link;
mod cases;
mod linking;
mod paging;
mod running;
mod server;
