//! The published examples of canonical URLs, of expressions and of Rice records, and a run that
//! counts those with which the crates below agree.
#![tactic(auto)]

pub use case::Case;
pub use published::published_cases;
pub use run::{Outcome, run_table};

mod case;
mod meets;
mod published;
mod run;
