//! A load that a seed makes, for measuring and for trying a list server: a journal in which the hashes of made-up hosts come
//! and go, URLs of other hosts, and an exercise that loads such a journal and answers from it.
//!
//! `specs/Generated.antt` says which hosts and changes there are, and what the texts of them are; `Exercise` has the line of
//! an exercise.
#![tactic(auto)]

pub use exercising::exercise;
pub use fault::ExerciseFault;
pub use journals::generated_journal;
pub use urls::generated_urls;

mod asking;
mod changes;
mod counts;
mod exercising;
mod fault;
mod hosts;
mod journals;
mod loading;
mod urls;
