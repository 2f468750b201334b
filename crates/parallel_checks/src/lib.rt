//! Checks of URLs on several threads, beside a publisher that goes on publishing.
//!
//! Each seat has a worker, which checks every W-th URL where there are W seats, each on the publication that its seat then shows.
//! `specs/Checks.antt` has what the checks of a seat are, and `Settled` what they are once the publisher has ended.
#![tactic(auto)]

pub use laws::seats_remain;
pub use running::{CheckRun, check_all};
pub use settling::settle;
pub use showing::local_check;

mod laws;
mod lines;
mod running;
mod settling;
mod showing;
mod weaving;
mod working;
