//! The report of a check: a line for each URL, with its verdict, and a summary.
//!
//! `specs/Printed.antt` has the text of each.
#![tactic(auto)]

pub use counts::Counts;
pub use printing::push_report_line;
pub use summing::{push_counts, push_summary};
pub use verdicts::{Cause, Judged, Verdict};

mod counts;
mod printing;
mod summing;
mod verdicts;
