//! A run that judges URLs: it reads them whole, loads the lists that its keeper kept, and checks each URL on several threads, while this
//! one makes rounds of updates and publishes what they install. Then it settles the checks, resolves each by the publication that it names,
//! asks the server where a hit has to be asked for, and prints a report.
//!
//! `specs/Opening.antt` has what a run begins with, `Judging` what becomes of URLs one after the other, `Cases` the law that one more goes on,
//! `Checked` what becomes of URLs that were checked before, `Rounds` what rounds publish, `Beside` checks beside rounds, `Printed` the text,
//! `Run` a whole run and one that stopped, and `Law` that no session precedes its allowed moment.
#![tactic(auto)]

pub use beginning::{Begun, begin};
pub use finding::resolve_finding;
pub use judgement::{Judgement, Outcome, outcome_of};
pub use laws::{cases_go_on, cases_keep_to_waits};
pub use plan::JudgePlan;
pub use report::Report;
pub use reporting::print_report;
pub use resolving::resolve_checks;
pub use rounding::publish_rounds;
pub use running::judge;
pub use settled::settle_checks;
pub use stop::JudgeStop;
pub use updater::{CheckedUrls, UncheckedUrls, Updater};

mod alone;
mod beginning;
mod beside;
mod finding;
mod judgement;
mod laws;
mod plan;
mod publishing;
mod report;
mod reporting;
mod resolving;
mod rounding;
mod running;
mod settled;
mod states;
mod stop;
mod updater;
