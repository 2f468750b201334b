//! Laws of runs of a client, of what it saves, prints and judges, in the words of a server's lists.
//!
//! `runs` has runs that met an honest server: each store that they hand in, what is kept, and what is printed are the server's lists at
//! the versions that their tokens name, in one run and in runs in a row. `specs/Met.antt` has what a run met, as the link's log tells it,
//! `Replicas` what it hands in, keeps and prints then, `Rows` the headline of a run and of runs in a row, `Kept` the lists that are kept
//! beside those that are printed, and `Runs` what follows.
//!
//! `verdicts` has that a verdict on a URL equals a look-up of each of its expressions' hashes in the full lists, where the answers that
//! decided it were faithful to these lists. `specs/Full.antt` has the full hashes of held lists and which of them have a URL, `Rulings`
//! what is said of hits, `Faithful` answers that tell which full hashes a list has, `Resolved` the verdict of a resolution, and `Decided`
//! which ones decide a URL. `shared` has the same of a look that is decided by an answer to a find for several looks, with
//! `specs/Shared.antt`. `example` has that the premises can be met, with `specs/Example.antt`.
//!
//! `judgings` has what the verdicts of a whole run say of a server's lists, and what it saves beside them. Nothing is asked of an answer
//! that did not decide a verdict. `specs/Verdicts.antt` has the verdicts of URLs that were judged in order, `Complete` which of them are
//! decided, `Reports` what follows for a row of them and for a run and its printed report, and `Saving` what a run saves, wherever it
//! ends.
#![tactic(auto)]

pub use example::premises_of_a_verdict_are_met;
pub use judgings::{
    judged_urls_are_decided, judgings_save_replicas, rows_of_verdicts_hold, runs_of_verdicts_hold,
};
pub use runs::{
    kept_is_printed, rounds_leave_lists, rounds_save_replicas, rows_hold, runs_hold,
    stores_begin_runs,
};
pub use shared::{
    faithful_finds_decide_each_look, looks_and_answers_are_steps, shared_verdicts_are_lookups,
};
pub use verdicts::{
    faithful_answers_rule_rightly, faithful_finds_decide, full_hashes_are_one,
    hits_find_listed_urls, resolutions_are_complete, resolutions_are_steps,
    resolved_verdicts_are_lookups, right_rulings_are_lookups, served_answers_are_faithful,
};

mod example;
mod judgings;
mod runs;
mod shared;
mod verdicts;
