//! Laws of both ends of the protocol: what a run of a client comes to where it asks a server of this project, and that what either end
//! writes is not too dense to be read.
//!
//! `served` has that each answer to a client's own request is installed, and that its lists do not go back to earlier versions.
//! `specs/Versions.antt` and `specs/Installs.antt` say it of answers and of rounds. `specs/Answered.antt` says of a session in a link's
//! log that a server answered it, or that it was lost, and `specs/Complete.antt` what a run comes to, over its log.
//!
//! `density` has that no message that either end writes is too dense to be read. A JSON text may have only so many lists, objects and
//! values for its length (`sb_json/specs/Density.antt`). What the writers of messages write keeps within that, so the limit refuses
//! nothing of theirs. `specs/Limits.antt` says which find requests a client makes.
//!
//! `example` has that the premises of the headline of runs can be met: by a small server, and a run in which one response came and one was
//! lost. `specs/Example.antt` has what the client is to do, the sessions of the link's log, and what is seen before and after. The server
//! and its first update are those of the small replay (`update_replay/specs/Example.antt`).
#![tactic(auto)]

pub use density::{
    fetch_answers_are_not_too_dense, fetch_requests_are_not_too_dense,
    find_answers_are_not_too_dense, finds_are_not_too_dense, lookup_answers_are_not_too_dense,
    lookups_are_not_too_dense,
};
pub use example::premises_of_a_run_are_met;
pub use served::{
    answered_runs_are_complete, answered_runs_keep_versions, answered_sessions_are_answered_rounds,
    answers_are_installed, versions_do_not_go_back, written_answers_read_again,
};

mod density;
mod example;
mod served;
