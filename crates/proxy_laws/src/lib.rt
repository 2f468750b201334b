//! Laws of a proxy: what its answers go back to, and what they say of a server's lists.
//!
//! `answers` has that each answer goes back to the lists that the proxy held when the connection was taken, and each verdict of it to one look
//! and one answer. `specs/Traced.antt` has what an answer goes back to. `verdicts` has what follows for a server's lists, with
//! `specs/Told.antt`.
#![tactic(auto)]

pub use answers::answers_go_back_to_lists;
pub use verdicts::{proxy_runs_hold, proxy_verdicts_hold};

mod answers;
mod verdicts;
