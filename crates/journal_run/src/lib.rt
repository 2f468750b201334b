//! The top call of the program that makes journals: `new` begins one, `sync` and `change` make records from URLs, `check`
//! and `has` say what a journal has, and `compact` tells it anew.
#![tactic(auto)]

pub use laws::{changed_records_are_read, new_journals_are_told};
pub use run::{USAGE, run_journal};
pub use targets::{JournalTargets, journal_targets};
pub use unended::records_wait_for_their_turn;

mod changed;
mod checked;
mod command;
mod compacting;
mod found;
mod fresh;
mod held;
mod laws;
mod lent;
mod reply;
mod run;
mod stop;
mod synced;
mod targets;
mod unended;
