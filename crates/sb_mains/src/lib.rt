//! What the mains of the programs share: the words of the command line, the objects that these name, and what is told on
//! standard error.
#![tactic(auto)]

pub use objects::{ServerLink, ServerWatch, journal_at, link_to, store_at, watch_of};
pub use operator::Operator;
pub use words::words_of;

mod objects;
mod operator;
mod words;
