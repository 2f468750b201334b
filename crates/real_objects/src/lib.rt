//! The outside over the standard library: standard input and output, files, sockets, the system's clock and its random
//! numbers. They tell nothing of content. Each counts its faults, and says why the last one came; a link also tells when its server goes
//! out of reach and comes back.
#![tactic(auto)]

pub use descriptors::hold_descriptors;
pub use file_keeper::{FileKeeper, KeptForm};
pub use journal_file::JournalFile;
pub use link_teller::{LinkTeller, Nobody};
pub use standard::{StdSink, StdSource};
pub use system_clock::SystemClock;
pub use system_dice::SystemDice;
pub use tcp_calls::{connect_within, read_within, send_within};
pub use tcp_limits::{TcpLimits, Term};
pub use tcp_link::TcpLink;
pub use why::Why;

mod descriptors;
mod file_keeper;
mod journal_file;
mod link_teller;
mod regular_files;
mod standard;
mod system_clock;
mod system_dice;
mod tcp_calls;
mod tcp_limits;
mod tcp_link;
mod why;
