//! The top call of the list server: `sblistd answer` reads a journal and the body of one request, and prints the body of the
//! answer; `sblistd serve` answers connections over HTTP, each as `serve_connection` does, reads what is new in the journal
//! before each, and keeps answers while no change is new; `sblistd generate` and `sblistd exercise` make a load from a seed, to
//! try and to measure servers with.
#![tactic(auto)]

pub use command::DoorRoom;
pub use connection::{requests_have_one_response, serve_connection};
pub use service::{USAGE, run_server};
pub use targets::{ServerTargets, server_targets};
pub use wish::wishes_have_one_answer;

mod answer;
mod command;
mod connection;
mod in_proto;
mod kept;
mod making;
mod printing;
mod reply;
mod serve;
mod service;
mod stop;
mod targets;
mod wish;
