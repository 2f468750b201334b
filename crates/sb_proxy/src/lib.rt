//! The top call of the proxy program: its command line, its usage text, and its run. A proxy is a client of one list server that
//! keeps its lists, and answers look-ups of URLs from them. It asks the server only where a prefix stands.
#![tactic(auto)]

pub use proxy::{USAGE, run_proxy};
pub use targets::{ProxyRoom, ProxyTargets, proxy_targets};
pub use world::proxy_world;

mod proxy;
mod serving;
mod targets;
mod telling;
mod world;
