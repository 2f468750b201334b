//! The words of a proxy's command line: `sbproxy serve`. Those that it shares with clients are read by `client_words`.
//! `specs/ProxyLine.antt` has what command lines give.
#![tactic(auto)]

pub use line::{ProxyLine, ProxyNumbers, proxies_ask_sound_targets, proxy_line};

mod line;
