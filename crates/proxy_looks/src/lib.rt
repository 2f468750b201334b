//! The URLs of a look-up: the hits of each on the lists that a client holds, and its verdict once the answers that are kept, or a find, decide
//! it.
//!
//! `specs/Urls.antt` has the URLs that a request asks for, `Settled` what decides them, and `Fates` what the look-up is answered.
#![tactic(auto)]

pub use fates::{fate_of_urls, is_left_open};
pub use laws::settled_urls_keep_their_looks;
pub use settling::{Settled, settle_urls};
pub use urls::{LookUrl, are_lists_ready, count_open, urls_of};

mod fates;
mod laws;
mod settling;
mod urls;
