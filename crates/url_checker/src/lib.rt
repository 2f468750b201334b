//! The check of a URL against the lists that a client holds: its hits, and the verdict on them.
//!
//! `specs/Hits.antt` has the hits of a URL on some lists, `Checking` a look at the lists for a URL, `Resolving` the resolution of one finding
//! from any kept answers and any state of waiting, `Resolved` what it does to them and to the objects outside, `Findings` any number of
//! findings, and `Several` one find for the open hits of several.
#![tactic(auto)]

pub use asking::OpenFind;
pub use fault::CheckFault;
pub use findings::{Checked, Finding, Hit};
pub use finds::Finds;
pub use hits::{local_check_on, local_check_with};
pub use laws::{findings_go_on, findings_keep_to_waits};
pub use looking::{Looked, Looks, look};
pub use resolving::{begin_find, end_find, resolve};
pub use several::{
    Together, begin_find_for, end_find_for, finds_for_several_begin_with_one, hits_together,
    verdict_by_answer,
};
pub use sizes::{Sizes, sizes_on};

mod asking;
mod fault;
mod findings;
mod finds;
mod hits;
mod laws;
mod looking;
mod naming;
mod request;
mod resolving;
mod several;
mod sizes;
