//! Sets of hash prefixes, each a rising list without repeats in packed bytes, with an index, changes,
//! differences, and the digest of the members.
#![tactic(auto)]

pub use difference::Delta;
pub use edit::Edit;
pub use fault::ApplyFault;
pub use iteration::Members;
pub use laws::{differences_lead, sets_go_by_members};
pub use set::{MAX_BYTES, MAX_PREFIXES, Merged, PrefixSet};
pub use store::PackedStore;

mod difference;
mod edit;
mod fault;
mod growing;
mod index;
mod iteration;
mod laws;
mod layout;
mod merge;
mod packed;
mod search;
mod set;
mod sorting;
mod store;
