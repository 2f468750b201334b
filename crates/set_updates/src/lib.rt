//! Updates between two sets, with no history: the whole of a set under its token, and what leads from the set of
//! the state that is asked from to a newer one.
//!
//! `update_messages` has the definitions of both (`specs/Answer.antt`), for any token of the newer set. `specs/Updates.antt`
//! has what the places and the members of a difference keep to, so that an update may have them.
#![tactic(auto)]

pub use laws::{differences_may_be_sent, numbers_go_by_members};
pub use sets::{addition_sets, removal_sets};
pub use updates::{
    Sent, delta_update, full_update, numbered_update, partial_update, unchanged_update,
};

mod laws;
mod numbers;
mod sets;
mod updates;
