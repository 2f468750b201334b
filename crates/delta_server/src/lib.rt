//! What a list server answers: the state tokens of its versions, the version that a client is
//! brought to, and the answers to a fetch request and to a find request. The update that leads there
//! is made by `set_updates`.
//!
//! `specs/Tokens.antt` has the naming of versions, and `Finding` parts of the answer to a find
//! request. The answer to a whole fetch request is defined in `update_messages`, for any naming, and
//! that to a find request in `hash_messages`.
#![tactic(auto)]

pub use answering::{Settings, answer_fetch};
pub use asked::has_types;
pub use finding::answer_find;
pub use laws::tokens_name_versions;
pub use names::declared_lists;
pub use naming::{read_token, token_of};
pub use targets::target;
pub use tokens::{held_version, read_state, state_token};
pub use walk::{changes_taken, target_of};

mod answering;
mod asked;
mod copies;
mod covered;
mod finding;
mod hashes;
mod holders;
mod items;
mod laws;
mod marks;
mod names;
mod naming;
mod passages;
mod repeats;
mod served;
mod sweeping;
mod swept;
mod targets;
mod tokens;
mod version;
mod walk;
