//! The places of a mirror: what it held after each round that installed a list, the state tokens that name them, and the updates that lead
//! its clients from one to the newest.
//!
//! `specs/Places.antt` has what a mirror keeps of the lists that it held, `Tokens` how they are named, `Answer` what a fetch request is
//! answered, and `Replica` when a client holds a mirror's lists.
#![tactic(auto)]

pub use answering::{answer_mirror, place_named};
pub use following::follow;
pub use laws::{
    mirror_tokens_name_places, mirrors_answer_from_their_places, mirrors_are_followed,
    taken_lists_keep_their_names,
};
pub use mirror::Mirror;
pub use tokens::mirror_token;

mod answering;
mod following;
mod laws;
mod mirror;
mod tokens;
