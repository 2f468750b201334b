//! What a mirror's connections are answered: a fetch by the mirror's places, and a find by what became of it in a session with the mirror's
//! own server. A find is heard, and answered once that is known; `asked_find` gives what was asked, so that it can be passed on.
//!
//! `specs/Response.antt` has the routes and the right responses, `ResponseLaws` that what is right is right alone, `PlaceWish` what fetch
//! requests come to, `KeptFetches` what is kept of their answers, and `HeardFind` a find that was heard.
#![tactic(auto)]

pub use fate::FindFate;
pub use finds::asked_find;
pub use kept::{PlaceWishes, forget_kept, no_answers_kept};
pub use server::{
    MirrorServer, heard_finds_are_answered_by_their_fate, mirror_requests_have_one_response,
};
pub use wish::{PlaceWish, place_wishes_have_one_answer};

mod fate;
mod fetches;
mod finds;
mod kept;
mod refusing;
mod routes;
mod server;
mod wish;
