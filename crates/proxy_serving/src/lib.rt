//! What a proxy's connections are answered: a look-up by what became of its URLs. It is heard, and answered once that is known; `asked_look`
//! gives what was asked, and `fate_of` what is told if its URLs have these verdicts.
//!
//! `specs/Response.antt` has the route and the right responses, `ResponseLaws` that what is right is right alone, `HeardLook` a look-up that
//! was heard, and `Told` what verdicts lead to.
#![tactic(auto)]

pub use fate::LookFate;
pub use looks::asked_look;
pub use server::{
    ProxyServer, heard_looks_are_answered_by_their_fate, proxy_requests_have_one_response,
};
pub use told::{SeenUrl, fate_of};

mod fate;
mod looks;
mod refusing;
mod routes;
mod server;
mod told;
