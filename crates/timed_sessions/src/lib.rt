//! Sessions of a client with its server, of either kind, that keep to the moments which the API allows ("Request Frequency" of the Safe
//! Browsing Update API, version 4).
//!
//! `specs/Told.antt` has what the objects outside a client tell, and by how much more later; `Timed` a session that begins when it may, from a
//! clock that was read already; `Waiting` what a closed session leaves of the wait, and that no session of a list precedes its allowed
//! moment; `Law` that steps go on.
#![tactic(auto)]

pub use laws::{sessions_keep_to_waits, traces_go_on};
pub use settling::settle;
pub use timing::{Opening, Talk, begin_session, end_session, hold_session};

mod laws;
mod settling;
mod timing;
