//! The update client: the lists that a client holds, the request for them, and what an answer does to them.
//!
//! `specs/Held.antt` has what a held list is, `Step` what an update does to it and why it may be refused, `Asked` the
//! request, `Between` where an update between two sets leads, `Replica` and `Genuine` what ties a client's lists to a server's
//! history, and `Printed` the causes as they are printed.
#![tactic(auto)]

pub use fault::{ListResult, UpdateFault};
pub use held::HeldList;
pub use laws::{answers_are_genuine, updates_lead_to_their_sets};
pub use lists::ClientLists;
pub use options::FetchOptions;
pub use printing::{push_token, push_update_cause};

mod applying;
mod asking;
mod change;
mod examining;
mod fault;
mod feeding;
mod held;
mod laws;
mod lists;
mod options;
mod ordering;
mod pending;
mod printing;
