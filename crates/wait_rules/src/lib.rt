//! When a client may send its next request (Safe Browsing Update API, version 4, "Request Frequency").
//!
//! Updates and finds have a state each. Nothing here allocates, waits or reads a clock.
#![tactic(auto)]

pub use laws::delays_are_bounded;
pub use waits::WaitState;

mod laws;
mod waits;
