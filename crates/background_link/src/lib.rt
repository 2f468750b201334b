//! A link whose sessions a thread holds beside its caller. No call of it waits, but for one that receives before the session is
//! answered; whoever waits elsewhere meanwhile hears a bell.
#![tactic(auto)]

pub use background_link::BackgroundLink;

mod answers;
mod background_link;
mod desk;
mod finding;
mod jobs;
mod line;
mod looking;
mod sessions;
mod talk;
mod working;
