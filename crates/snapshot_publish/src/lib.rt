//! Publications of a client's lists. One publisher shows them, and seats look at them from any threads without waiting: a look shows one
//! whole publication, and none that is older than what the seat knew before.
//!
//! Each seat has a box, in which the publisher leaves its newest publication until the seat takes it. `specs/Publications.antt` has what
//! publications are and which of them are kept, `Publishing` what contracts see of a publisher, a note and a seat, `Kept` what they keep to,
//! and `Rule` the rule of a box, with what each kind of step does to what is known at its ends.
#![tactic(auto)]

pub use note::Note;
pub use publisher::Publisher;
pub use seat::Seat;
pub use snapshot::Snapshot;
pub use starting::start;

mod ends;
mod kept;
mod note;
mod publisher;
mod seat;
mod snapshot;
mod starting;
mod view;
