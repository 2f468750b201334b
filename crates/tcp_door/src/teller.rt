use crate::{DoorFault, Losses};

/// Hears from a door what its operator is to know at once, while it is asked for a connection.
pub trait Teller {
    /// The system has no room for a further connection, and why. A door tells it once.
    fn no_room(&mut self, why: DoorFault);

    /// So many connections were lost since it was last told. A door tells it at most once a minute, and only if there are some.
    fn lost(&mut self, _losses: Losses) {}
}
