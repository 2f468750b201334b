use tcp_door::{DoorFault, Teller};

/// How many times a door told that the system has no room.
#[derive(Drop)]
pub(crate) struct Told {
    pub(crate) count: u64,
}

impl Teller for Told {
    fn no_room(&mut self, _why: DoorFault) {
        self.count = self.count.saturating_add(1);
    }
}
