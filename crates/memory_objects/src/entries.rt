ghost use Rattle.std.specs.Prelude.{◌≡◌, ℕ, ◌<◌, ◌≤◌, List, [], length, Option, Some, IfSome, IfOk, slice_set};
ghost use Rattle.std.specs.Option.{option_map};
ghost use Rattle.memory_objects.specs.Logs.{with_room, logged};

use sb_model::OutOfMemory;
use std::alloc::Global;
use std::marker::Model;

/// A log with room for a number of entries, which is taken when it is made. Contracts see it as what it
/// tells, and its room.
#[derive(Debug, Drop)]
pub(crate) struct Log<T> {
    items: Vec<T>,
    room: usize,
    is_past: bool,
}

impl<T> Model for Log<T> {
    ghost use Rattle.std.specs.Prelude.{ℕ, ◌≤◌, List, Option, Some, None, vec_len, vec_capacity, if◌then◌else◌};

    ghost Value = { Option (List T) × ℕ };

    ghost view = { λ s. ((if s.is_past then None else Some s.items.items), s.room) };

    ghost invariant = { λ s. (vec_len s.items ≤ s.room) × (s.room ≤ vec_capacity s.items) };
}

impl<T: Drop> Log<T> {
    /// An empty log.
    pub(crate) fn new(alloc: Global, room: usize) -> Result<Self, OutOfMemory>
        ensures { IfOk result (λ log. log ≡ (Some [], room)) }
    {
        Ok(Log {
            items: Vec::with_capacity(alloc, room)?,
            room,
            is_past: false,
        })
    }

    /// How many entries there are, where that is told.
    pub(crate) fn len(&self) -> usize
        ensures { IfSome self.now.0 (λ entries. result ≡ length entries) }
    {
        self.items.len()
    }

    /// The entries, or `None` where there were more than the log has room for.
    pub(crate) fn entries(&self) -> Option<&[T]>
        ensures { option_map (λ entries. entries.now) result ≡ self.now.0 }
    {
        if self.is_past {
            return None;
        }
        Some(self.items.as_slice())
    }

    /// The entries, moved out.
    pub(crate) fn into_entries(self) -> Option<Vec<T>>
        ensures { option_map (λ entries. entries.items) result ≡ self.0 }
    {
        if self.is_past {
            return None;
        }
        Some(self.items)
    }

    /// Tells nothing from now on where no further entry has room.
    pub(crate) fn make_room(&mut self)
        ensures { self.new ≡ (with_room self.old.1 self.old.0, self.old.1) }
    {
        if self.items.len() >= self.room {
            self.is_past = true;
        }
    }

    /// Appends an entry. One that has no room is dropped.
    pub(crate) fn push(&mut self, item: T)
        ensures { self.new ≡ (logged self.old.1 self.old.0 item, self.old.1) }
    {
        if self.items.len() >= self.room {
            self.is_past = true;
            return;
        }
        self.items.push(item).unwrap();
    }

    /// Puts an entry in the place of the one of this number, if there is one.
    pub(crate) fn set(&mut self, number: usize, item: T)
        ensures { self.new ≡ (option_map (λ entries. slice_set entries number item) self.old.0, self.old.1) }
    {
        if number < self.items.len() {
            self.items[number] = item;
        }
    }
}
