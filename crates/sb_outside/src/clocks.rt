ghost use Rattle.std.specs.Prelude.{◌≡◌, ℕ, ◌≤◌, List, Option};
ghost use Rattle.sb_outside.specs.Outside.{IfTold, with_entry};
ghost use Rattle.sb_model.specs.declared.time.Moment.{Moment};

use sb_model::Moment;

/// What says the time. Its answers do not fall.
pub trait Clock {
    // its last answer in milliseconds, and 0 before the first
    ghost last: { Self → ℕ };

    // where the clock tells it: its answers, in order
    ghost answers: { Self → Option (List Moment) };

    // where the clock tells it: the moments that `wait_until` was given, in order
    ghost waits: { Self → Option (List Moment) };

    /// The greatest moment that was read so far.
    fn now(&mut self) -> Moment
        ensures rises { last self.old ≤ result.0 }
        ensures kept { last self.new ≡ result.0 }
        ensures told { IfTold (answers self.new) (with_entry (answers self.old) result) }
        ensures no_wait { waits self.new ≡ waits self.old };

    /// A moment at or after the given one. It may wait until then.
    fn wait_until(&mut self, moment: Moment) -> Moment
        ensures reached { moment.0 ≤ result.0 }
        ensures rises { last self.old ≤ result.0 }
        ensures kept { last self.new ≡ result.0 }
        ensures told { IfTold (answers self.new) (with_entry (answers self.old) result) }
        ensures waited { IfTold (waits self.new) (with_entry (waits self.old) moment) };
}
