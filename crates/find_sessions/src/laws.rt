ghost use Rattle.find_sessions.specs.Passing.{PassedFindsKeepToWaits};

/// The law of waits: the session of each find that is passed on begins, in the link's log too, at or after the moment that those before it
/// left.
pub fn passed_finds_keep_to_waits()
    ensures { PassedFindsKeepToWaits }
{}
