ghost use Rattle.std.specs.Prelude.{List};
ghost use Rattle.update_messages.specs.Messages.{UpdatedList};
ghost use Rattle.update_client.specs.Held.{Held};
ghost use Rattle.sb_round.specs.Law.{KeepsReplicas};
ghost use Rattle.sb_round.specs.Rounds.{BeginsRounds, GoesOnWithRounds, RoundsAreTheirSessions, RoundsKeepToWaits};
ghost use Rattle.sb_round.specs.Sessions.{HasOneListOfBodies};

use http_edge::one_body;
use timed_sessions::traces_go_on;
use update_messages::{values_read_one_way, values_read_or_have_a_fault};

/// The law of every run, from any lists and through any bodies: where the lists are replicas of a server's, they are so
/// after each number of honest bodies. A run from nothing, and one from a store, are two uses of it.
pub fn replicas_stay()
    ensures { (lists : List Held) (bodies : List (List UpdatedList)) → KeepsReplicas lists bodies }
{}

/// The law of every run of rounds, from any lists and any state of waiting: no round is a run, and a run with one round
/// more is a run. Its lists are those after its bodies, and each of its sessions begins at a moment that the rounds
/// before it allow.
pub fn rounds_go_on()
    ensures none { BeginsRounds }
    ensures one_more { GoesOnWithRounds }
{
    traces_go_on();
}

/// The law of waits: the session of each round begins, in the link's log too, at or after the moment that the rounds before it left.
pub fn rounds_keep_to_waits()
    ensures { RoundsKeepToWaits }
{}

/// The law of logs: what the link's log has more of rounds is their sessions, one for each, in order, and the body of a round is what
/// the outcome of its session reads as.
pub fn rounds_are_their_sessions()
    ensures { RoundsAreTheirSessions }
{}

/// The law of one reading: whatever is in a log, its sessions bring one list of bodies.
pub fn logs_have_one_list_of_bodies()
    ensures { HasOneListOfBodies }
{
    one_body();
    values_read_one_way();
    values_read_or_have_a_fault();
}
