ghost use Rattle.std.specs.Prelude.{◌≡◌, is_some};
ghost use Rattle.std.specs.List.{list_all};
ghost use Rattle.mirror_run.specs.Events.{first_cause};
ghost use Rattle.mirror_run.specs.State.{told_wait, waited_long};
ghost use Rattle.update_client.specs.Held.{has_token as has_token_one};

use crate::MirrorStop;
use http_serving::KeptAnswers;
use mirror_connections::MirrorConnections;
use mirror_finds::MirrorFinds;
use mirror_rounds::MirrorRounds;
use mirror_serving::PlaceWishes;
use sb_model::Moment;
use sb_outside::Wire;
use std::marker::Model;
use update_client::HeldList;

/// How long a find waits for its turn at most, in milliseconds.
const LONGEST_WAIT: u64 = 5_000;

/// The longest wait that is told while a list has no token and no round brought a message, in seconds.
const SHORT_WAIT: u32 = 60;

/// A mirror in its run.
#[derive(Drop)]
pub(crate) struct MirrorRun<W: Wire> {
    pub(crate) rounds: MirrorRounds,
    pub(crate) finds: MirrorFinds,
    pub(crate) connections: MirrorConnections<W>,
    // answers of its places with its wait
    pub(crate) kept: KeptAnswers<PlaceWishes>,
    // the wait that it tells now, in seconds
    pub(crate) wait: u32,
    // whether a round brought a message
    pub(crate) answered: bool,
    // whether no more connections come
    pub(crate) no_more: bool,
    // what ended it before its end
    pub(crate) stop: Option<MirrorStop>,
}

impl<W: Wire> Model for MirrorRun<W> {
    ghost use Rattle.mirror_run.specs.SoFar.{MirrorOwn};
    ghost use Rattle.mirror_serving.specs.KeptFetches.{AreKeptOfMirror};

    ghost Value = { MirrorOwn };

    ghost view = { λ m. record {
      rounds = m.rounds;
      finds = m.finds;
      connections = m.connections;
      wait = m.wait;
      answered = m.answered;
      no_more = m.no_more;
      stop = m.stop;
    } };

    ghost invariant = { λ m. AreKeptOfMirror m.rounds.places m.wait m.kept };
}

/// Whether a list was fetched once.
fn has_token(held: &HeldList) -> bool
    ensures { result ≡ has_token_one held.now }
{
    !held.token.is_empty()
}

/// Whether each list was fetched once.
fn have_tokens(lists: &[HeldList]) -> bool
    ensures { result ≡ list_all has_token_one lists.now }
{
    lists.iter().all(has_token)
}

/// The wait that a mirror tells, in seconds: this one, but at most a minute while a list has no token and no round brought a message.
pub(crate) fn wait_told(wait: u32, answered: bool, lists: &[HeldList]) -> u32
    ensures { result ≡ told_wait wait answered lists.now }
{
    if answered || have_tokens(lists) {
        return wait;
    }
    wait.min(SHORT_WAIT)
}

/// Whether a find that was heard then has waited too long.
pub(crate) fn has_waited_long(now: Moment, heard: Moment) -> bool
    ensures { result ≡ waited_long now heard }
{
    now.0.saturating_sub(heard.0) >= LONGEST_WAIT
}

/// When a find that was heard then will have waited too long.
pub(crate) fn overdue_at(heard: Moment) -> Moment {
    Moment(heard.0.saturating_add(LONGEST_WAIT))
}

impl<W: Wire> MirrorRun<W> {
    /// Whether something ended it before its end.
    pub(crate) fn is_stopped(&self) -> bool
        ensures { result ≡ is_some self.now.stop }
    {
        self.stop.is_some()
    }

    /// Notes what ends it. The first such cause stays.
    pub(crate) fn note(&mut self, stop: MirrorStop)
        ensures { self.new ≡ record self.old { stop = first_cause self.old.stop stop } }
    {
        if self.stop.is_none() {
            self.stop = Some(stop);
        }
    }
}
