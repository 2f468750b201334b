ghost use Rattle.std.specs.Prelude.{◌≡◌, ◌+◌, ◌-◌, ◌*◌, ◌^◌, ◌<◌, ◌≤◌};
ghost use Rattle.std.specs.Int.{div_ceil};
ghost use Rattle.wait_rules.specs.Waits.{first_delay as first_delay_of, failure_delay as failure_delay_of, one_more, first_state, after_success, after_failure, may_send_at};

use sb_model::{Duration, Moment, later, wait_ms};

/// The longest delay after failures, in milliseconds: a day.
const LONGEST_DELAY: u64 = 86_400_000;

/// The delay after one failure, before the drawn part: 15 minutes.
const SHORTEST_DELAY: u64 = 900_000;

/// From so many failures in a row on the delay is the longest one.
const MANY_FAILURES: u32 = 8;

/// How many words there are: a word w stands for the fraction w / 2^32.
const WORDS: u64 = 1 << 32;

/// When a client may send its next request of a kind.
#[derive(Clone, Copy, Debug, PartialEq, Eq, Hash)]
pub struct WaitState {
    /// How many sessions in a row failed. The greatest u32 stays.
    pub failures: u32,
    /// The first moment at which the next session may begin.
    pub allowed_at: Moment,
}

fn first_delay(word: u32) -> u64
    ensures { result ≡ first_delay_of word }
{
    (u64::from(word) * 60_000).div_ceil(WORDS)
}

/// The delay after a few failures, before it is held to the longest one.
fn doubled_delay(failures: u32, word: u32) -> u64
    requires some { 1 ≤ failures }
    requires few { failures < MANY_FAILURES }
    ensures { result ≡ div_ceil (2 ^ (failures - 1) * 900000 * (2 ^ 32 + word)) (2 ^ 32) }
{
    let delay = 2_u64.pow(failures - 1) * SHORTEST_DELAY;
    (delay * (WORDS + u64::from(word))).div_ceil(WORDS)
}

fn failure_delay(failures: u32, word: u32) -> u64
    requires { 1 ≤ failures }
    ensures { result ≡ failure_delay_of failures word }
{
    if failures >= MANY_FAILURES {
        return LONGEST_DELAY;
    }
    LONGEST_DELAY.min(doubled_delay(failures, word))
}

impl WaitState {
    /// Before any session, with one drawn word: up to a minute from now.
    pub fn first(now: Moment, word: u32) -> WaitState
        ensures { result ≡ first_state now word }
    {
        WaitState {
            failures: 0,
            allowed_at: later(now, first_delay(word)),
        }
    }

    /// Whether a request may be sent now.
    pub fn may_send(&self, now: Moment) -> bool
        ensures { result ≡ may_send_at self.now now }
    {
        now.0 >= self.allowed_at.0
    }

    /// A session closed at this moment with an answer, which bids to wait so long.
    pub fn succeeded(&mut self, at: Moment, wait: Duration)
        ensures { self.new ≡ after_success at wait }
    {
        *self = WaitState {
            failures: 0,
            allowed_at: later(at, wait_ms(wait)),
        };
    }

    /// A session closed at this moment without an answer, or never began. The delay takes one drawn word.
    pub fn failed(&mut self, at: Moment, word: u32)
        ensures { self.new ≡ after_failure self.old at word }
    {
        let failures = self.failures.saturating_add(1);
        *self = WaitState {
            failures,
            allowed_at: later(at, failure_delay(failures, word)),
        };
    }
}
