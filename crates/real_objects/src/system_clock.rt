ghost use Rattle.std.specs.Prelude.{◌≡◌, ℕ, ◌≤◌, None, min};

use sb_model::Moment;
use sb_outside::Clock;
use std::marker::Model;
use std::time::{Duration, SystemTime, UNIX_EPOCH};
use std::{thread, time};

/// The longest sleep between two looks at the clock, in milliseconds. The system's clock may be set
/// while one sleeps.
const LONGEST_SLEEP: u64 = 60_000;

/// The system's clock, in milliseconds since 1970. Where it goes back or cannot be read, the last answer
/// stands. Contracts see it as the last answer.
#[derive(Drop)]
pub struct SystemClock<R> {
    rt: R,
    last: u64,
}

impl<R> Model for SystemClock<R> {
    ghost Value = { ℕ };

    ghost view = { λ s. s.last };
}

impl<R: time::Clock> SystemClock<R> {
    pub fn new(rt: R) -> Self
        ensures { result ≡ 0 }
    {
        SystemClock { rt, last: 0 }
    }
}

/// What the system's clock says, in milliseconds, or `None` where it cannot be read.
pub(crate) fn system_millis(rt: &impl time::Clock) -> Option<u64> {
    let now = SystemTime::now(rt).ok()?;
    let since = now.duration_since(UNIX_EPOCH).ok()?;
    u64::try_from(since.as_millis()).ok()
}

/// Sleeps for some milliseconds, but no longer than the longest sleep, and says for how many.
fn sleep_for(rt: &impl time::Clock, millis: u64) -> u64
    ensures { result ≡ min millis LONGEST_SLEEP }
{
    let slept = millis.min(LONGEST_SLEEP);
    thread::sleep(rt, Duration::from_millis(slept));
    slept
}

impl<R: time::Clock> SystemClock<R> {
    /// Reads the system's clock. False where it cannot be read.
    fn look(&mut self) -> bool
        ensures { self.old ≤ self.new }
    {
        match system_millis(&self.rt) {
            Some(millis) => {
                self.last = self.last.max(millis);
                true
            }
            None => false,
        }
    }
}

impl<R: time::Clock> Clock for SystemClock<R> {
    ghost last = { λ last. last };

    ghost answers = { λ _. None };

    ghost waits = { λ _. None };

    fn now(&mut self) -> Moment {
        self.look();
        Moment(self.last)
    }

    /// It sleeps until then. Where the system's clock cannot be read, what it slept goes to the last answer.
    fn wait_until(&mut self, moment: Moment) -> Moment {
        for _ in 0..u64::MAX {
            let can_be_read = self.look();
            if self.last >= moment.0 {
                return Moment(self.last);
            }
            let slept = sleep_for(&self.rt, moment.0 - self.last);
            if !can_be_read {
                self.last += slept;
            }
        }
        self.last = self.last.max(moment.0);
        Moment(self.last)
    }
}
