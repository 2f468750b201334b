use crate::Teller;
use gathering::{DoorLimits, Phase, Sent, Step, is_due};

/// How many nanoseconds a minute has, and a millisecond.
const MINUTE: u64 = 60_000_000_000;

const MILLI: u64 = 1_000_000;

/// How many connections a door ended before they had their whole answer.
#[derive(Clone, Copy, Debug, PartialEq, Eq, Default)]
pub struct Losses {
    /// Those that gave way to others in a full house, or to the bytes of others.
    pub gave_way: u64,
    /// Those whose time was up: for their request, for their turn, or for their answer.
    pub late: u64,
    /// Those whose answers were cut, as all answers together held too much.
    pub cut: u64,
}

impl Losses {
    fn is_none(self) -> bool {
        self.gave_way == 0 && self.late == 0 && self.cut == 0
    }
}

/// The losses that were not yet told, and until when the next ones wait, in nanoseconds of all the time that passed.
#[derive(Clone, Copy, Debug, Default)]
pub(crate) struct Untold {
    losses: Losses,
    waits_until: u64,
}

impl Untold {
    pub(crate) fn give_way(&mut self) {
        self.losses.gave_way = self.losses.gave_way.saturating_add(1);
    }

    pub(crate) fn cut(&mut self) {
        self.losses.cut = self.losses.cut.saturating_add(1);
    }

    /// Counts a connection whose time is up in this phase. One that is past its answer has lost nothing.
    pub(crate) fn look_at(&mut self, limits: &DoorLimits, phase: Phase, now: u64) {
        let is_past = matches!(phase, Phase::Past { .. });
        if !is_past && is_due(limits, phase, now) {
            self.losses.late = self.losses.late.saturating_add(1);
        }
    }

    /// Counts a connection that is closed with bytes of its answer left to send, though no write failed.
    pub(crate) fn look_at_sending(&mut self, step: Step, sent: Sent, left: u64) {
        if step == Step::Close && sent != Sent::Fault && left > 0 {
            self.losses.late = self.losses.late.saturating_add(1);
        }
    }

    /// How many milliseconds it is until the next ones are to be told, after so much time had passed in all.
    pub(crate) fn wait(&self, passed: u64) -> Option<u64> {
        if self.losses.is_none() {
            return None;
        }
        Some(self.waits_until.saturating_sub(passed) / MILLI + 1)
    }

    /// Tells them if there are any, and none were told within a minute.
    pub(crate) fn tell<T: Teller>(&mut self, passed: u64, teller: &mut T) {
        if self.losses.is_none() || passed < self.waits_until {
            return;
        }
        teller.lost(self.losses);
        self.losses = Losses::default();
        self.waits_until = passed.saturating_add(MINUTE);
    }
}
