use client_line::Line;
use http_edge::{Exchanged, Target, begin_exchange, end_exchange};
use sb_model::{Moment, OutOfMemory};
use sb_outside::{Clock, Dice, Kind, Link};
use std::alloc::Global;

/// A line that has a link, a clock and dice of its own.
#[derive(Drop)]
pub struct OwnLine<L, C, D> {
    /// The link to the server.
    pub link: L,
    /// The clock by which sessions on the link begin and end.
    pub clock: C,
    /// The dice of the waits between them.
    pub dice: D,
}

impl<L: Link, C: Clock, D: Dice> Line for OwnLine<L, C, D> {
    // its objects are its own, so they stay the same
    ghost view = { λ line. record {
      told = record {
        log = L.log line.link;
        readings = C.answers line.clock;
        waits = C.waits line.clock;
        drawn = D.given line.dice;
        faults = L.faults line.link;
      };
      last = C.last line.clock;
      objects = record {
        link = 0;
        clock = 0;
        dice = 0;
      };
    } };

    fn now(&mut self) -> Moment {
        self.clock.now()
    }

    fn wait_until(&mut self, moment: Moment) -> Moment {
        self.clock.wait_until(moment)
    }

    fn word(&mut self) -> u32 {
        self.dice.word()
    }

    fn is_answered(&mut self) -> bool {
        self.link.is_answered()
    }

    fn begin_exchange(
        &mut self,
        alloc: Global,
        at: Moment,
        target: &Target,
        kind: Kind,
        body: &[u8],
    ) -> Result<bool, OutOfMemory> {
        begin_exchange(
            alloc,
            &mut self.link,
            &mut self.clock,
            at,
            target,
            kind,
            body,
        )
    }

    fn end_exchange(
        &mut self,
        alloc: Global,
        sent: bool,
        need_digest: bool,
    ) -> Result<Exchanged, OutOfMemory> {
        end_exchange(alloc, &mut self.link, &mut self.clock, sent, need_digest)
    }
}
