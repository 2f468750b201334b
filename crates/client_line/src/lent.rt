use crate::Line;
use http_edge::{Exchanged, Target, begin_exchange, end_exchange};
use sb_model::{Moment, OutOfMemory};
use sb_outside::{Clock, Dice, Kind, Link};
use std::alloc::Global;

/// A line of a link, a clock and dice that are lent to it.
#[derive(Drop)]
pub struct LentLine<'l, 'c, 'd, L, C, D> {
    pub link: &'l mut L,
    pub clock: &'c mut C,
    pub dice: &'d mut D,
}

impl<'l, 'c, 'd, L: Link, C: Clock, D: Dice> Line for LentLine<'l, 'c, 'd, L, C, D> {
    ghost view = { λ line. record {
      told = record {
        log = L.log line.link.now;
        readings = C.answers line.clock.now;
        waits = C.waits line.clock.now;
        drawn = D.given line.dice.now;
        faults = L.faults line.link.now;
      };
      last = C.last line.clock.now;
      objects = record {
        link = line.link.ghost_name;
        clock = line.clock.ghost_name;
        dice = line.dice.ghost_name;
      };
    } };

    fn now(&mut self) -> Moment {
        self.clock.now()
    }

    fn wait_until(&mut self, moment: Moment) -> Moment {
        self.clock.wait_until(moment)
    }

    fn word(&mut self) -> u32 {
        self.dice.word()
    }

    fn is_answered(&mut self) -> bool {
        self.link.is_answered()
    }

    fn begin_exchange(
        &mut self,
        alloc: Global,
        at: Moment,
        target: &Target,
        kind: Kind,
        body: &[u8],
    ) -> Result<bool, OutOfMemory> {
        begin_exchange(alloc, self.link, self.clock, at, target, kind, body)
    }

    fn end_exchange(
        &mut self,
        alloc: Global,
        sent: bool,
        need_digest: bool,
    ) -> Result<Exchanged, OutOfMemory> {
        end_exchange(alloc, self.link, self.clock, sent, need_digest)
    }
}
