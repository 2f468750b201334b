ghost use Rattle.std.specs.Prelude.{◌≡◌, ℕ, ◌≤◌, List, [], drop, max, Option, Some, IfOk};
ghost use Rattle.std.specs.Option.{option_map};
ghost use Rattle.sb_outside.specs.Outside.{IfTold, with_entry};
ghost use Rattle.memory_objects.specs.Logs.{logged};
ghost use Rattle.memory_objects.specs.Scripts.{ClockInMemory, next_answer};

use crate::entries::Log;
use sb_model::{Moment, OutOfMemory, Row};
use sb_outside::Clock;
use std::alloc::Global;
use std::collections::VecDeque;
use std::marker::Model;

/// A clock that gives the readings of a list. A reading below an earlier answer answers that one again, and
/// after the list the last answer stands. It does not wait.
#[derive(Debug, Drop)]
pub struct ScriptClock {
    coming: VecDeque<Moment>,
    last: u64,
    answers: Log<Moment>,
    waits: Log<Moment>,
}

impl Model for ScriptClock {
    ghost use Rattle.std.specs.Prelude.{◌≡◌};
    ghost use Rattle.memory_objects.specs.Scripts.{ClockInMemory};

    ghost Value = { ClockInMemory };

    ghost view = { λ s. record {
      coming = s.coming.items;
      last = s.last;
      answers = s.answers.0;
      waits = s.waits.0;
      room = s.answers.1;
    } };

    ghost invariant = { λ s. s.waits.1 ≡ s.answers.1 };
}

impl ScriptClock {
    /// A clock with these readings, which lists at most `room` answers, and as many moments that it was to wait for.
    pub fn new(alloc: Global, readings: Row<Moment>, room: usize) -> Result<Self, OutOfMemory>
        ensures { IfOk result (λ clock.
            clock ≡ record { coming = readings; last = 0; answers = Some []; waits = Some []; room = room }) }
    {
        Ok(ScriptClock {
            coming: VecDeque::from(readings.into_vec()),
            last: 0,
            answers: Log::new(alloc, room)?,
            waits: Log::new(alloc, room)?,
        })
    }

    /// The answers that were given, or `None` where there were more than the clock has room for.
    pub fn answers(&self) -> Option<&[Moment]>
        ensures { option_map (λ answers. answers.now) result ≡ self.now.answers }
    {
        self.answers.entries()
    }

    /// The moments that it was to wait for, or `None` where there were more than the clock has room for.
    pub fn waits(&self) -> Option<&[Moment]>
        ensures { option_map (λ waits. waits.now) result ≡ self.now.waits }
    {
        self.waits.entries()
    }
}

/// Takes the next reading, and says what the clock answers.
fn next_answer(coming: &mut VecDeque<Moment>, last: u64) -> u64
    ensures answer { result ≡ next_answer coming.old.items last }
    ensures rest { coming.new.items ≡ drop 1 coming.old.items }
{
    match coming.pop_front() {
        Some(reading) => last.max(reading.0),
        None => last,
    }
}

impl Clock for ScriptClock {
    ghost last = { λ s. s.last };

    ghost answers = { λ s. s.answers };

    ghost waits = { λ s. s.waits };

    #[tactic(auto, using(crate::proofs::Logs::told_logged))]
    fn now(&mut self) -> Moment
        ensures answer { result.0 ≡ next_answer self.old.coming self.old.last }
        ensures after { self.new ≡ record self.old {
          coming = drop 1 self.old.coming;
          last = result.0;
          answers = logged self.old.room self.old.answers result;
        } }

        ensures rises { self.old.last ≤ result.0 }
        ensures kept { self.new.last ≡ result.0 }
        ensures told { IfTold self.new.answers (with_entry self.old.answers result) }
    {
        self.last = next_answer(&mut self.coming, self.last);
        let answer = Moment(self.last);
        self.answers.push(answer);
        answer
    }

    #[tactic(auto, using(crate::proofs::Logs::told_logged))]
    fn wait_until(&mut self, moment: Moment) -> Moment
        ensures answer { result.0 ≡ max self.old.last moment.0 }
        ensures after { self.new ≡ record self.old {
          last = result.0;
          answers = logged self.old.room self.old.answers result;
          waits = logged self.old.room self.old.waits moment;
        } }

        ensures reached { moment.0 ≤ result.0 }
        ensures rises { self.old.last ≤ result.0 }
        ensures kept { self.new.last ≡ result.0 }
        ensures told { IfTold self.new.answers (with_entry self.old.answers result) }
        ensures waited { IfTold self.new.waits (with_entry self.old.waits moment) }
    {
        self.last = self.last.max(moment.0);
        let answer = Moment(self.last);
        self.answers.push(answer);
        self.waits.push(moment);
        answer
    }
}
