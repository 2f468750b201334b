ghost use Rattle.std.specs.Prelude.{◌≡◌, ◌≤◌, Bool, List, [], Some, None, is_some, IfOk, IfSome, OnErr, OnOk};
ghost use Rattle.client_line.specs.Lines.{LineView};
ghost use Rattle.http_edge.specs.Exchanges.{IsTarget};
ghost use Rattle.http_edge.specs.declared.messages.Target.{Target as Asked};
ghost use Rattle.mirror_finds.specs.Finds.{finds_start, EndsFind, FindInTurn, FindsStart, HasFindOpen, HasPassedFinds, StopsFind};
ghost use Rattle.wait_rules.specs.Waits.{may_send_at};

use client_line::Line;
use find_sessions::{begin_passed, end_passed};
use hash_messages::{FindRequest, FindResponse};
use http_edge::Target;
use sb_model::{Bytes, Moment, OutOfMemory, Row};
use std::alloc::Global;
use std::marker::Model;
use timed_sessions::{Opening, traces_go_on};
use verdict_report::Cause;
use wait_rules::WaitState;

/// A find whose session is open: what was asked, the states that it carries, what the clock read before it, and its session.
#[derive(Drop)]
pub struct OpenFind {
    pub asked: FindRequest,
    pub states: Row<Bytes>,
    pub now: Moment,
    pub opening: Opening,
}

/// A find that was ended: what was asked, and the message that came, or why none did.
#[derive(Drop)]
pub struct EndedFind {
    pub asked: FindRequest,
    pub answer: Result<FindResponse, Cause>,
}

/// The finds that a mirror passes on: when the next session may begin, and the find that is open.
#[derive(Drop)]
pub struct MirrorFinds {
    waits: WaitState,
    opened: Option<OpenFind>,
}

impl Model for MirrorFinds {
    ghost use Rattle.mirror_finds.specs.Finds.{FindsSeen};

    ghost Value = { FindsSeen };

    ghost view = { λ m. record { waits = m.waits; opened = m.opened } };
}

impl MirrorFinds {
    /// No find yet: the first may begin when this state of waiting says so.
    pub fn new(waits: WaitState) -> MirrorFinds
        ensures first { result ≡ record { waits = waits; opened = None } }
        ensures begins { (target : Asked) (need : Bool) (line : LineView) → HasPassedFinds target need (finds_start result line) [] result line }
    {
        traces_go_on();
        MirrorFinds {
            waits,
            opened: None,
        }
    }

    /// Whether a find is open.
    pub fn is_open(&self) -> bool
        ensures { result ≡ is_some self.now.opened }
    {
        self.opened.is_some()
    }

    /// Whether the next find may begin now.
    pub fn may_send(&self, now: Moment) -> bool
        ensures { result ≡ may_send_at self.now.waits now }
    {
        self.waits.may_send(now)
    }

    /// Begins to pass a find on: the clock is read, and the request is sent as it was asked, but with these states, in a session that begins
    /// when it may and stays open ("Request Frequency" of the Safe Browsing Update API, version 4). The line waits for the allowed moment if it
    /// did not come yet. If memory is refused, no session is open, the find is stopped, and a further one may be begun.
    pub fn begin<N: Line>(
        &mut self,
        alloc: Global,
        asked: FindRequest,
        states: Row<Bytes>,
        target: &Target,
        line: &mut N,
    ) -> Result<(), OutOfMemory>
        requires closed { self.old.opened ≡ None }
        requires target { IsTarget target.now }

        // After some finds a further one is open, which asks this.
        ensures begun { (need : Bool) (start : FindsStart) (finds : List FindInTurn)
            → HasPassedFinds target.now need start finds self.old (N.view line.old)
            → OnOk result (HasPassedFinds target.now need start finds self.new (N.view line.new)) }
        ensures opened { OnOk result (HasFindOpen target.now self.new (N.view line.new)) }
        ensures asks { OnOk result (IfSome self.new.opened (λ find. (find.asked ≡ asked) × (find.states ≡ states))) }

        // If memory was refused, it is one more that was stopped.
        ensures broken_off { (need : Bool) (start : FindsStart) (finds : List FindInTurn)
            → HasPassedFinds target.now need start finds self.old (N.view line.old)
            → OnErr result ((now : Moment) × StopsFind target.now need start finds self.new (N.view line.new) states asked now) }
        ensures waits { self.new.waits ≡ self.old.waits }
        ensures kept { OnErr result (self.new ≡ self.old) }

        // A fault of the link is counted.
        ensures counted { (N.view line.old).told.faults ≤ (N.view line.new).told.faults }

        // The line's objects are the same.
        ensures same { (N.view line.new).objects ≡ (N.view line.old).objects }
    {
        traces_go_on();
        let now = line.now();
        let opening = begin_passed(alloc, now, &asked, &states, self.waits, target, line)?;
        self.opened = Some(OpenFind {
            asked,
            states,
            now,
            opening,
        });
        Ok(())
    }

    /// Ends the find that is open, and gives what came. Since it was begun nothing of the line may have been used. If memory is refused, the
    /// find is stopped: its session was closed, the state of waiting is as before, and a further find may be begun.
    pub fn end<N: Line>(
        &mut self,
        alloc: Global,
        target: &Target,
        need_digest: bool,
        line: &mut N,
    ) -> Result<EndedFind, OutOfMemory>
        requires session { HasFindOpen target.now self.old (N.view line.old) }

        // It is one more of the finds that were passed on.
        ensures ended { (start : FindsStart) (finds : List FindInTurn)
            → HasPassedFinds target.now need_digest start finds self.old (N.view line.old)
            → IfOk result (λ ended. IfSome self.old.opened (λ find.
            EndsFind target.now need_digest start finds self.new (N.view line.new) find ended)) }

        // If memory was refused, it is one more that was stopped.
        ensures stopped { (start : FindsStart) (finds : List FindInTurn)
            → HasPassedFinds target.now need_digest start finds self.old (N.view line.old)
            → OnErr result (IfSome self.old.opened (λ find.
            StopsFind target.now need_digest start finds self.new (N.view line.new) find.states find.asked find.now)) }
        ensures closed { self.new.opened ≡ None }
        ensures waits_kept { OnErr result (self.new.waits ≡ self.old.waits) }
        ensures counted { (N.view line.old).told.faults ≤ (N.view line.new).told.faults }

        // The line's objects are the same.
        ensures same { (N.view line.new).objects ≡ (N.view line.old).objects }
    {
        traces_go_on();
        let Some(find) = self.opened.take() else {
            unreachable!()
        };
        let OpenFind {
            asked,
            states: _,
            now: _,
            opening,
        } = find;
        match end_passed(alloc, opening, &mut self.waits, need_digest, line) {
            Ok(answer) => Ok(EndedFind { asked, answer }),
            Err(OutOfMemory) => Err(OutOfMemory),
        }
    }
}
