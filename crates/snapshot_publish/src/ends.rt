//! The ends of the box of one seat.
ghost use Rattle.std.specs.Prelude.{◌≡◌, true, [], ◌++◌, ◌∷◌, length, IfOk, MatchOption};
ghost use Rattle.snapshot_publish.specs.Publications.{IsPrefixOf, IsLastOf};
ghost use Rattle.snapshot_publish.specs.Publishing.{Known};
ghost use Rattle.snapshot_publish.specs.Kept.{delivered, MayDeliver};
ghost use Rattle.snapshot_publish.specs.Rule.{publishing, told_of, longer, Looked};

use crate::Snapshot;
use crate::view::{Compares, Learns, Looks, Publishes, Replaces, Rule, Tells, View};
use crossbeam_queue::{Pass, RuledArrayQueue};
use sb_model::OutOfMemory;
use std::alloc::Global;
use std::marker::Model;
use std::sync::{Arc, Wait};

/// What waits for one seat: the last publication that was delivered, until the seat takes it.
pub(crate) type SeatBox = RuledArrayQueue<Snapshot, View, Rule>;

/// One end of a box: the publisher's, or the seat's. Contracts see it as `Known` of `specs/Publishing.antt`.
#[derive(Drop)]
pub(crate) struct End {
    shared: Arc<SeatBox, Global>,
    pass: Pass<Snapshot, View>,
}

impl Model for End {
    ghost use Rattle.std.specs.Prelude.{◌≡◌};
    ghost use Rattle.std.specs.Arc.{arc_value};
    ghost use Rattle.crossbeam_queue.specs.Passes.{view as known, IsPassOf, ruled_capacity};
    ghost use Rattle.snapshot_publish.specs.Publishing.{Known};

    ghost Value = { Known };

    ghost view = { λ e. record { box = e.pass.table_id; view = known e.pass } };

    ghost invariant = { λ e. IsPassOf (arc_value e.shared) e.pass × (ruled_capacity (arc_value e.shared) ≡ 1) };
}

/// What is told to one seat. Contracts see it as `Told` of `specs/Publishing.antt`.
#[derive(Drop)]
pub(crate) struct Letter {
    pass: Pass<Snapshot, View>,
    last: Snapshot,
}

impl Model for Letter {
    ghost use Rattle.std.specs.Prelude.{◌≡◌, []};
    ghost use Rattle.crossbeam_queue.specs.Passes.{view as known};
    ghost use Rattle.snapshot_publish.specs.Publications.{IsLastOf};
    ghost use Rattle.snapshot_publish.specs.Publishing.{Told};

    ghost Value = { Told };

    ghost view = { λ l. record { box = l.pass.table_id; list = (known l.pass).list } };

    ghost invariant = { λ l. (l.pass.me.1 ≡ []) × IsLastOf (known l.pass).list l.last };
}

impl End {
    /// The publisher's end of a new box, with no publication.
    pub(crate) fn new(alloc: Global) -> Result<End, OutOfMemory>
        ensures { IfOk result (λ end. end.view ≡ publishing []) }
    {
        let (shared, pass) = SeatBox::ruled(alloc, 1)?;
        let Ok(shared) = Arc::new(alloc, shared) else {
            return Err(OutOfMemory);
        };
        Ok(End { shared, pass })
    }

    /// Delivers the next publication, in the place of one that waits. It may wait for a seat that is looking.
    pub(crate) fn deliver<R: Wait>(&mut self, rt: &R, next: Snapshot)
        requires { MayDeliver next self.old }
        ensures { self.new ≡ delivered next self.old }
    {
        self.shared
            .force_push_as::<Publishes, Replaces, R>(rt, &mut self.pass, next);
    }

    /// Takes what waits, if anything does. It waits for nobody.
    pub(crate) fn take(&mut self) -> Option<Snapshot>
        ensures taken { MatchOption result (self.new ≡ self.old) (λ last. Looked self.old.view last self.new.view) }
        ensures same_box { self.new.box ≡ self.old.box }
    {
        self.shared.try_pop_as::<Looks>(&mut self.pass)
    }

    /// The seat's end, which knows what the publisher knows.
    pub(crate) fn seat_end(&mut self) -> Result<End, OutOfMemory>
        ensures kept { self.new ≡ self.old }
        ensures end { IfOk result (λ end. end ≡ record { box = self.old.box; view = told_of self.old.view }) }
    {
        let shared = Arc::try_clone(&self.shared)?;
        let pass = self.shared.another::<Tells>(&mut self.pass);
        Ok(End { shared, pass })
    }

    /// Tells what the publisher knows.
    pub(crate) fn tell(&mut self, last: Snapshot) -> Letter
        requires { IsLastOf self.old.view.list last }
        ensures kept { self.new ≡ self.old }
        ensures letter { result ≡ record { box = self.old.box; list = self.old.view.list } }
    {
        let pass = self.shared.another::<Tells>(&mut self.pass);
        Letter { pass, last }
    }

    /// Takes in what was told, and gives the last publication of it.
    pub(crate) fn learn(&mut self, letter: Letter) -> Snapshot
        requires { letter.box ≡ self.old.box }
        ensures same_box { self.new.box ≡ self.old.box }
        ensures list { self.new.view.list ≡ longer self.old.view.list letter.list }
        ensures own { IsPrefixOf self.old.view.list self.new.view.list }
        ensures told { IsPrefixOf letter.list self.new.view.list }
        ensures last { IsLastOf letter.list result }
    {
        let Letter { pass, last } = letter;
        self.shared.absorb::<Learns>(&mut self.pass, pass);
        self.shared.learn_as::<Compares>(&mut self.pass);
        last
    }
}
