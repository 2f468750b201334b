ghost use Rattle.std.specs.Prelude.{◌≡◌, [], true, false, is_err, IsTrue, IfOk};
ghost use Rattle.snapshot_publish.specs.Publications.{IsPrefixOf, IsLastOf};
ghost use Rattle.snapshot_publish.specs.Publishing.{IsOf};
ghost use Rattle.snapshot_publish.specs.Rule.{longer};

use crate::ends::End;
use crate::{Note, Snapshot};
use sb_model::OutOfMemory;
use std::marker::Model;

/// A place from which one thread at a time looks at the publications. Contracts see it as `Seated` of `specs/Publishing.antt`.
#[derive(Drop)]
pub struct Seat {
    end: End,
    place: usize,
    /// The last publication that it knows, until memory is refused.
    held: Option<Snapshot>,
    looked: bool,
}

impl Model for Seat {
    ghost use Rattle.std.specs.Prelude.{is_none};
    ghost use Rattle.snapshot_publish.specs.Publishing.{Seated};
    ghost use Rattle.snapshot_publish.specs.Kept.{IsSeat};

    ghost Value = { Seated };

    ghost view = { λ s. record { place = s.place; box = s.end.box; list = s.end.view.list; looked = s.looked; failed = is_none s.held } };

    ghost invariant = { λ s. IsSeat s.end.view s.held };
}

impl Seat {
    /// A seat at its end of a box, which knows publications of which this is the last.
    pub(crate) fn new(end: End, place: usize, last: Snapshot) -> Seat
        requires { IsLastOf end.view.list last }
        ensures { result ≡ record { place = place; box = end.box; list = end.view.list; looked = false; failed = false } }
    {
        Seat {
            end,
            place,
            held: Some(last),
            looked: false,
        }
    }

    /// Takes in what the publisher told: the seat then knows the longer of its publications and the note's, its own where they are equally
    /// long. It begins with both.
    pub fn learn(&mut self, note: Note)
        requires { IsOf note.boxes self.old }
        ensures list { self.new.list ≡ longer self.old.list note.list }
        ensures own { IsPrefixOf self.old.list self.new.list }
        ensures told { IsPrefixOf note.list self.new.list }
        ensures rest { self.new ≡ record self.old { list = self.new.list; looked = false } }
    {
        let Note { letters } = note;
        let mut letters = letters.into_vec();
        let letter = letters.swap_remove(self.place);
        let last = self.end.learn(letter);
        self.looked = false;
        let newer = match &self.held {
            Some(held) => held.number < last.number,
            None => false,
        };
        if newer {
            self.held = Some(last);
        }
    }

    // Takes what waits, and holds it.
    fn look(&mut self)
        ensures later { IsPrefixOf self.old.list self.new.list }
        ensures rest { self.new ≡ record self.old { list = self.new.list; looked = true; failed = self.new.failed } }
        ensures failed { IsTrue self.new.failed → IsTrue self.old.failed }
    {
        self.looked = true;
        if let Some(last) = self.end.take() {
            self.held = Some(last);
        }
    }

    // The publication that it holds.
    fn answer(&mut self) -> Result<Snapshot, OutOfMemory>
        ensures last { IfOk result (IsLastOf self.new.list) }
        ensures rest { self.new ≡ record self.old { failed = is_err result } }
        ensures again { IsTrue self.old.failed → is_err result ≡ true }
    {
        let answer = match &self.held {
            Some(held) => held.copy(),
            None => Err(OutOfMemory),
        };
        if answer.is_err() {
            self.held = None;
        }
        answer
    }

    /// The last publication, by a look that waits for nobody: where none was delivered since the last look, it is the one that the seat knows
    /// already. The publications that it then knows begin with those that it knew before. After an `Err` each further call answers `Err`.
    pub fn latest(&mut self) -> Result<Snapshot, OutOfMemory>
        ensures last { IfOk result (IsLastOf self.new.list) }
        ensures later { IsPrefixOf self.old.list self.new.list }
        ensures looked { IfOk result (λ _. self.new.looked ≡ true) }
        ensures place { self.new.place ≡ self.old.place }
        ensures same_box { self.new.box ≡ self.old.box }
        ensures failed { self.new.failed ≡ is_err result }
        ensures again { IsTrue self.old.failed → is_err result ≡ true }
    {
        if self.held.is_some() {
            self.look();
        }
        self.answer()
    }

    /// Whether it looked since it learnt last.
    pub fn looked(&self) -> bool
        ensures { result ≡ self.now.looked }
    {
        self.looked
    }
}
