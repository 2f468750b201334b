ghost use Rattle.std.specs.Prelude.{◌≡◌, suc, ◌^◌, ◌<◌, ◌↔◌, [], ◌∷◌, ◌++◌, true, false, length, map, is_err, slice_get, Some, All, IsSome, IfSome, IsTrue, IfOk, OnOk, OnErr};
ghost use Rattle.snapshot_publish.specs.Publications.{IsPublicationKept, IsLastOf};
ghost use Rattle.snapshot_publish.specs.Publishing.{box_of, told_at};
ghost use Rattle.snapshot_publish.specs.Kept.{delivered, MayDeliver};
ghost use Rattle.snapshot_publish.specs.Rule.{publishing};

use crate::ends::{End, Letter};
use crate::kept::{keep, of, trim};
use crate::{Note, Snapshot};
use sb_model::{OutOfMemory, Row};
use std::alloc::Global;
use std::collections::VecDeque;
use std::marker::Model;
use std::sync::Wait;
use update_client::ClientLists;

/// What publishes lists for seats to look at. It keeps the newest 17 publications. Contracts see it as `Publishing` of
/// `specs/Publishing.antt`.
#[derive(Drop)]
pub struct Publisher {
    /// One end of the box of each seat.
    ends: Row<End>,
    kept: VecDeque<Snapshot>,
    /// The last publication's number.
    last: u64,
    failed: bool,
    alloc: Global,
}

impl Model for Publisher {
    ghost use Rattle.std.specs.Prelude.{map};
    ghost use Rattle.snapshot_publish.specs.Publishing.{Publishing, publications_at_first, box_of};
    ghost use Rattle.snapshot_publish.specs.Kept.{IsPublisher};

    ghost Value = { Publishing };

    ghost view = { λ p. record { boxes = map box_of p.ends; list = publications_at_first p.ends; failed = p.failed } };

    ghost invariant = { λ p. IsPublisher p.ends p.kept.items p.last };
}

// So many copies of a publication.
fn copies_of(alloc: Global, next: &Snapshot, count: usize) -> Result<Row<Snapshot>, OutOfMemory>
    ensures count { IfOk result (λ copies. length copies ≡ count) }
    ensures each { IfOk result (All (λ copy. copy ≡ next.now)) }
{
    let mut copies = Row::with_capacity(alloc, count)?;
    for _made in 0..count {
        copies.push(next.copy()?)?;
    }
    Ok(copies)
}

// Delivers a publication, of which these are the copies, to each seat.
fn deliver_all<R: Wait>(rt: &R, ends: &mut Row<End>, next: &Snapshot, mut copies: Row<Snapshot>)
    requires count { length copies ≡ length ends.old }
    requires copies { All (λ copy. copy ≡ next.now) copies }
    requires may { All (MayDeliver next.now) ends.old }
    ensures { ends.new ≡ map (delivered next.now) ends.old }
{
    let mut place = 0;
    while place < ends.len() {
        let Some(copy) = copies.pop() else {
            return;
        };
        ends.at_mut(place).deliver(rt, copy);
        place += 1;
    }
}

impl Publisher {
    /// A publisher with these ends, at which a first publication was delivered.
    pub(crate) fn with(
        alloc: Global,
        ends: Row<End>,
        first: Snapshot,
    ) -> Result<Publisher, OutOfMemory>
        requires some { 0 < length ends }
        requires ends { All (λ end. end.view ≡ publishing (first.lists ∷ [])) ends }
        requires number { first.number ≡ 0 }
        ensures boxes { IfOk result (λ publisher. publisher.boxes ≡ map box_of ends) }
        ensures list { IfOk result (λ publisher. publisher.list ≡ first.lists ∷ []) }
        ensures whole { IfOk result (λ publisher. publisher.failed ≡ false) }
    {
        let mut kept = VecDeque::new(alloc);
        keep(&mut kept, first)?;
        Ok(Publisher {
            ends,
            kept,
            last: 0,
            failed: false,
            alloc,
        })
    }

    /// Publishes lists, which seats see from then on, and answers the number of their publication, which is one above the last. It may wait for
    /// seats that are looking. On `Err` nothing was published, and each further call answers `Err`.
    pub fn publish<R: Wait>(&mut self, rt: &R, lists: ClientLists) -> Result<u64, OutOfMemory>
        requires { length self.old.list < 2 ^ 64 }
        ensures number { IfOk result (λ number. number ≡ length self.old.list) }
        ensures published { OnOk result (self.new.list ≡ self.old.list ++ lists ∷ []) }
        ensures unpublished { OnErr result (self.new.list ≡ self.old.list) }
        ensures boxes { self.new.boxes ≡ self.old.boxes }
        ensures failed { self.new.failed ≡ is_err result }
        ensures again { IsTrue self.old.failed → is_err result ≡ true }
    {
        if self.failed {
            return Err(OutOfMemory);
        }
        self.failed = true;
        let next = of(self.alloc, self.last + 1, lists)?;
        let copies = copies_of(self.alloc, &next, self.ends.len())?;
        keep(&mut self.kept, next.copy()?)?;
        deliver_all(rt, &mut self.ends, &next, copies);
        trim(&mut self.kept);
        self.last += 1;
        self.failed = false;
        Ok(self.last)
    }

    /// The publication of a number. `None` comes exactly where none of this number was made, or it is no longer among the newest 17.
    pub fn published(&self, number: u64) -> Option<&Snapshot>
        ensures kept { IsSome result ↔ IsPublicationKept self.now.list number }
        ensures number { IfSome result (λ snapshot. snapshot.now.number ≡ number) }
        ensures lists { IfSome result (λ snapshot. slice_get self.now.list number ≡ Some snapshot.now.lists) }
    {
        let later = self.last.checked_sub(number)?;
        let count = self.kept.len() as u64;
        if later >= count {
            return None;
        }
        self.kept.get((count - 1 - later) as usize)
    }

    /// The number of the last publication.
    pub fn last_number(&self) -> u64
        ensures { suc result ≡ length self.now.list }
    {
        self.last
    }

    /// Tells what was published, for any seat to learn.
    pub fn tell(&mut self) -> Result<Note, OutOfMemory>
        ensures boxes { IfOk result (λ note. note.boxes ≡ self.old.boxes) }
        ensures list { IfOk result (λ note. note.list ≡ self.old.list) }
        ensures kept { self.new ≡ self.old }
    {
        let Some(last) = self.kept.back() else {
            return Err(OutOfMemory);
        };
        let letters = letters_of(self.alloc, &mut self.ends, last)?;
        Ok(Note { letters })
    }

    /// Lets go of the publisher. Seats that remain show the last publication.
    pub fn end(self) {
        drop(self);
    }
}

// A letter for each seat, of which this is the last publication.
fn letters_of(
    alloc: Global,
    ends: &mut Row<End>,
    last: &Snapshot,
) -> Result<Row<Letter>, OutOfMemory>
    requires { All (λ end. IsLastOf end.view.list last.now) ends.old }
    ensures kept { ends.new ≡ ends.old }
    ensures letters { IfOk result (λ letters. letters ≡ map told_at ends.old) }
{
    let mut letters = Row::with_capacity(alloc, ends.len())?;
    let mut place = 0;
    while place < ends.len() {
        let letter = ends.at_mut(place).tell(last.copy()?);
        letters.push(letter)?;
        place += 1;
    }
    Ok(letters)
}
