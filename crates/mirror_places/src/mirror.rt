ghost use Rattle.std.specs.Prelude.{◌≡◌, ℕ, ◌+◌, ◌-◌, ◌≤◌, ◌<◌, ◌↔◌, ◌++◌, ◌∷◌, [], List, length, map, drop, All, Some, IsSome, IsTrue, IfSome, position, slice_get};
ghost use Rattle.std.specs.Option.{option_copied};
ghost use Rattle.arrayvec.specs.ArrayVec.{array_vec_len};
ghost use Rattle.update_client.specs.Held.{Held, digest_of};
ghost use Rattle.sb_model.specs.Names.{same_name};
ghost use Rattle.update_client.specs.Step.{list_named};
ghost use Rattle.mirror_places.specs.Answer.{is_held, is_served, held_at_place};
ghost use Rattle.mirror_places.specs.Places.{AreAtPlace, mirror_of_one, HaveSameNames, last_place, lists_at_place, most_kept_places, names_of_lists, newest_place, StandsForPlaces};

use arrayvec::ArrayVec;
use sb_model::ListName;
use std::alloc::Global;
use std::default::MadeWith;
use std::marker::Model;
use update_client::{ClientLists, HeldList};

// The lists at one place.
#[derive(Drop)]
struct Place {
    lists: ClientLists,
}

impl Model for Place {
    ghost use Rattle.std.specs.Prelude.{List};
    ghost use Rattle.update_client.specs.Held.{Held};

    ghost Value = { List Held };

    ghost view = { λ p. p.lists };
}

// A place that is not taken.
impl MadeWith<Global> for Place {
    fn made_with(alloc: Global) -> Place {
        Place {
            lists: ClientLists::from_lists(Vec::new(alloc)),
        }
    }
}

/// A list that is held under a token, and the digest of its set.
#[derive(Clone, Copy)]
pub(crate) struct Served<'a> {
    pub(crate) held: &'a HeldList,
    pub(crate) digest: [u8; 32],
}

/// What a mirror holds and held: the lists at its newest eight places.
#[derive(Drop)]
pub struct Mirror {
    epoch: u64,
    // how many places are no longer kept
    gone: u64,
    kept: ArrayVec<Place, 8, Global>,
    // the digest of each list at the newest place, in the order of the lists
    digests: ArrayVec<[u8; 32], 8>,
}

impl Model for Mirror {
    ghost use Rattle.mirror_places.specs.Places.{Places, IsKeptMirror};

    ghost Value = { Places };

    ghost view = { λ m. record { epoch = m.epoch; gone = m.gone; kept = m.kept.items } };

    ghost invariant = { λ m. IsKeptMirror (record { epoch = m.epoch; gone = m.gone; kept = m.kept.items }) m.digests.items };
}

// The digests of lists, in their order.
fn digests_of(lists: &ClientLists) -> ArrayVec<[u8; 32], 8>
    ensures { result.items ≡ map (λ (held : Held). digest_of held.set) lists.now }
{
    let mut digests = ArrayVec::new();
    for held in lists.lists() {
        digests.push(held.set.digest());
    }
    digests
}

// The lists of a client can be held at a place that has their names.
fn know_place(lists: &ClientLists)
    ensures { AreAtPlace (names_of_lists lists.now) lists.now }
{
    for held in lists.lists() {
        // A set that is read is known to keep to its limits.
        let _ = held.set.len();
    }
}

// Appends a place, and drops the oldest if there are eight. The answer is how many were dropped.
fn slide(kept: &mut ArrayVec<Place, 8, Global>, lists: ClientLists) -> u64
    ensures dropped { result ≡ array_vec_len kept.old - 7 }
    ensures kept { kept.new.items ≡ drop result kept.old.items ++ lists ∷ [] }
    ensures most { array_vec_len kept.old ≤ most_kept_places }
{
    if kept.is_full() {
        kept.remove(0);
        kept.push(Place { lists });
        return 1;
    }
    kept.push(Place { lists });
    0
}

// Whether a held list has a name.
fn has_name(held: &HeldList, name: ListName) -> bool
    ensures { result ≡ same_name held.now.name name }
{
    held.name == name
}

// The place of the list of a name.
fn place_of(lists: &[HeldList], name: ListName) -> Option<usize>
    ensures { result ≡ position (λ (held : Held). same_name held.name name) lists.now }
{
    lists.iter().position(|held| has_name(held, name))
}

// The list of a name, if it is held under a token, with its digest.
fn served_in<'a>(lists: &'a [HeldList], digests: &[[u8; 32]], name: ListName) -> Option<Served<'a>>
    requires { digests.now ≡ map (λ (held : Held). digest_of held.set) lists.now }
    ensures some { IfSome result (λ served. list_named name lists.now ≡ Some served.held.now) }
    ensures token { IsSome result ↔ IsTrue (is_held (list_named name lists.now)) }
    ensures digest { IfSome result (λ served. served.digest ≡ digest_of served.held.now.set) }
{
    match place_of(lists, name) {
        Some(place) => {
            let held = &lists[place];
            if held.token.is_empty() {
                return None;
            }
            let digest = digests[place];
            Some(Served { held, digest })
        }
        None => None,
    }
}

impl Mirror {
    /// A mirror of an epoch whose place 0 has these lists.
    pub fn open(alloc: Global, lists: ClientLists, epoch: u64) -> Mirror
        ensures first { result ≡ mirror_of_one epoch lists }
        ensures stands { StandsForPlaces result (lists ∷ []) }
    {
        know_place(&lists);
        let digests = digests_of(&lists);
        let mut kept = ArrayVec::new_in(alloc);
        kept.push(Place { lists });
        Mirror {
            epoch,
            gone: 0,
            kept,
            digests,
        }
    }

    /// Appends lists, which have the names of those that it holds, as a new place, and answers its number. The newest eight places are kept.
    pub fn push(&mut self, lists: ClientLists) -> u64
        requires names { (newest : List Held) → lists_at_place self.old (newest_place self.old) ≡ Some newest → names_of_lists lists ≡ names_of_lists newest }
        requires more { newest_place self.old < last_place }
        ensures place { result ≡ newest_place self.new }
        ensures stands { (places : List (List Held)) → StandsForPlaces self.old places → StandsForPlaces self.new (places ++ lists ∷ []) }
        ensures epoch { self.new.epoch ≡ self.old.epoch }
    {
        know_place(&lists);
        self.digests = digests_of(&lists);
        self.gone += slide(&mut self.kept, lists);
        self.gone + self.kept.len() as u64 - 1
    }

    /// The epoch that its tokens name.
    pub fn epoch(&self) -> u64
        ensures { result ≡ self.now.epoch }
    {
        self.epoch
    }

    // How many places are no longer kept. Some place is.
    pub(crate) fn gone(&self) -> u64
        ensures value { result ≡ self.now.gone }
        ensures some { 0 < length self.now.kept }
    {
        self.gone
    }

    // The lists at all kept places have the same names.
    pub(crate) fn know_names(&self)
        ensures { HaveSameNames self.now }
    {
        // A mirror whose fields are read is known to keep to its invariant.
        let _ = &self.gone;
    }

    // The list of a name at a place; `None` where the place is not kept, or has no list of the name.
    pub(crate) fn list_at(&self, place: u64, name: ListName) -> Option<&HeldList>
        ensures { option_copied result ≡ held_at_place self.now place name }
    {
        match self.kept(place) {
            Some(lists) => lists.find(name),
            None => None,
        }
    }

    // The newest list of a name, if it is held under a token.
    pub(crate) fn served(&self, name: ListName) -> Option<Served<'_>>
        ensures some { IfSome result (λ served. held_at_place self.now (newest_place self.now) name ≡ Some served.held.now) }
        ensures token { IsSome result ↔ IsTrue (is_served self.now name) }
        ensures digest { IfSome result (λ served. served.digest ≡ digest_of served.held.now.set) }
    {
        let newest = &self.kept[self.kept.len() - 1];
        served_in(newest.lists.lists(), &self.digests, name)
    }

    /// Whether it answers for a list: it holds the list at its newest place, under a token.
    pub fn serves(&self, name: ListName) -> bool
        ensures { result ≡ is_served self.now name }
    {
        self.served(name).is_some()
    }

    /// The newest place, counted from 0.
    pub fn newest(&self) -> u64
        ensures value { result ≡ newest_place self.now }
        ensures within { result ≤ last_place }

        // It is the last of the places that the mirror stands for.
        ensures last { (places : List (List Held)) → StandsForPlaces self.now places → result + 1 ≡ length places }
    {
        self.gone + self.kept.len() as u64 - 1
    }

    /// The lists at a place; `None` exactly if the place is not kept.
    pub fn kept(&self, place: u64) -> Option<&ClientLists>
        ensures value { option_copied result ≡ lists_at_place self.now place }

        // They are those that stand there, and the newest eight places are kept.
        ensures there { (places : List (List Held)) → StandsForPlaces self.now places → IfSome result (λ lists. slice_get places place ≡ Some lists.now) }
        ensures newest { (places : List (List Held)) → StandsForPlaces self.now places
            → IsSome result ↔ ((place < length places) × (length places ≤ place + most_kept_places)) }
    {
        if place < self.gone {
            return None;
        }
        match self.kept.get((place - self.gone) as usize) {
            Some(place) => Some(&place.lists),
            None => None,
        }
    }
}
