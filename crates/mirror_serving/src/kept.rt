ghost use Rattle.std.specs.Prelude.{◌≡◌, ℕ};
ghost use Rattle.http_serving.specs.Kept.{emptied};
ghost use Rattle.mirror_places.specs.Places.{Places};
ghost use Rattle.mirror_serving.specs.KeptFetches.{AreKeptOfMirror};
ghost use Rattle.mirror_serving.specs.PlaceWish.{same_place_wishes, wish_whole_lists};

use crate::wish::{PlaceWish, are_same, are_whole};
use http_serving::{KeptAnswers, Meaning, Room};
use sb_model::Row;
use std::alloc::Global;
use std::marker::Model;

/// What those items of a fetch request wish whose lists are served, in order.
#[derive(Drop)]
pub struct PlaceWishes(pub(crate) Row<PlaceWish>);

impl Model for PlaceWishes {
    ghost use Rattle.std.specs.Prelude.{List};
    ghost use Rattle.mirror_serving.specs.declared.wish.PlaceWish.{PlaceWish as ItemWish};

    ghost Value = { List ItemWish };

    ghost view = { λ w. w.0 };
}

impl Meaning for PlaceWishes {
    ghost same = { same_place_wishes };

    ghost first = { wish_whole_lists };

    fn is_same(&self, other: &PlaceWishes) -> bool {
        are_same(self.0.as_slice(), other.0.as_slice())
    }

    fn is_for_first(&self) -> bool {
        are_whole(self.0.as_slice())
    }
}

/// The room for answers whose every item is a whole list: 16 of at most 48 MiB. One of less than 4,096 bytes would take the place
/// of one that costs more to write.
const WHOLE: Room = Room {
    answers: 16,
    bytes: 50_331_648,
    least: 4_096,
};

/// The room for other answers: 48 of at most 16 MiB.
const OTHERS: Room = Room {
    answers: 48,
    bytes: 16_777_216,
    least: 0,
};

/// No answers yet. Those to fetch requests are kept by the bodies of these and by what they wish, and are answers of one mirror at its newest
/// place, with one wait. Once a place is pushed they are none: `forget_kept` lets them go.
pub fn no_answers_kept(alloc: Global) -> KeptAnswers<PlaceWishes>
    ensures { (mirror : Places) (wait : ℕ) → AreKeptOfMirror mirror wait result }
{
    KeptAnswers::new(alloc, WHOLE, OTHERS)
}

/// Lets all kept answers go, as when a place was pushed. The rooms stay, and what is left is kept of every mirror.
pub fn forget_kept(kept: &mut KeptAnswers<PlaceWishes>)
    ensures emptied { kept.new ≡ emptied kept.old }
    ensures kept { (mirror : Places) (wait : ℕ) → AreKeptOfMirror mirror wait kept.new }
{
    kept.forget_if(true);
}
