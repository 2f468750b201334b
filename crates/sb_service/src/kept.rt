ghost use Rattle.std.specs.Prelude.{ℕ};
ghost use Rattle.sb_model.specs.History.{History};
ghost use Rattle.delta_server.specs.declared.answering.Settings.{Settings};
ghost use Rattle.sb_service.specs.Kept.{are_whole, same_wishes, AreKeptOf};

use crate::wish::{Wish, are_same, are_whole};
use http_serving::{KeptAnswers, Meaning, Room};
use sb_model::Row;
use std::alloc::Global;
use std::marker::Model;

/// What those items of a request for updates wish for which a list answers, in order.
#[derive(Drop)]
pub(crate) struct Wishes(pub Row<Wish>);

impl Model for Wishes {
    ghost use Rattle.std.specs.Prelude.{List};
    ghost use Rattle.sb_service.specs.declared.wish.Wish.{Wish as ItemWish};

    ghost Value = { List ItemWish };

    ghost view = { λ w. w.0 };
}

impl Meaning for Wishes {
    ghost same = { same_wishes };

    ghost first = { are_whole };

    fn is_same(&self, other: &Wishes) -> bool {
        are_same(self.0.as_slice(), other.0.as_slice())
    }

    fn is_for_first(&self) -> bool {
        are_whole(self.0.as_slice())
    }
}

/// The room for answers whose every item is a whole list: 16 of at most 48 MiB. One of less than 4,096 bytes would take the place
/// of one that costs more to write.
const WHOLE: Room = Room {
    answers: 16,
    bytes: 50_331_648,
    least: 4_096,
};

/// The room for other answers: 48 of at most 16 MiB.
const OTHERS: Room = Room {
    answers: 48,
    bytes: 16_777_216,
    least: 0,
};

/// No answers yet. They are kept by the bodies of their requests and by what these wish.
pub(crate) fn nothing_kept(alloc: Global) -> KeptAnswers<Wishes>
    ensures { (history : History) (times : Settings) → AreKeptOf history times result }
{
    KeptAnswers::new(alloc, WHOLE, OTHERS)
}
