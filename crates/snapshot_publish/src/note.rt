use crate::ends::Letter;
use sb_model::Row;
use std::marker::Model;

/// What a publisher told: its publications until then, for a seat to learn. Contracts see it as `Noted` of `specs/Publishing.antt`.
#[derive(Drop)]
pub struct Note {
    /// One for each seat, in order.
    pub(crate) letters: Row<Letter>,
}

impl Model for Note {
    ghost use Rattle.std.specs.Prelude.{map};
    ghost use Rattle.snapshot_publish.specs.Publishing.{Noted, list_told, box_told};
    ghost use Rattle.snapshot_publish.specs.Kept.{IsNote};

    ghost Value = { Noted };

    ghost view = { λ n. record { boxes = map box_told n.letters; list = list_told n.letters } };

    ghost invariant = { λ n. IsNote n.letters };
}
