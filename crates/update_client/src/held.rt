use prefix_set::PrefixSet;
use sb_model::{Bytes, ListName};
use std::marker::Model;

/// A list that a client holds. Contracts see it as `Held` of `specs/Held.antt`.
#[derive(Debug, Drop)]
pub struct HeldList {
    pub name: ListName,
    /// The state token, at most 4,096 bytes; empty before the first update.
    pub token: Bytes,
    pub set: PrefixSet,
    /// Whether an update was refused since the last that was installed.
    pub resync: bool,
}

impl Model for HeldList {
    ghost use Rattle.update_client.specs.Held.{Held, IsHeldList};

    ghost Value = { Held };

    ghost view = { λ h. record { name = h.name; token = h.token; set = h.set; resync = h.resync } };

    ghost invariant = { λ h. IsHeldList (record { name = h.name; token = h.token; set = h.set; resync = h.resync }) };
}
