use crate::{Additions, Removals};
use sb_model::{Bytes, Duration, ListName, Row};
use std::marker::Model;

/// The update of one list. Contracts see it as `UpdatedList` of `specs/Messages.antt`.
#[derive(Debug, Drop)]
pub struct ListUpdate {
    pub name: ListName,
    /// Whether the update replaces the whole list.
    pub full: bool,
    /// The state that a partial update was made for, at most 4,096 bytes; empty where it names none.
    pub base: Bytes,
    pub additions: Row<Additions>,
    pub removals: Row<Removals>,
    /// The state after the update, at most 4,096 bytes.
    pub new_state: Bytes,
    /// The SHA-256 of the list's prefixes after the update, in order.
    pub checksum: [u8; 32],
}

impl Model for ListUpdate {
    ghost use Rattle.update_messages.specs.Messages.{UpdatedList, IsUpdatedList};

    ghost Value = { UpdatedList };

    ghost view = { λ u. record {
      name = u.name;
      full = u.full;
      base = u.base;
      additions = u.additions;
      removals = u.removals;
      new_state = u.new_state;
      checksum = u.checksum;
    } };

    ghost invariant = { λ u. IsUpdatedList (record {
      name = u.name;
      full = u.full;
      base = u.base;
      additions = u.additions;
      removals = u.removals;
      new_state = u.new_state;
      checksum = u.checksum;
    }) };
}

/// The answer to a fetch request.
#[derive(Debug, Drop)]
pub struct FetchResponse {
    pub items: Row<ListUpdate>,
    /// How long the client waits at least before its next request; zero where it need not.
    pub wait: Duration,
}
