use crate::ClientInfo;
use sb_model::{Bytes, ListName, Row};
use std::marker::Model;

/// One list that a client asks for. Contracts see it as `AskedList` of `specs/Messages.antt`.
#[derive(Debug, Drop)]
pub struct ListRequest {
    pub name: ListName,
    /// The state that the client holds, at most 4,096 bytes; empty where it has none.
    pub state: Bytes,
    /// The most entries that the update may have, at most 2,147,483,647; 0 for no limit.
    pub max_update: u32,
    /// The most entries that the list may have afterwards, at most 2,147,483,647; 0 for no limit.
    pub max_database: u32,
    /// Whether the client takes uncompressed sets.
    pub raw: bool,
    /// Whether the client takes Rice coded sets.
    pub rice: bool,
}

impl Model for ListRequest {
    ghost use Rattle.update_messages.specs.Messages.{AskedList, IsAskedList};

    ghost Value = { AskedList };

    ghost view = { λ r. record {
      name = r.name;
      state = r.state;
      max_update = r.max_update;
      max_database = r.max_database;
      raw = r.raw;
      rice = r.rice;
    } };

    ghost invariant = { λ r. IsAskedList (record {
      name = r.name;
      state = r.state;
      max_update = r.max_update;
      max_database = r.max_database;
      raw = r.raw;
      rice = r.rice;
    }) };
}

/// A request for updates of lists. Contracts see it as `Request` of `specs/Messages.antt`.
#[derive(Debug, Drop)]
pub struct FetchRequest {
    pub client: ClientInfo,
    /// The lists that are asked for, at most 8.
    pub items: Row<ListRequest>,
}

impl Model for FetchRequest {
    ghost use Rattle.update_messages.specs.Messages.{Request, IsRequest};

    ghost Value = { Request };

    ghost view = { λ r. record { client = r.client; items = r.items } };

    ghost invariant = { λ r. IsRequest (record { client = r.client; items = r.items }) };
}
