use hash_prefixes::Prefix;
use sb_model::{Bytes, EntryType, PlatformType, Row, ThreatType};
use std::marker::Model;
use update_messages::ClientInfo;

/// A request for the full hashes that begin with some prefixes. Contracts see it as `AskedHashes`
/// of `specs/Messages.antt`.
#[derive(Debug, Drop)]
pub struct FindRequest {
    pub client: ClientInfo,
    /// The states of the lists that the client holds.
    pub states: Row<Bytes>,
    /// The threat types that are asked for.
    pub threats: Row<ThreatType>,
    /// The platform types that are asked for.
    pub platforms: Row<PlatformType>,
    /// The threat entry types that are asked for.
    pub entries: Row<EntryType>,
    /// The prefixes that are asked for, at most 1,024.
    pub prefixes: Row<Prefix>,
}

impl Model for FindRequest {
    ghost use Rattle.hash_messages.specs.Messages.{AskedHashes, IsAskedHashes};

    ghost Value = { AskedHashes };

    ghost view = { λ r. record {
      client = r.client;
      states = r.states;
      threats = r.threats;
      platforms = r.platforms;
      entries = r.entries;
      prefixes = r.prefixes;
    } };

    ghost invariant = { λ r. IsAskedHashes (record {
      client = r.client;
      states = r.states;
      threats = r.threats;
      platforms = r.platforms;
      entries = r.entries;
      prefixes = r.prefixes;
    }) };
}
