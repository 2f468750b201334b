use sb_model::{EntryType, PlatformType, Row, Text, ThreatType};
use std::marker::Model;
use update_messages::ClientInfo;

/// A request to look up URLs in lists. Contracts see it as `AskedUrls` of `specs/Messages.antt`.
#[derive(Debug, Drop)]
pub struct LookupRequest {
    pub client: ClientInfo,
    /// The threat types that are asked for.
    pub threats: Row<ThreatType>,
    /// The platform types that are asked for.
    pub platforms: Row<PlatformType>,
    /// The threat entry types that are asked for.
    pub entries: Row<EntryType>,
    /// The URLs that are looked up, as they are asked, at most 500.
    pub urls: Row<Text>,
}

impl Model for LookupRequest {
    ghost use Rattle.lookup_messages.specs.Messages.{AskedUrls, IsAskedUrls};

    ghost Value = { AskedUrls };

    ghost view = { λ r. record {
      client = r.client;
      threats = r.threats;
      platforms = r.platforms;
      entries = r.entries;
      urls = r.urls;
    } };

    ghost invariant = { λ r. IsAskedUrls (record {
      client = r.client;
      threats = r.threats;
      platforms = r.platforms;
      entries = r.entries;
      urls = r.urls;
    }) };
}
