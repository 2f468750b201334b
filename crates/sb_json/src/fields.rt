ghost use Rattle.std.specs.Prelude.{◌≡◌};
ghost use Rattle.sb_json.specs.Fields.{key_of, label_of};

use std::fmt;

/// A member of an object of a message, or the top value of one.
#[derive(Clone, Copy, Debug, PartialEq, Eq, Hash)]
pub enum Field {
    Client,
    ClientId,
    ClientVersion,
    ListUpdateRequests,
    ThreatType,
    PlatformType,
    ThreatEntryType,
    State,
    Constraints,
    MaxUpdateEntries,
    MaxDatabaseEntries,
    SupportedCompressions,
    ListUpdateResponses,
    ResponseType,
    Additions,
    Removals,
    CompressionType,
    RawHashes,
    PrefixSize,
    /// The member `rawHashes` of the object `rawHashes`.
    RawHashBytes,
    RawIndices,
    Indices,
    RiceHashes,
    RiceIndices,
    FirstValue,
    RiceParameter,
    NumEntries,
    EncodedData,
    NewClientState,
    BaseState,
    Checksum,
    Sha256,
    MinimumWaitDuration,
    ClientStates,
    ThreatInfo,
    ThreatTypes,
    PlatformTypes,
    ThreatEntryTypes,
    ThreatEntries,
    Hash,
    Matches,
    Threat,
    /// The member `hash` of the object `threat`.
    ThreatHash,
    CacheDuration,
    NegativeCacheDuration,
    Url,
    ThreatLists,
    /// The top value, which is no member.
    Root,
}

impl Field {
    /// Its name in JSON.
    pub fn key(self) -> &'static str
        ensures { result.now ≡ key_of self }
    {
        match self {
            Field::Client => "client",
            Field::ClientId => "clientId",
            Field::ClientVersion => "clientVersion",
            Field::ListUpdateRequests => "listUpdateRequests",
            Field::ThreatType => "threatType",
            Field::PlatformType => "platformType",
            Field::ThreatEntryType => "threatEntryType",
            Field::State => "state",
            Field::Constraints => "constraints",
            Field::MaxUpdateEntries => "maxUpdateEntries",
            Field::MaxDatabaseEntries => "maxDatabaseEntries",
            Field::SupportedCompressions => "supportedCompressions",
            Field::ListUpdateResponses => "listUpdateResponses",
            Field::ResponseType => "responseType",
            Field::Additions => "additions",
            Field::Removals => "removals",
            Field::CompressionType => "compressionType",
            Field::RawHashes | Field::RawHashBytes => "rawHashes",
            Field::PrefixSize => "prefixSize",
            Field::RawIndices => "rawIndices",
            Field::Indices => "indices",
            Field::RiceHashes => "riceHashes",
            Field::RiceIndices => "riceIndices",
            Field::FirstValue => "firstValue",
            Field::RiceParameter => "riceParameter",
            Field::NumEntries => "numEntries",
            Field::EncodedData => "encodedData",
            Field::NewClientState => "newClientState",
            Field::BaseState => "baseState",
            Field::Checksum => "checksum",
            Field::Sha256 => "sha256",
            Field::MinimumWaitDuration => "minimumWaitDuration",
            Field::ClientStates => "clientStates",
            Field::ThreatInfo => "threatInfo",
            Field::ThreatTypes => "threatTypes",
            Field::PlatformTypes => "platformTypes",
            Field::ThreatEntryTypes => "threatEntryTypes",
            Field::ThreatEntries => "threatEntries",
            Field::Hash | Field::ThreatHash => "hash",
            Field::Matches => "matches",
            Field::Threat => "threat",
            Field::CacheDuration => "cacheDuration",
            Field::NegativeCacheDuration => "negativeCacheDuration",
            Field::Url => "url",
            Field::ThreatLists => "threatLists",
            Field::Root => "message",
        }
    }

    /// Its name in a printed fault: that in JSON, but for two that are told with the object that they
    /// stand in.
    pub fn label(self) -> &'static str
        ensures { result.now ≡ label_of self }
    {
        match self {
            Field::RawHashBytes => "rawHashes.rawHashes",
            Field::ThreatHash => "threat.hash",
            _ => self.key(),
        }
    }
}

/// As its label.
impl fmt::Display for Field {
    fn fmt<W: fmt::Write>(&self, f: &mut fmt::Formatter<W>) -> fmt::Result {
        f.write_str(self.label())
    }
}
