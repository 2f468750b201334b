use sb_model::{Duration, ListName, Row, Text};

/// A URL that a list has.
#[derive(Debug, Drop)]
pub struct LookupMatch {
    /// The list that has it.
    pub name: ListName,
    /// The URL as it was asked.
    pub url: Text,
    /// How long the client may keep it; zero if the answer tells none.
    pub cache: Duration,
}

/// The answer to a look-up.
#[derive(Debug, Drop)]
pub struct LookupResponse {
    /// The asked URLs that lists have, each with a list that has it.
    pub matches: Row<LookupMatch>,
}
