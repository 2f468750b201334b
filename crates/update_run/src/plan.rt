use http_edge::Target;
use sb_model::{ListName, Row};
use update_client::FetchOptions;

/// What a run is to do.
#[derive(Debug, Drop)]
pub struct Plan {
    /// The lists that are kept up to date, 1 to 8, each once.
    pub names: Row<ListName>,
    /// How many rounds of updates are made.
    pub rounds: u32,
    pub options: FetchOptions,
    /// Whom the client asks.
    pub target: Target,
    /// Whether a response without a digest of its body is refused.
    pub need_digest: bool,
}
