use sb_model::Bytes;
use update_client::ClientLists;
use wait_rules::WaitState;

/// A client between two rounds.
#[derive(Drop)]
pub struct Client {
    pub lists: ClientLists,
    /// When the next request may be sent.
    pub waits: WaitState,
    /// The text that waits to be written.
    pub page: Bytes,
}
