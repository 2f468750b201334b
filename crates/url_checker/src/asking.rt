use hash_messages::FindRequest;
use timed_sessions::Opening;

/// A find whose session is open: what it asks for, and its session.
#[derive(Debug, Drop)]
pub struct OpenFind {
    pub request: FindRequest,
    pub opening: Opening,
}
