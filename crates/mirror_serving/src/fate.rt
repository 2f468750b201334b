use hash_messages::FindResponse;

/// What became of a find that a client asked of a mirror.
#[derive(Debug, Drop)]
pub enum FindFate {
    /// It was not sent on: its session could not begin, or it waited too long.
    NotSent,
    /// Its session was begun, and brought no message.
    Failed,
    /// Its session brought this message.
    Brought(FindResponse),
}
