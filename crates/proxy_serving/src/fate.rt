use lookup_messages::LookupResponse;

/// What became of a look-up.
#[derive(Debug, Drop)]
pub enum LookFate {
    /// It is not answered: a URL is left open, or the lists are not there yet.
    Unanswered,
    /// This is its answer.
    Answered(LookupResponse),
}
