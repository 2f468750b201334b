ghost use Rattle.std.specs.Prelude.{◌≡◌, IfOk, IfSome, IfNone, None, Some, map, option_map, string_bytes};
ghost use Rattle.std.specs.Str.{chars};
ghost use Rattle.sb_service.specs.Command.{answer_of, journal_of_words, listen_of, room_of};

use crate::command::{DoorRoom, answer_line, serve_line};
use sb_model::{OutOfMemory, Text};
use std::alloc::Global;

/// Where a command has its objects.
#[derive(Debug, Drop)]
pub struct ServerTargets {
    /// The path of the journal.
    pub journal: Option<Text>,
    /// The address at which connections come in.
    pub listen: Option<Text>,
    /// How much the door at that address holds.
    pub room: Option<DoorRoom>,
}

/// Where `serve` has its objects, of words that are none of `answer`.
fn serve_targets(alloc: Global, words: &[String]) -> Result<ServerTargets, OutOfMemory>
    requires { answer_of (map string_bytes words.now) ≡ None }
    ensures journal { IfOk result (λ targets. targets.journal ≡ option_map chars (journal_of_words (map string_bytes words.now))) }
    ensures listen { IfOk result (λ targets. targets.listen ≡ option_map chars (listen_of (map string_bytes words.now))) }
    ensures room { IfOk result (λ targets. targets.room ≡ room_of (map string_bytes words.now)) }
{
    match serve_line(alloc, words)? {
        Some(line) => Ok(ServerTargets {
            journal: Some(Text::from_str(alloc, line.journal)?),
            listen: Some(Text::from_str(alloc, line.listen)?),
            room: Some(line.room),
        }),
        None => Ok(ServerTargets {
            journal: None,
            listen: None,
            room: None,
        }),
    }
}

/// Where the command that the words are has its objects: `None` of what it does not use, and of all where the words are
/// no command line.
pub fn server_targets(alloc: Global, words: &[String]) -> Result<ServerTargets, OutOfMemory>
    ensures journal { IfOk result (λ targets. targets.journal ≡ option_map chars (journal_of_words (map string_bytes words.now))) }
    ensures listen { IfOk result (λ targets. targets.listen ≡ option_map chars (listen_of (map string_bytes words.now))) }
    ensures room { IfOk result (λ targets. targets.room ≡ room_of (map string_bytes words.now)) }
{
    match answer_line(alloc, words)? {
        Some(line) => Ok(ServerTargets {
            journal: Some(Text::from_str(alloc, line.journal)?),
            listen: None,
            room: None,
        }),
        None => serve_targets(alloc, words),
    }
}
