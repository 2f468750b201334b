ghost use Rattle.std.specs.Prelude.{◌≡◌, IfOk, false, map, string_bytes};
ghost use Rattle.std.specs.Option.{option_map_or};
ghost use Rattle.journal_run.specs.Command.{draws_epoch, command_of, journal_of};

use crate::command::{Call, Command, call_of};
use sb_model::{OutOfMemory, Text};
use std::alloc::Global;

/// What a command has from outside.
#[derive(Debug, Drop)]
pub struct JournalTargets {
    /// The path of the journal.
    pub journal: Option<Text>,
    /// Whether an epoch is drawn.
    pub draws: bool,
}

/// Whether a command draws an epoch.
fn draws_epoch(command: &Command) -> bool
    ensures { result ≡ draws_epoch command.now }
{
    match command {
        Command::New(_) | Command::Compact => true,
        _ => false,
    }
}

/// What the command that the words are has from outside: no path and no draw if the words are no command line.
pub fn journal_targets(alloc: Global, words: &[String]) -> Result<JournalTargets, OutOfMemory>
    ensures journal { IfOk result (λ targets. targets.journal ≡ journal_of (map string_bytes words.now)) }
    ensures draws { IfOk result (λ targets. targets.draws
        ≡ option_map_or draws_epoch (command_of (map string_bytes words.now)) false) }
{
    match call_of(alloc, words)? {
        Some(call) => {
            let Call { command, journal } = call;
            let draws = draws_epoch(&command);
            Ok(JournalTargets { journal, draws })
        }
        None => Ok(JournalTargets {
            journal: None,
            draws: false,
        }),
    }
}
