ghost use Rattle.std.specs.Prelude.{◌≡◌, Some, IfOk, map, option_map, string_bytes};
ghost use Rattle.std.specs.Str.{chars};
ghost use Rattle.sb_client.specs.Command.{replaces_store, server_of, store_of};

use crate::command::run_line;
use crate::judge_words::judge_line;
use crate::objects::Targets;
use client_words::Asking;
use sb_model::{OutOfMemory, Text};
use std::alloc::Global;

/// The store and the server of a command line.
fn targets_at(alloc: Global, asking: &Asking<'_>, replaces: bool) -> Result<Targets, OutOfMemory>
    ensures store { IfOk result (λ targets. targets.store ≡ Some (chars asking.now.store.now)) }
    ensures replaces { IfOk result (λ targets. targets.replaces ≡ replaces) }
    ensures server { IfOk result (λ targets. targets.server ≡ Some (chars asking.now.server.now)) }
{
    Ok(Targets {
        store: Some(Text::from_str(alloc, asking.store)?),
        replaces,
        server: Some(Text::from_str(alloc, asking.server)?),
    })
}

/// Where the command that the words are has its objects: `None` of what it does not use, and of all where the words are
/// no command line. A command that judges URLs reads the store, and replaces it where it has updates.
pub fn targets(alloc: Global, words: &[String]) -> Result<Targets, OutOfMemory>
    ensures store { IfOk result (λ targets. targets.store ≡ option_map chars (store_of (map string_bytes words.now))) }
    ensures replaces { IfOk result (λ targets. targets.replaces ≡ replaces_store (map string_bytes words.now)) }
    ensures server { IfOk result (λ targets. targets.server ≡ option_map chars (server_of (map string_bytes words.now))) }
{
    if let Some(line) = run_line(alloc, words)? {
        return targets_at(alloc, &line.asking, true);
    }
    if let Some(line) = judge_line(alloc, words)? {
        return targets_at(alloc, &line.asking, line.rounds > 0);
    }
    Ok(Targets {
        store: None,
        replaces: false,
        server: None,
    })
}
