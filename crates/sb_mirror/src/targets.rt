ghost use Rattle.std.specs.Prelude.{◌≡◌, IfOk, Some, map, option_map, string_bytes};
ghost use Rattle.std.specs.Str.{chars};
ghost use Rattle.mirror_words.specs.MirrorLine.{mirror_of};
ghost use Rattle.sb_mirror.specs.Places.{mirror_listen, mirror_room, mirror_server, mirror_store};

use mirror_words::{MirrorLine, mirror_line};
use sb_model::{OutOfMemory, Text};
use std::alloc::Global;

/// How much a door holds.
#[derive(Clone, Copy, Debug, PartialEq, Eq)]
pub struct MirrorRoom {
    /// How many connections are open at once, from 1 to 4,096.
    pub peers: u32,
    /// How many MiB of answers wait to be taken, from 1 to 4,096.
    pub answers: u32,
}

/// Where a mirror has its objects, and how much its door holds.
#[derive(Debug, Drop)]
pub struct MirrorTargets {
    /// The path of the store.
    pub store: Option<Text>,
    /// The address of the server that it asks.
    pub server: Option<Text>,
    /// The address at which connections come in.
    pub listen: Option<Text>,
    /// How much the door at that address holds.
    pub room: Option<MirrorRoom>,
}

/// Where the mirror of a command line has its objects.
fn targets_at(alloc: Global, line: &MirrorLine<'_>) -> Result<MirrorTargets, OutOfMemory>
    ensures store { IfOk result (λ targets. targets.store ≡ Some (chars line.now.asking.store)) }
    ensures server { IfOk result (λ targets. targets.server ≡ Some (chars line.now.asking.server)) }
    ensures listen { IfOk result (λ targets. targets.listen ≡ Some (chars line.now.listen)) }
    ensures room { IfOk result (λ targets. targets.room
        ≡ Some (record { peers = line.now.numbers.peers; answers = line.now.numbers.answers })) }
{
    Ok(MirrorTargets {
        store: Some(Text::from_str(alloc, line.asking.store)?),
        server: Some(Text::from_str(alloc, line.asking.server)?),
        listen: Some(Text::from_str(alloc, line.listen)?),
        room: Some(MirrorRoom {
            peers: line.numbers.peers,
            answers: line.numbers.answers,
        }),
    })
}

/// Where the mirror that the words are has its objects: `None` of each where the words are no command line of `serve`.
pub fn mirror_targets(alloc: Global, words: &[String]) -> Result<MirrorTargets, OutOfMemory>
    ensures store { IfOk result (λ targets. targets.store ≡ option_map chars (mirror_store (mirror_of (map string_bytes words.now)))) }
    ensures server { IfOk result (λ targets. targets.server ≡ option_map chars (mirror_server (mirror_of (map string_bytes words.now)))) }
    ensures listen { IfOk result (λ targets. targets.listen ≡ option_map chars (mirror_listen (mirror_of (map string_bytes words.now)))) }
    ensures room { IfOk result (λ targets. targets.room ≡ mirror_room (mirror_of (map string_bytes words.now))) }
{
    match mirror_line(alloc, words)? {
        Some(line) => targets_at(alloc, &line),
        None => Ok(MirrorTargets {
            store: None,
            server: None,
            listen: None,
            room: None,
        }),
    }
}
