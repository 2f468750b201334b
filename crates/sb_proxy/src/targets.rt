ghost use Rattle.std.specs.Prelude.{◌≡◌, IfOk, Some, map, option_map, string_bytes};
ghost use Rattle.std.specs.Str.{chars};
ghost use Rattle.proxy_words.specs.ProxyLine.{proxy_of};
ghost use Rattle.sb_proxy.specs.Places.{proxy_listen, proxy_room, proxy_server, proxy_store};

use proxy_words::{ProxyLine, proxy_line};
use sb_model::{OutOfMemory, Text};
use std::alloc::Global;

/// How much a door holds.
#[derive(Clone, Copy, Debug, PartialEq, Eq)]
pub struct ProxyRoom {
    /// How many connections are open at once, from 1 to 4,096.
    pub peers: u32,
    /// How many MiB of answers wait to be taken, from 1 to 4,096.
    pub answers: u32,
}

/// Where a proxy has its objects, and how much its door holds.
#[derive(Debug, Drop)]
pub struct ProxyTargets {
    /// The path of the store.
    pub store: Option<Text>,
    /// The address of the server that it asks.
    pub server: Option<Text>,
    /// The address at which connections come in.
    pub listen: Option<Text>,
    /// How much the door at that address holds.
    pub room: Option<ProxyRoom>,
}

/// Where the proxy of a command line has its objects.
fn targets_at(alloc: Global, line: &ProxyLine<'_>) -> Result<ProxyTargets, OutOfMemory>
    ensures store { IfOk result (λ targets. targets.store ≡ Some (chars line.now.asking.store)) }
    ensures server { IfOk result (λ targets. targets.server ≡ Some (chars line.now.asking.server)) }
    ensures listen { IfOk result (λ targets. targets.listen ≡ Some (chars line.now.listen)) }
    ensures room { IfOk result (λ targets. targets.room
        ≡ Some (record { peers = line.now.numbers.peers; answers = line.now.numbers.answers })) }
{
    Ok(ProxyTargets {
        store: Some(Text::from_str(alloc, line.asking.store)?),
        server: Some(Text::from_str(alloc, line.asking.server)?),
        listen: Some(Text::from_str(alloc, line.listen)?),
        room: Some(ProxyRoom {
            peers: line.numbers.peers,
            answers: line.numbers.answers,
        }),
    })
}

/// Where the proxy that the words are has its objects: `None` of each where the words are no command line of `serve`.
pub fn proxy_targets(alloc: Global, words: &[String]) -> Result<ProxyTargets, OutOfMemory>
    ensures store { IfOk result (λ targets. targets.store ≡ option_map chars (proxy_store (proxy_of (map string_bytes words.now)))) }
    ensures server { IfOk result (λ targets. targets.server ≡ option_map chars (proxy_server (proxy_of (map string_bytes words.now)))) }
    ensures listen { IfOk result (λ targets. targets.listen ≡ option_map chars (proxy_listen (proxy_of (map string_bytes words.now)))) }
    ensures room { IfOk result (λ targets. targets.room ≡ proxy_room (proxy_of (map string_bytes words.now))) }
{
    match proxy_line(alloc, words)? {
        Some(line) => targets_at(alloc, &line),
        None => Ok(ProxyTargets {
            store: None,
            server: None,
            listen: None,
            room: None,
        }),
    }
}
