ghost use Rattle.std.specs.Prelude.{◌≡◌, ◌≤◌, List, map, string_bytes, option_map, option_and_then, IfOk};
ghost use Rattle.sb_words.specs.CommandLine.{given_of, Text as Word};
ghost use Rattle.client_words.specs.Asking.{number_given};
ghost use Rattle.proxy_words.specs.ProxyLine.{proxy_given, proxy_listen_given, proxy_numbers_given, proxy_of, proxy_shape, proxy_with, AsksSoundServer};

use client_words::{Asking, are_words, asked_targets_are_sound, asking_in, number_in};
use sb_model::{ListName, OutOfMemory, Row};
use sb_words::{OptionKind, OptionShape, Shape, Words, listen_address, lists, number, read_words};
use std::alloc::Global;
use std::marker::Model;

/// The words of `serve`.
const SERVE: Shape = Shape {
    options: &[
        OptionShape {
            name: "store",
            kind: OptionKind::Needed,
        },
        OptionShape {
            name: "server",
            kind: OptionKind::Needed,
        },
        OptionShape {
            name: "listen",
            kind: OptionKind::Needed,
        },
        OptionShape {
            name: "connections",
            kind: OptionKind::Optional,
        },
        OptionShape {
            name: "rounds",
            kind: OptionKind::Optional,
        },
        OptionShape {
            name: "patience",
            kind: OptionKind::Optional,
        },
        OptionShape {
            name: "peers",
            kind: OptionKind::Optional,
        },
        OptionShape {
            name: "answers",
            kind: OptionKind::Optional,
        },
        OptionShape {
            name: "key",
            kind: OptionKind::Optional,
        },
        OptionShape {
            name: "max-update",
            kind: OptionKind::Optional,
        },
        OptionShape {
            name: "max-database",
            kind: OptionKind::Optional,
        },
        OptionShape {
            name: "raw-only",
            kind: OptionKind::Flag,
        },
        OptionShape {
            name: "no-digest",
            kind: OptionKind::Flag,
        },
    ],
    takes_positionals: true,
};

/// The most connections that the words can say.
const MOST_CONNECTIONS: u64 = 1_000_000;

/// The most rounds that the words can say.
const MOST_ROUNDS: u64 = 65_536;

/// How many connections are served, and how many rounds are made, if the words say none.
const UNSAID: u32 = 4_294_967_295;

/// The most seconds of patience: a day.
const MOST_SECONDS: u64 = 86_400;

/// The most connections that are open at once, and the most MiB of answers that wait to be taken.
const MOST_ROOM: u64 = 4_096;

/// The numbers of a proxy's command line.
#[derive(Clone, Copy, Debug, PartialEq, Eq)]
pub struct ProxyNumbers {
    /// After how many connections the proxy ends.
    pub connections: u32,
    /// After how many rounds of updates it ends.
    pub rounds: u32,
    /// How long a look-up waits at most for the moment at which a find may be sent, in seconds, at most a day.
    pub patience: u32,
    /// How many connections are open at once, from 1 to 4,096.
    pub peers: u32,
    /// How many MiB of answers wait to be taken, from 1 to 4,096.
    pub answers: u32,
}

/// What a command line of a proxy says.
#[derive(Debug, Drop)]
pub struct ProxyLine<'a> {
    /// The store and the server, and what that is asked for.
    pub asking: Asking<'a>,
    /// The address at which connections come in.
    pub listen: &'a str,
    /// The lists, one to eight, each once.
    pub names: Row<ListName>,
    pub numbers: ProxyNumbers,
}

impl<'a> Model for ProxyLine<'a> {
    ghost use Rattle.client_words.specs.Asking.{asking_of};
    ghost use Rattle.proxy_words.specs.ProxyLine.{ProxyWords};

    ghost Value = { ProxyWords };

    ghost view = { λ l. record {
      asking = asking_of l.asking.store.now l.asking.server.now l.asking.key.now l.asking.options l.asking.need_digest;
      listen = l.listen.now;
      names = l.names;
      numbers = l.numbers;
    } };
}

/// The address that the words give.
fn listen_in<'a>(given: &Words<'a>) -> Option<&'a str>
    ensures { option_map (λ address. address.now) result ≡ proxy_listen_given given.now.named }
{
    let listen = given.value("listen")?;
    match listen_address(listen) {
        Some(_) => Some(listen),
        None => None,
    }
}

/// The count that the words give an option, up to the most that they can say, or the greatest of 32 bits.
fn count_in(given: &Words<'_>, name: &str, most: u64) -> Option<u32>
    requires { most ≤ 1000000 }
    ensures { result ≡ number_given name.now 0 most 4294967295 given.now.named }
{
    let Some(text) = given.value(name) else {
        return Some(UNSAID);
    };
    match number(text, 0, most) {
        Some(count) => Some(count as u32),
        None => None,
    }
}

/// The numbers that the words give.
fn numbers_in(given: &Words<'_>) -> Option<ProxyNumbers>
    ensures { result ≡ proxy_numbers_given given.now.named }
{
    let connections = count_in(given, "connections", MOST_CONNECTIONS)?;
    let rounds = count_in(given, "rounds", MOST_ROUNDS)?;
    let patience = number_in(given, "patience", 0, MOST_SECONDS, 60)?;
    let peers = number_in(given, "peers", 1, MOST_ROOM, 1_024)?;
    let answers = number_in(given, "answers", 1, MOST_ROOM, 512)?;
    Some(ProxyNumbers {
        connections,
        rounds,
        patience: patience as u32,
        peers: peers as u32,
        answers: answers as u32,
    })
}

/// What the words after `serve` say, for these lists.
fn line_with<'a>(given: &Words<'a>, names: Row<ListName>) -> Option<ProxyLine<'a>>
    ensures { result ≡ proxy_with names given.now.named }
{
    let asking = asking_in(given)?;
    let listen = listen_in(given)?;
    let numbers = numbers_in(given)?;
    Some(ProxyLine {
        asking,
        listen,
        names,
        numbers,
    })
}

/// What the words after `serve` say, by what they give.
fn line_in<'a>(alloc: Global, given: &Words<'a>) -> Result<Option<ProxyLine<'a>>, OutOfMemory>
    ensures { IfOk result (λ line. line ≡ proxy_given given.now) }
{
    match lists(alloc, given.positionals()) {
        Ok(Some(names)) => Ok(line_with(given, names)),
        Ok(None) => Ok(None),
        Err(OutOfMemory) => Err(OutOfMemory),
    }
}

/// What the words after `serve` say.
fn line_of<'a>(alloc: Global, words: &'a [String]) -> Result<Option<ProxyLine<'a>>, OutOfMemory>
    ensures { IfOk result (λ line. line ≡ option_and_then proxy_given (given_of proxy_shape (map string_bytes words.entry.now))) }
{
    match read_words(alloc, &SERVE, words) {
        Ok(Some(given)) => line_in(alloc, &given),
        Ok(None) => Ok(None),
        Err(OutOfMemory) => Err(OutOfMemory),
    }
}

/// What the words of a proxy's command line say; `None` if they are no such words. They are `sbproxy serve --store PATH
/// --server HOST:PORT --listen HOST:PORT`, then any of `--connections`, up to 1,000,000, `--rounds`, up to 65,536, `--patience`, up to 86,400
/// seconds, `--peers` and `--answers`, 1 to 4,096, and of the options of a client's run, and one to eight lists.
pub fn proxy_line<'a>(
    alloc: Global,
    words: &'a [String],
) -> Result<Option<ProxyLine<'a>>, OutOfMemory>
    ensures { IfOk result (λ line. line ≡ proxy_of (map string_bytes words.entry.now)) }
{
    let [program, command, rest @ ..] = words else {
        return Ok(None);
    };
    if are_words(program, command, "sbproxy", "serve") {
        return line_of(alloc, rest);
    }
    Ok(None)
}

/// Whom the words have a proxy ask has a host and a key that stand each in one line.
pub fn proxies_ask_sound_targets()
    ensures { (words : List Word) → AsksSoundServer words }
{
    asked_targets_are_sound();
}
