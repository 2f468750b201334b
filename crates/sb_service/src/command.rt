ghost use Rattle.std.specs.Prelude.{◌≡◌, ◌≤◌, ◌&&◌, IfOk, IfSome, map, option_map, option_and_then, None, codes, string_bytes};
ghost use Rattle.std.specs.Str.{bytes_eq};
ghost use Rattle.sb_words.specs.About.{about_of};
ghost use Rattle.sb_words.specs.CommandLine.{given_of};
ghost use Rattle.sb_service.specs.Command.{amount_given, answer_given, answer_of, answer_shape, connections_given, exercise_given, exercise_of, exercise_shape, generate_given, generate_of, generate_shape, kind_given, kind_of, listen_given, load_given, plan_given, room_given, seconds_given, serve_given, serve_of, serve_shape, settings_given, AnswerWords, IsServerCommandOf, ServeWords};

use crate::serve::ServePlan;
use delta_server::Settings;
use sb_model::OutOfMemory;
use sb_words::{
    About, OptionKind, OptionShape, Shape, Words, asked_about, listen_address, number, read_words,
};
use std::alloc::Global;

/// The words of `answer`.
const ANSWER: Shape = Shape {
    options: &[
        OptionShape {
            name: "journal",
            kind: OptionKind::Needed,
        },
        OptionShape {
            name: "kind",
            kind: OptionKind::Needed,
        },
        OptionShape {
            name: "wait",
            kind: OptionKind::Optional,
        },
        OptionShape {
            name: "find-wait",
            kind: OptionKind::Optional,
        },
        OptionShape {
            name: "cache",
            kind: OptionKind::Optional,
        },
        OptionShape {
            name: "negative",
            kind: OptionKind::Optional,
        },
    ],
    takes_positionals: false,
};

/// The words of `serve`.
const SERVE: Shape = Shape {
    options: &[
        OptionShape {
            name: "journal",
            kind: OptionKind::Needed,
        },
        OptionShape {
            name: "listen",
            kind: OptionKind::Needed,
        },
        OptionShape {
            name: "connections",
            kind: OptionKind::Optional,
        },
        OptionShape {
            name: "peers",
            kind: OptionKind::Optional,
        },
        OptionShape {
            name: "answers",
            kind: OptionKind::Optional,
        },
        OptionShape {
            name: "hold",
            kind: OptionKind::Flag,
        },
        OptionShape {
            name: "quiet",
            kind: OptionKind::Flag,
        },
        OptionShape {
            name: "wait",
            kind: OptionKind::Optional,
        },
        OptionShape {
            name: "find-wait",
            kind: OptionKind::Optional,
        },
        OptionShape {
            name: "cache",
            kind: OptionKind::Optional,
        },
        OptionShape {
            name: "negative",
            kind: OptionKind::Optional,
        },
    ],
    takes_positionals: false,
};

/// The words of `generate`.
const GENERATE: Shape = Shape {
    options: &[OptionShape {
        name: "urls",
        kind: OptionKind::Flag,
    }],
    takes_positionals: true,
};

/// The words of `exercise`.
const EXERCISE: Shape = Shape {
    options: &[],
    takes_positionals: true,
};

/// The most changes or URLs of a load.
const MOST_MADE: u64 = 65_536;

/// The most connections that the words can say.
const MOST_CONNECTIONS: u64 = 1_000_000;

/// How many connections are served where the words say none.
const CONNECTIONS_UNSAID: u32 = 4_294_967_295;

/// The most connections that are open at once, and the most MiB of answers that wait to be taken.
const MOST_ROOM: u64 = 4_096;

/// The most seconds of a duration: a day.
const MOST_SECONDS: u64 = 86_400;

/// The message that a body is taken as.
#[derive(Clone, Copy, Debug)]
pub(crate) enum MessageKind {
    /// A request for updates (`threatListUpdates:fetch`).
    Fetch,
    /// A request for full hashes (`fullHashes:find`).
    Find,
    /// A request to look URLs up (`threatMatches:find`).
    Lookup,
}

/// How large a load is, and what it is made from.
#[derive(Clone, Copy, Debug)]
pub(crate) struct Load {
    /// How many changes or URLs, from 1 to 65,536.
    pub count: u32,
    pub seed: u64,
}

/// How much a door holds at most.
#[derive(Clone, Copy, Debug)]
pub struct DoorRoom {
    /// How many connections are open at once, from 1 to 4,096.
    pub peers: u32,
    /// How many MiB of answers wait to be taken, from 1 to 4,096.
    pub answers: u32,
}

/// What the words ask for.
#[derive(Clone, Copy, Debug)]
pub(crate) enum Command {
    /// An answer to one message of a kind, by a server with these settings.
    Answer {
        kind: MessageKind,
        settings: Settings,
    },
    /// Answers to connections, by this plan.
    Serve(ServePlan),
    /// The URLs of a load, or its journal.
    Generate {
        urls: bool,
        load: Load,
    },
    /// The line of an exercise with a load.
    Exercise(Load),
    /// What is asked about the program.
    Tell(About),
}

/// What a command line of `answer` says.
#[derive(Debug, Drop)]
pub(crate) struct AnswerLine<'a> {
    /// The path of the journal.
    pub journal: &'a str,
    pub kind: MessageKind,
    pub settings: Settings,
}

/// What a command line of `serve` says.
#[derive(Debug, Drop)]
pub(crate) struct ServeLine<'a> {
    /// The path of the journal.
    pub journal: &'a str,
    /// The address at which connections come in.
    pub listen: &'a str,
    pub room: DoorRoom,
    pub plan: ServePlan,
}

/// The seconds that the words give an option, or its default.
fn seconds(given: &Words<'_>, name: &str, default: u32) -> Option<u32>
    ensures { result ≡ seconds_given name.now default given.now.named }
{
    let Some(text) = given.value(name) else {
        return Some(default);
    };
    let Some(seconds) = number(text, 0, MOST_SECONDS) else {
        return None;
    };
    Some(seconds as u32)
}

fn settings_in(given: &Words<'_>) -> Option<Settings>
    ensures { result ≡ settings_given given.now.named }
{
    let wait = seconds(given, "wait", 1800)?;
    let find_wait = seconds(given, "find-wait", 0)?;
    let cache = seconds(given, "cache", 300)?;
    let negative = seconds(given, "negative", 300)?;
    Some(Settings {
        wait,
        find_wait,
        cache,
        negative,
    })
}

/// What a command line of `generate` says.
#[derive(Clone, Copy, Debug)]
pub(crate) struct GenerateLine {
    pub urls: bool,
    pub load: Load,
}

/// The kind of messages that a word names.
fn kind_of(word: &str) -> Option<MessageKind>
    ensures { result ≡ kind_of word.now }
{
    match word {
        "fetch" => Some(MessageKind::Fetch),
        "find" => Some(MessageKind::Find),
        "lookup" => Some(MessageKind::Lookup),
        _ => None,
    }
}

/// The kind of the message.
fn kind_in(given: &Words<'_>) -> Option<MessageKind>
    ensures { result ≡ kind_given given.now.named }
{
    let word = given.value("kind")?;
    kind_of(word)
}

/// What the words after `answer` say, by what they give.
fn line_in<'a>(given: &Words<'a>) -> Option<AnswerLine<'a>>
    ensures { option_map (λ line. record { journal = line.journal.now; kind = line.kind; settings = line.settings }) result
        ≡ answer_given given.now }
{
    let journal = given.value("journal")?;
    let kind = kind_in(given)?;
    let settings = settings_in(given)?;
    Some(AnswerLine {
        journal,
        kind,
        settings,
    })
}

/// What the words after `answer` say.
fn line_of<'a>(alloc: Global, words: &'a [String]) -> Result<Option<AnswerLine<'a>>, OutOfMemory>
    ensures { IfOk result (λ line. option_map (λ line. record { journal = line.journal.now; kind = line.kind; settings = line.settings }) line
        ≡ option_and_then answer_given (given_of answer_shape (map string_bytes words.entry.now))) }
{
    match read_words(alloc, &ANSWER, words) {
        Ok(Some(given)) => Ok(line_in(&given)),
        Ok(None) => Ok(None),
        Err(OutOfMemory) => Err(OutOfMemory),
    }
}

/// Whether the first two words are those of `answer`.
fn are_answer(program: &String, command: &String) -> bool
    ensures { result ≡ (bytes_eq (string_bytes program.now) (codes "sblistd")
        && bytes_eq (string_bytes command.now) (codes "answer")) }
{
    program.as_str() == "sblistd" && command.as_str() == "answer"
}

/// What the words of `sblistd answer` say; `None` where they are no such words.
pub(crate) fn answer_line<'a>(
    alloc: Global,
    words: &'a [String],
) -> Result<Option<AnswerLine<'a>>, OutOfMemory>
    ensures { IfOk result (λ line. option_map (λ line. record { journal = line.journal.now; kind = line.kind; settings = line.settings }) line
        ≡ answer_of (map string_bytes words.entry.now)) }
{
    let [program, command, rest @ ..] = words else {
        return Ok(None);
    };
    if are_answer(program, command) {
        return line_of(alloc, rest);
    }
    Ok(None)
}

/// The address that the words give.
fn listen_in<'a>(given: &Words<'a>) -> Option<&'a str>
    ensures { option_map (λ address. address.now) result ≡ listen_given given.now.named }
{
    let listen = given.value("listen")?;
    match listen_address(listen) {
        Some(_) => Some(listen),
        None => None,
    }
}

/// How many connections the words give, or leave open.
fn connections_in(given: &Words<'_>) -> Option<u32>
    ensures { result ≡ connections_given given.now.named }
{
    let Some(text) = given.value("connections") else {
        return Some(CONNECTIONS_UNSAID);
    };
    match number(text, 1, MOST_CONNECTIONS) {
        Some(connections) => Some(connections as u32),
        None => None,
    }
}

/// The number that the words give an option of the door's room, or its default.
fn amount(given: &Words<'_>, name: &str, default: u32) -> Option<u32>
    ensures { result ≡ amount_given name.now default given.now.named }
{
    let Some(text) = given.value(name) else {
        return Some(default);
    };
    let Some(amount) = number(text, 1, MOST_ROOM) else {
        return None;
    };
    Some(amount as u32)
}

/// The room of the door that the words give, or leave open.
fn room_in(given: &Words<'_>) -> Option<DoorRoom>
    ensures { result ≡ room_given given.now.named }
{
    let peers = amount(given, "peers", 1024)?;
    let answers = amount(given, "answers", 512)?;
    Some(DoorRoom { peers, answers })
}

/// How to serve, as the words say.
fn plan_in(given: &Words<'_>) -> Option<ServePlan>
    ensures { result ≡ plan_given given.now.named }
{
    let connections = connections_in(given)?;
    let settings = settings_in(given)?;
    Some(ServePlan {
        settings,
        connections,
        hold: given.has("hold"),
        quiet: given.has("quiet"),
    })
}

/// What the words after `serve` say, by what they give.
fn serve_line_in<'a>(given: &Words<'a>) -> Option<ServeLine<'a>>
    ensures { option_map (λ line. record { journal = line.journal.now; listen = line.listen.now; room = line.room; plan = line.plan }) result
        ≡ serve_given given.now }
{
    let journal = given.value("journal")?;
    let listen = listen_in(given)?;
    let room = room_in(given)?;
    let plan = plan_in(given)?;
    Some(ServeLine {
        journal,
        listen,
        room,
        plan,
    })
}

/// What the words after `serve` say.
fn serve_line_of<'a>(
    alloc: Global,
    words: &'a [String],
) -> Result<Option<ServeLine<'a>>, OutOfMemory>
    ensures { IfOk result (λ line. option_map (λ line. record { journal = line.journal.now; listen = line.listen.now; room = line.room; plan = line.plan }) line
        ≡ option_and_then serve_given (given_of serve_shape (map string_bytes words.entry.now))) }
{
    match read_words(alloc, &SERVE, words) {
        Ok(Some(given)) => Ok(serve_line_in(&given)),
        Ok(None) => Ok(None),
        Err(OutOfMemory) => Err(OutOfMemory),
    }
}

/// Whether the first two words are those of `serve`.
fn are_serve(program: &String, command: &String) -> bool
    ensures { result ≡ (bytes_eq (string_bytes program.now) (codes "sblistd")
        && bytes_eq (string_bytes command.now) (codes "serve")) }
{
    program.as_str() == "sblistd" && command.as_str() == "serve"
}

/// What the words of `sblistd serve` say; `None` where they are no such words.
pub(crate) fn serve_line<'a>(
    alloc: Global,
    words: &'a [String],
) -> Result<Option<ServeLine<'a>>, OutOfMemory>
    ensures { IfOk result (λ line. option_map (λ line. record { journal = line.journal.now; listen = line.listen.now; room = line.room; plan = line.plan }) line
        ≡ serve_of (map string_bytes words.entry.now)) }
{
    let [program, command, rest @ ..] = words else {
        return Ok(None);
    };
    if are_serve(program, command) {
        return serve_line_of(alloc, rest);
    }
    Ok(None)
}

/// The load that positional words say: how much, and the seed.
fn load_in(words: &[&str]) -> Option<Load>
    ensures { result ≡ load_given (map (λ s. s.now) words.now) }
{
    let [count, seed] = words else {
        return None;
    };
    let count = number(count, 1, MOST_MADE)?;
    let seed = number(seed, 0, u64::MAX)?;
    Some(Load {
        count: count as u32,
        seed,
    })
}

/// What the words after `generate` say, by what they give.
fn generate_line_in(given: &Words<'_>) -> Option<GenerateLine>
    ensures { result ≡ generate_given given.now }
{
    let load = load_in(given.positionals())?;
    let urls = given.has("urls");
    Some(GenerateLine { urls, load })
}

/// What the words after `generate` say.
fn generate_line_of(alloc: Global, words: &[String]) -> Result<Option<GenerateLine>, OutOfMemory>
    ensures { IfOk result (λ line. line
        ≡ option_and_then generate_given (given_of generate_shape (map string_bytes words.now))) }
{
    match read_words(alloc, &GENERATE, words) {
        Ok(Some(given)) => Ok(generate_line_in(&given)),
        Ok(None) => Ok(None),
        Err(OutOfMemory) => Err(OutOfMemory),
    }
}

/// Whether the first two words are those of `generate`.
fn are_generate(program: &String, command: &String) -> bool
    ensures { result ≡ (bytes_eq (string_bytes program.now) (codes "sblistd")
        && bytes_eq (string_bytes command.now) (codes "generate")) }
{
    program.as_str() == "sblistd" && command.as_str() == "generate"
}

/// What the words of `sblistd generate` say; `None` where they are no such words.
fn generate_line(alloc: Global, words: &[String]) -> Result<Option<GenerateLine>, OutOfMemory>
    ensures { IfOk result (λ line. line ≡ generate_of (map string_bytes words.now)) }
{
    let [program, command, rest @ ..] = words else {
        return Ok(None);
    };
    if are_generate(program, command) {
        return generate_line_of(alloc, rest);
    }
    Ok(None)
}

/// What the words after `exercise` say.
fn exercise_line_of(alloc: Global, words: &[String]) -> Result<Option<Load>, OutOfMemory>
    ensures { IfOk result (λ load. load
        ≡ option_and_then exercise_given (given_of exercise_shape (map string_bytes words.now))) }
{
    match read_words(alloc, &EXERCISE, words) {
        Ok(Some(given)) => Ok(load_in(given.positionals())),
        Ok(None) => Ok(None),
        Err(OutOfMemory) => Err(OutOfMemory),
    }
}

/// Whether the first two words are those of `exercise`.
fn are_exercise(program: &String, command: &String) -> bool
    ensures { result ≡ (bytes_eq (string_bytes program.now) (codes "sblistd")
        && bytes_eq (string_bytes command.now) (codes "exercise")) }
{
    program.as_str() == "sblistd" && command.as_str() == "exercise"
}

/// What the words of `sblistd exercise` say; `None` where they are no such words.
fn exercise_line(alloc: Global, words: &[String]) -> Result<Option<Load>, OutOfMemory>
    ensures { IfOk result (λ load. load ≡ exercise_of (map string_bytes words.now)) }
{
    let [program, command, rest @ ..] = words else {
        return Ok(None);
    };
    if are_exercise(program, command) {
        return exercise_line_of(alloc, rest);
    }
    Ok(None)
}

/// The command that words are which have no journal; `None` where they are none.
fn load_command(alloc: Global, words: &[String]) -> Result<Option<Command>, OutOfMemory>
    requires about { about_of (codes "sblistd") (map string_bytes words.now) ≡ None }
    requires answer { answer_of (map string_bytes words.now) ≡ None }
    requires serve { serve_of (map string_bytes words.now) ≡ None }
    ensures { IfOk result (λ command. IsServerCommandOf (map string_bytes words.now) command) }
{
    if let Some(line) = generate_line(alloc, words)? {
        let GenerateLine { urls, load } = line;
        return Ok(Some(Command::Generate { urls, load }));
    }
    match exercise_line(alloc, words)? {
        Some(load) => Ok(Some(Command::Exercise(load))),
        None => Ok(None),
    }
}

/// The command that words are which are none of `answer`; `None` where they are none.
fn serve_command(alloc: Global, words: &[String]) -> Result<Option<Command>, OutOfMemory>
    requires about { about_of (codes "sblistd") (map string_bytes words.now) ≡ None }
    requires answer { answer_of (map string_bytes words.now) ≡ None }
    ensures { IfOk result (λ command. IsServerCommandOf (map string_bytes words.now) command) }
{
    match serve_line(alloc, words) {
        Ok(Some(line)) => Ok(Some(Command::Serve(line.plan))),
        Ok(None) => load_command(alloc, words),
        Err(OutOfMemory) => Err(OutOfMemory),
    }
}

/// The command that words are which ask nothing about the program; `None` where they are none.
fn answer_command(alloc: Global, words: &[String]) -> Result<Option<Command>, OutOfMemory>
    requires about { about_of (codes "sblistd") (map string_bytes words.now) ≡ None }
    ensures { IfOk result (λ command. IsServerCommandOf (map string_bytes words.now) command) }
{
    match answer_line(alloc, words) {
        Ok(Some(line)) => Ok(Some(Command::Answer {
            kind: line.kind,
            settings: line.settings,
        })),
        Ok(None) => serve_command(alloc, words),
        Err(OutOfMemory) => Err(OutOfMemory),
    }
}

/// The command that the words are; `None` where they are none.
pub(crate) fn command_of(alloc: Global, words: &[String]) -> Result<Option<Command>, OutOfMemory>
    ensures { IfOk result (λ command. IsServerCommandOf (map string_bytes words.now) command) }
{
    match asked_about(words, "sblistd") {
        Some(about) => Ok(Some(Command::Tell(about))),
        None => answer_command(alloc, words),
    }
}
