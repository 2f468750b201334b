ghost use Rattle.std.specs.Prelude.{◌≡◌, ℕ, List, Some, None, if◌then◌else◌, map, string_bytes, is_some, option_map, option_and_then, IfOk};
ghost use Rattle.sb_words.specs.CommandLine.{given_of};
ghost use Rattle.client_words.specs.Asking.{asking_of, lists_given};
ghost use Rattle.sb_client.specs.Command.{bare_shape, judge_given, judge_shape, replay_shape, rounds_given, run_given, run_of, run_shape, run_with, run_words, asked_text_of, IsCommandOf, JudgeWords, RunWords};

use crate::judge_words::judge_plan;
use crate::telling::told;
use client_words::{Asking, are_words, asking_in, target_of};
use judge_run::JudgePlan;
use sb_model::{Bytes, ListName, OutOfMemory, Row};
use sb_words::{OptionKind, OptionShape, Shape, Words, lists, number, read_words};
use std::alloc::Global;
use update_run::Plan;

/// The words of `replay`.
const REPLAY: Shape = Shape {
    options: &[],
    takes_positionals: true,
};

/// The words of `run`.
const RUN: Shape = Shape {
    options: &[
        OptionShape {
            name: "store",
            kind: OptionKind::Needed,
        },
        OptionShape {
            name: "server",
            kind: OptionKind::Needed,
        },
        OptionShape {
            name: "rounds",
            kind: OptionKind::Optional,
        },
        OptionShape {
            name: "key",
            kind: OptionKind::Optional,
        },
        OptionShape {
            name: "max-update",
            kind: OptionKind::Optional,
        },
        OptionShape {
            name: "max-database",
            kind: OptionKind::Optional,
        },
        OptionShape {
            name: "raw-only",
            kind: OptionKind::Flag,
        },
        OptionShape {
            name: "no-digest",
            kind: OptionKind::Flag,
        },
    ],
    takes_positionals: true,
};

/// The most rounds that the words can say.
const MOST_ROUNDS: u64 = 1024;

/// How many rounds a run makes whose words say none: with a minute each, some 8,000 years.
const ROUNDS_UNSAID: u32 = 4_294_967_295;

/// The words of `show` and of `vectors`.
const BARE: Shape = Shape {
    options: &[],
    takes_positionals: false,
};

/// What the words ask for.
#[derive(Debug, Drop)]
pub(crate) enum Command {
    /// A replay to these lists.
    Replay(Row<ListName>),
    /// A run of a client.
    Run(Plan),
    /// A run that judges URLs.
    Judge(JudgePlan),
    Show,
    Vectors,
    /// What words asked about a program, as it is printed.
    Tell(Bytes),
}

/// The lists that the words after `replay` name.
fn replay_lists(alloc: Global, words: &[String]) -> Result<Option<Row<ListName>>, OutOfMemory>
    ensures { IfOk result (λ names. names
        ≡ option_and_then lists_given (given_of replay_shape (map string_bytes words.now))) }
{
    match read_words(alloc, &REPLAY, words) {
        Ok(Some(given)) => lists(alloc, given.positionals()),
        Ok(None) => Ok(None),
        Err(OutOfMemory) => Err(OutOfMemory),
    }
}

/// The replay that the words after `replay` ask for.
fn replay_command(alloc: Global, words: &[String]) -> Result<Option<Command>, OutOfMemory>
    ensures { IfOk result (λ command. command
        ≡ option_map Command.Replay (option_and_then lists_given (given_of replay_shape (map string_bytes words.now)))) }
{
    match replay_lists(alloc, words) {
        Ok(Some(names)) => Ok(Some(Command::Replay(names))),
        Ok(None) => Ok(None),
        Err(OutOfMemory) => Err(OutOfMemory),
    }
}

/// What a command line of `run` says.
#[derive(Debug, Drop)]
pub(crate) struct RunLine<'a> {
    pub asking: Asking<'a>,
    pub names: Row<ListName>,
    pub rounds: u32,
}

/// How many rounds the words give, or leave open.
fn rounds_in(given: &Words<'_>) -> Option<u32>
    ensures { result ≡ rounds_given given.now.named }
{
    let Some(text) = given.value("rounds") else {
        return Some(ROUNDS_UNSAID);
    };
    match number(text, 1, MOST_ROUNDS) {
        Some(rounds) => Some(rounds as u32),
        None => None,
    }
}

/// What the words after `run` say, for these lists.
fn run_line_with<'a>(given: &Words<'a>, names: Row<ListName>) -> Option<RunLine<'a>>
    ensures { option_map (λ line. run_words (asking_of line.asking.store.now line.asking.server.now line.asking.key.now line.asking.options line.asking.need_digest) line.names line.rounds) result
        ≡ run_with names given.now.named }
{
    let asking = asking_in(given)?;
    let rounds = rounds_in(given)?;
    Some(RunLine {
        asking,
        names,
        rounds,
    })
}

/// What the words after `run` say, by what they give.
fn run_line_in<'a>(alloc: Global, given: &Words<'a>) -> Result<Option<RunLine<'a>>, OutOfMemory>
    ensures { IfOk result (λ line. option_map (λ line. run_words (asking_of line.asking.store.now line.asking.server.now line.asking.key.now line.asking.options line.asking.need_digest) line.names line.rounds) line
        ≡ run_given given.now) }
{
    match lists(alloc, given.positionals()) {
        Ok(Some(names)) => Ok(run_line_with(given, names)),
        Ok(None) => Ok(None),
        Err(OutOfMemory) => Err(OutOfMemory),
    }
}

/// What the words after `run` say.
fn run_line_of<'a>(alloc: Global, words: &'a [String]) -> Result<Option<RunLine<'a>>, OutOfMemory>
    ensures { IfOk result (λ line. option_map (λ line. run_words (asking_of line.asking.store.now line.asking.server.now line.asking.key.now line.asking.options line.asking.need_digest) line.names line.rounds) line
        ≡ option_and_then run_given (given_of run_shape (map string_bytes words.entry.now))) }
{
    match read_words(alloc, &RUN, words) {
        Ok(Some(given)) => run_line_in(alloc, &given),
        Ok(None) => Ok(None),
        Err(OutOfMemory) => Err(OutOfMemory),
    }
}

/// What the words of `sbupdate run` say; `None` where they are no such words.
pub(crate) fn run_line<'a>(
    alloc: Global,
    words: &'a [String],
) -> Result<Option<RunLine<'a>>, OutOfMemory>
    ensures { IfOk result (λ line. option_map (λ line. run_words (asking_of line.asking.store.now line.asking.server.now line.asking.key.now line.asking.options line.asking.need_digest) line.names line.rounds) line
        ≡ run_of (map string_bytes words.entry.now)) }
{
    let [program, command, rest @ ..] = words else {
        return Ok(None);
    };
    if are_words(program, command, "sbupdate", "run") {
        return run_line_of(alloc, rest);
    }
    Ok(None)
}

/// What a run is to do, by its command line.
fn plan_of(alloc: Global, line: RunLine<'_>) -> Result<Plan, OutOfMemory>
    ensures { IfOk result (λ plan. plan
        ≡ (run_words (asking_of line.entry.asking.store.now line.entry.asking.server.now line.entry.asking.key.now line.entry.asking.options line.entry.asking.need_digest) line.entry.names line.entry.rounds).plan) }
{
    let target = target_of(alloc, &line.asking)?;
    Ok(Plan {
        names: line.names,
        rounds: line.rounds,
        options: line.asking.options,
        target,
        need_digest: line.asking.need_digest,
    })
}

/// The run that the words after `run` ask for.
fn run_command(alloc: Global, words: &[String]) -> Result<Option<Command>, OutOfMemory>
    ensures { IfOk result (λ command. command
        ≡ option_map Command.Run (option_map (λ (line : RunWords). line.plan)
        (option_and_then run_given (given_of run_shape (map string_bytes words.now))))) }
{
    match run_line_of(alloc, words) {
        Ok(Some(line)) => Ok(Some(Command::Run(plan_of(alloc, line)?))),
        Ok(None) => Ok(None),
        Err(OutOfMemory) => Err(OutOfMemory),
    }
}

/// The run that judges URLs that the words after `judge` ask for.
fn judge_command(alloc: Global, words: &[String]) -> Result<Option<Command>, OutOfMemory>
    ensures { IfOk result (λ command. command
        ≡ option_map Command.Judge (option_map (λ (line : JudgeWords). line.plan)
        (option_and_then judge_given (given_of judge_shape (map string_bytes words.now))))) }
{
    match judge_plan(alloc, words) {
        Ok(Some(plan)) => Ok(Some(Command::Judge(plan))),
        Ok(None) => Ok(None),
        Err(OutOfMemory) => Err(OutOfMemory),
    }
}

/// Whether the words after a command that takes none are none.
fn is_bare(alloc: Global, words: &[String]) -> Result<bool, OutOfMemory>
    ensures { IfOk result (λ bare. bare ≡ is_some (given_of bare_shape (map string_bytes words.now))) }
{
    match read_words(alloc, &BARE, words) {
        Ok(Some(_)) => Ok(true),
        Ok(None) => Ok(false),
        Err(OutOfMemory) => Err(OutOfMemory),
    }
}

/// A command that takes no words, where it has none.
fn bare_command(
    alloc: Global,
    words: &[String],
    command: Command,
) -> Result<Option<Command>, OutOfMemory>
    ensures { IfOk result (λ found. found
        ≡ (if is_some (given_of bare_shape (map string_bytes words.now)) then Some command else None)) }
{
    match is_bare(alloc, words) {
        Ok(true) => Ok(Some(command)),
        Ok(false) => Ok(None),
        Err(OutOfMemory) => Err(OutOfMemory),
    }
}

/// The command that words are which ask nothing about a program; `None` where they are none.
fn named_command(alloc: Global, words: &[String]) -> Result<Option<Command>, OutOfMemory>
    requires { asked_text_of (map string_bytes words.now) ≡ None }
    ensures { IfOk result (λ command. IsCommandOf (map string_bytes words.now) command) }
{
    let [program, command, rest @ ..] = words else {
        return Ok(None);
    };
    if are_words(program, command, "sbupdate", "replay") {
        return replay_command(alloc, rest);
    }
    if are_words(program, command, "sbupdate", "run") {
        return run_command(alloc, rest);
    }
    if are_words(program, command, "sbcheck", "judge") {
        return judge_command(alloc, rest);
    }
    if are_words(program, command, "sbcheck", "show") {
        return bare_command(alloc, rest, Command::Show);
    }
    if are_words(program, command, "sbcheck", "vectors") {
        return bare_command(alloc, rest, Command::Vectors);
    }
    Ok(None)
}

/// The command that the words are; `None` where they are none.
pub(crate) fn command_of(alloc: Global, words: &[String]) -> Result<Option<Command>, OutOfMemory>
    ensures { IfOk result (λ command. IsCommandOf (map string_bytes words.now) command) }
{
    match told(alloc, words) {
        Ok(Some(text)) => Ok(Some(Command::Tell(text))),
        Ok(None) => named_command(alloc, words),
        Err(OutOfMemory) => Err(OutOfMemory),
    }
}
