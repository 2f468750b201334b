ghost use Rattle.std.specs.Prelude.{◌≡◌, ◌*◌, ◌≤◌, ℕ, List, Some, None, map, string_bytes, is_some, option_map, option_and_then, IfOk, IfSome};
ghost use Rattle.sb_words.specs.CommandLine.{given_of};
ghost use Rattle.client_words.specs.Asking.{asking_of};
ghost use Rattle.sb_client.specs.Command.{judge_given, judge_of, judge_shape, judge_with, judge_words, patience_given, updates_given, workers_given, JudgeWords};

use client_words::{Asking, are_words, asking_in, number_in, target_of};
use judge_run::JudgePlan;
use sb_model::{ListName, OutOfMemory, Row};
use sb_words::{OptionKind, OptionShape, Shape, Words, lists, read_words};
use std::alloc::Global;
use update_run::Plan;

/// The words of `judge`.
const JUDGE: Shape = Shape {
    options: &[
        OptionShape {
            name: "store",
            kind: OptionKind::Needed,
        },
        OptionShape {
            name: "server",
            kind: OptionKind::Needed,
        },
        OptionShape {
            name: "update",
            kind: OptionKind::Optional,
        },
        OptionShape {
            name: "workers",
            kind: OptionKind::Optional,
        },
        OptionShape {
            name: "patience",
            kind: OptionKind::Optional,
        },
        OptionShape {
            name: "key",
            kind: OptionKind::Optional,
        },
        OptionShape {
            name: "max-update",
            kind: OptionKind::Optional,
        },
        OptionShape {
            name: "max-database",
            kind: OptionKind::Optional,
        },
        OptionShape {
            name: "raw-only",
            kind: OptionKind::Flag,
        },
        OptionShape {
            name: "no-digest",
            kind: OptionKind::Flag,
        },
    ],
    takes_positionals: true,
};

/// The most seconds that the words can have a find waited for: a day.
const MOST_PATIENCE: u64 = 86_400;

/// For how many seconds a find is waited for where the words say none.
const PATIENCE_UNSAID: u64 = 60;

/// The most rounds of updates, and the most workers, that the words can say.
const MOST_UPDATES: u64 = 16;

const MOST_WORKERS: u64 = 16;

/// What a command line of `judge` says.
#[derive(Debug, Drop)]
pub(crate) struct JudgeLine<'a> {
    pub asking: Asking<'a>,
    pub names: Row<ListName>,
    pub rounds: u32,
    pub workers: u32,
    /// How many seconds a find is waited for at most.
    pub seconds: u64,
}

/// How many rounds of updates the words give, or none.
fn updates_in(given: &Words<'_>) -> Option<u32>
    ensures { result ≡ updates_given given.now.named }
{
    match number_in(given, "update", 0, MOST_UPDATES, 0) {
        Some(rounds) => Some(rounds as u32),
        None => None,
    }
}

/// How many workers the words give, or one.
fn workers_in(given: &Words<'_>) -> Option<u32>
    ensures { result ≡ workers_given given.now.named }
{
    match number_in(given, "workers", 1, MOST_WORKERS, 1) {
        Some(workers) => Some(workers as u32),
        None => None,
    }
}

/// What the words after `judge` say, for these lists.
fn judge_line_with<'a>(given: &Words<'a>, names: Row<ListName>) -> Option<JudgeLine<'a>>
    ensures line { option_map (λ line. judge_words (asking_of line.asking.store.now line.asking.server.now line.asking.key.now line.asking.options line.asking.need_digest) line.names line.rounds line.workers line.seconds) result
        ≡ judge_with names given.now.named }
    ensures day { IfSome result (λ line. line.seconds ≤ 86400) }
{
    let asking = asking_in(given)?;
    let rounds = updates_in(given)?;
    let workers = workers_in(given)?;
    let seconds = number_in(given, "patience", 0, MOST_PATIENCE, PATIENCE_UNSAID)?;
    Some(JudgeLine {
        asking,
        names,
        rounds,
        workers,
        seconds,
    })
}

/// What the words after `judge` say, by what they give.
fn judge_line_in<'a>(alloc: Global, given: &Words<'a>) -> Result<Option<JudgeLine<'a>>, OutOfMemory>
    ensures line { IfOk result (λ line. option_map (λ line. judge_words (asking_of line.asking.store.now line.asking.server.now line.asking.key.now line.asking.options line.asking.need_digest) line.names line.rounds line.workers line.seconds) line
        ≡ judge_given given.now) }
    ensures day { IfOk result (λ line. IfSome line (λ line. line.seconds ≤ 86400)) }
{
    match lists(alloc, given.positionals()) {
        Ok(Some(names)) => Ok(judge_line_with(given, names)),
        Ok(None) => Ok(None),
        Err(OutOfMemory) => Err(OutOfMemory),
    }
}

/// What the words after `judge` say.
fn judge_line_of<'a>(
    alloc: Global,
    words: &'a [String],
) -> Result<Option<JudgeLine<'a>>, OutOfMemory>
    ensures line { IfOk result (λ line. option_map (λ line. judge_words (asking_of line.asking.store.now line.asking.server.now line.asking.key.now line.asking.options line.asking.need_digest) line.names line.rounds line.workers line.seconds) line
        ≡ option_and_then judge_given (given_of judge_shape (map string_bytes words.entry.now))) }
    ensures day { IfOk result (λ line. IfSome line (λ line. line.seconds ≤ 86400)) }
{
    match read_words(alloc, &JUDGE, words) {
        Ok(Some(given)) => judge_line_in(alloc, &given),
        Ok(None) => Ok(None),
        Err(OutOfMemory) => Err(OutOfMemory),
    }
}

/// What the words of `sbcheck judge` say; `None` where they are no such words.
pub(crate) fn judge_line<'a>(
    alloc: Global,
    words: &'a [String],
) -> Result<Option<JudgeLine<'a>>, OutOfMemory>
    ensures { IfOk result (λ line. option_map (λ line. judge_words (asking_of line.asking.store.now line.asking.server.now line.asking.key.now line.asking.options line.asking.need_digest) line.names line.rounds line.workers line.seconds) line
        ≡ judge_of (map string_bytes words.entry.now)) }
{
    let [program, command, rest @ ..] = words else {
        return Ok(None);
    };
    if are_words(program, command, "sbcheck", "judge") {
        return judge_line_of(alloc, rest);
    }
    Ok(None)
}

/// What a run that judges URLs is to do, by its command line.
fn plan_of(alloc: Global, line: JudgeLine<'_>) -> Result<JudgePlan, OutOfMemory>
    requires { line.seconds ≤ 86400 }
    ensures { IfOk result (λ plan. plan
        ≡ (judge_words (asking_of line.entry.asking.store.now line.entry.asking.server.now line.entry.asking.key.now line.entry.asking.options line.entry.asking.need_digest) line.entry.names line.entry.rounds line.entry.workers line.entry.seconds).plan) }
{
    let target = target_of(alloc, &line.asking)?;
    Ok(JudgePlan {
        updates: Plan {
            names: line.names,
            rounds: line.rounds,
            options: line.asking.options,
            target,
            need_digest: line.asking.need_digest,
        },
        workers: line.workers,
        patience: 1000 * line.seconds,
    })
}

/// What the words after `judge` have a run do.
pub(crate) fn judge_plan(alloc: Global, words: &[String]) -> Result<Option<JudgePlan>, OutOfMemory>
    ensures { IfOk result (λ plan. plan
        ≡ option_map (λ (line : JudgeWords). line.plan)
        (option_and_then judge_given (given_of judge_shape (map string_bytes words.now)))) }
{
    match judge_line_of(alloc, words) {
        Ok(Some(line)) => Ok(Some(plan_of(alloc, line)?)),
        Ok(None) => Ok(None),
        Err(OutOfMemory) => Err(OutOfMemory),
    }
}
