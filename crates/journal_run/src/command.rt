ghost use Rattle.std.specs.Prelude.{◌≡◌, IfOk, IsTrue, map, is_some, option_map, option_and_then, string_bytes};
ghost use Rattle.sb_words.specs.CommandLine.{Given, given_of};
ghost use Rattle.journal_run.specs.Command.{call_behind, call_named as call_named_by, call_of, change_given, change_shape, has_given, has_shape, list_given, new_given, new_shape, plain_call, plain_shape, size_given, sync_given, sync_shape};

use sb_model::{ListName, OutOfMemory, Row, Text, read_list_name};
use sb_words::{
    About, OptionKind, OptionShape, Shape, Words, asked_about, lists, number, read_words,
};
use std::alloc::Global;

/// The words of `new`.
const NEW: Shape = Shape {
    options: &[OptionShape {
        name: "size",
        kind: OptionKind::Optional,
    }],
    takes_positionals: true,
};

/// The words of `sync`.
const SYNC: Shape = Shape {
    options: &[
        OptionShape {
            name: "journal",
            kind: OptionKind::Needed,
        },
        OptionShape {
            name: "skip",
            kind: OptionKind::Flag,
        },
        OptionShape {
            name: "empty",
            kind: OptionKind::Flag,
        },
    ],
    takes_positionals: true,
};

/// The words of `change`.
const CHANGE: Shape = Shape {
    options: &[
        OptionShape {
            name: "size",
            kind: OptionKind::Optional,
        },
        OptionShape {
            name: "skip",
            kind: OptionKind::Flag,
        },
    ],
    takes_positionals: true,
};

/// The words of `has`.
const HAS: Shape = Shape {
    options: &[OptionShape {
        name: "journal",
        kind: OptionKind::Needed,
    }],
    takes_positionals: true,
};

/// The words of `check` and of `compact`.
const PLAIN: Shape = Shape {
    options: &[],
    takes_positionals: false,
};

/// The bytes of a prefix, at least and at most.
const SMALLEST_PREFIX: u64 = 4;

const LARGEST_PREFIX: u64 = 32;

/// What a command line of `new` says.
#[derive(Debug, Drop)]
pub(crate) struct NewLine {
    /// How many bytes of a full hash are published, from 4 to 32.
    pub size: u8,
    pub lists: Row<ListName>,
}

/// What a command line of `sync` says.
#[derive(Clone, Copy, Debug)]
pub(crate) struct SyncLine {
    pub list: ListName,
    /// Whether URLs that are refused say nothing.
    pub skip: bool,
    /// Whether the input may name no URL.
    pub empty: bool,
}

/// What a command line of `change` says.
#[derive(Clone, Copy, Debug)]
pub(crate) struct ChangeLine {
    pub list: ListName,
    /// The size that each line that puts in names.
    pub size: Option<u8>,
    /// Whether URLs that are refused say nothing.
    pub skip: bool,
}

/// What the words ask for.
#[derive(Debug, Drop)]
pub(crate) enum Command {
    New(NewLine),
    Sync(SyncLine),
    Change(ChangeLine),
    Check,
    Has(ListName),
    Compact,
    /// What is asked about the program.
    Tell(About),
}

/// What a command line says.
#[derive(Debug, Drop)]
pub(crate) struct Call {
    pub command: Command,
    /// The path of the journal, if the command needs one.
    pub journal: Option<Text>,
}

/// The size that the words give, or leave out.
fn size_in(given: &Words<'_>) -> Option<Option<u8>>
    ensures { result ≡ size_given given.now.named }
{
    let Some(text) = given.value("size") else {
        return Some(None);
    };
    match number(text, SMALLEST_PREFIX, LARGEST_PREFIX) {
        Some(size) => Some(Some(size as u8)),
        None => None,
    }
}

/// The list that the one positional word names.
fn list_in(given: &Words<'_>) -> Option<ListName>
    ensures { result ≡ list_given given.now.positionals }
{
    match given.positionals() {
        [text] => read_list_name(text.as_bytes()).ok(),
        _ => None,
    }
}

/// What the words after `new` say, by what they give.
fn new_in(alloc: Global, given: &Words<'_>) -> Result<Option<Call>, OutOfMemory>
    ensures { IfOk result (λ call. call ≡ new_given given.now) }
{
    let Some(size) = size_in(given) else {
        return Ok(None);
    };
    let size = size.unwrap_or(4);
    match lists(alloc, given.positionals())? {
        Some(lists) => Ok(Some(Call {
            command: Command::New(NewLine { size, lists }),
            journal: None,
        })),
        None => Ok(None),
    }
}

/// What the words after `sync` say, by what they give.
fn sync_in(alloc: Global, given: &Words<'_>) -> Result<Option<Call>, OutOfMemory>
    ensures { IfOk result (λ call. call ≡ sync_given given.now) }
{
    let Some(path) = given.value("journal") else {
        return Ok(None);
    };
    let Some(list) = list_in(given) else {
        return Ok(None);
    };
    let skip = given.has("skip");
    let empty = given.has("empty");
    Ok(Some(Call {
        command: Command::Sync(SyncLine { list, skip, empty }),
        journal: Some(Text::from_str(alloc, path)?),
    }))
}

/// What the words after `change` say, by what they give.
fn change_in(given: &Words<'_>) -> Option<Call>
    ensures { result ≡ change_given given.now }
{
    let Some(size) = size_in(given) else {
        return None;
    };
    let Some(list) = list_in(given) else {
        return None;
    };
    let skip = given.has("skip");
    Some(Call {
        command: Command::Change(ChangeLine { list, size, skip }),
        journal: None,
    })
}

/// What the words after `has` say, by what they give.
fn has_in(alloc: Global, given: &Words<'_>) -> Result<Option<Call>, OutOfMemory>
    ensures { IfOk result (λ call. call ≡ has_given given.now) }
{
    let Some(path) = given.value("journal") else {
        return Ok(None);
    };
    let Some(list) = list_in(given) else {
        return Ok(None);
    };
    Ok(Some(Call {
        command: Command::Has(list),
        journal: Some(Text::from_str(alloc, path)?),
    }))
}

/// What the words after `new` say.
fn new_call(alloc: Global, words: &[String]) -> Result<Option<Call>, OutOfMemory>
    ensures { IfOk result (λ call. call ≡ option_and_then new_given (given_of new_shape (map string_bytes words.now))) }
{
    match read_words(alloc, &NEW, words) {
        Ok(Some(given)) => new_in(alloc, &given),
        Ok(None) => Ok(None),
        Err(OutOfMemory) => Err(OutOfMemory),
    }
}

/// What the words after `sync` say.
fn sync_call(alloc: Global, words: &[String]) -> Result<Option<Call>, OutOfMemory>
    ensures { IfOk result (λ call. call ≡ option_and_then sync_given (given_of sync_shape (map string_bytes words.now))) }
{
    match read_words(alloc, &SYNC, words) {
        Ok(Some(given)) => sync_in(alloc, &given),
        Ok(None) => Ok(None),
        Err(OutOfMemory) => Err(OutOfMemory),
    }
}

/// What the words after `change` say.
fn change_call(alloc: Global, words: &[String]) -> Result<Option<Call>, OutOfMemory>
    ensures { IfOk result (λ call. call ≡ option_and_then change_given (given_of change_shape (map string_bytes words.now))) }
{
    match read_words(alloc, &CHANGE, words) {
        Ok(Some(given)) => Ok(change_in(&given)),
        Ok(None) => Ok(None),
        Err(OutOfMemory) => Err(OutOfMemory),
    }
}

/// What the words after `has` say.
fn has_call(alloc: Global, words: &[String]) -> Result<Option<Call>, OutOfMemory>
    ensures { IfOk result (λ call. call ≡ option_and_then has_given (given_of has_shape (map string_bytes words.now))) }
{
    match read_words(alloc, &HAS, words) {
        Ok(Some(given)) => has_in(alloc, &given),
        Ok(None) => Ok(None),
        Err(OutOfMemory) => Err(OutOfMemory),
    }
}

/// Whether the words after a command say nothing, as they have to.
fn is_plain(alloc: Global, words: &[String]) -> Result<bool, OutOfMemory>
    ensures { IfOk result (λ plain. plain ≡ is_some (given_of plain_shape (map string_bytes words.now))) }
{
    match read_words(alloc, &PLAIN, words) {
        Ok(Some(_)) => Ok(true),
        Ok(None) => Ok(false),
        Err(OutOfMemory) => Err(OutOfMemory),
    }
}

/// What the words after `check` say.
fn check_call(alloc: Global, words: &[String]) -> Result<Option<Call>, OutOfMemory>
    ensures { IfOk result (λ call. call
        ≡ option_map (λ _. plain_call Command.Check) (given_of plain_shape (map string_bytes words.now))) }
{
    if !is_plain(alloc, words)? {
        return Ok(None);
    }
    Ok(Some(Call {
        command: Command::Check,
        journal: None,
    }))
}

/// What the words after `compact` say.
fn compact_call(alloc: Global, words: &[String]) -> Result<Option<Call>, OutOfMemory>
    ensures { IfOk result (λ call. call
        ≡ option_map (λ _. plain_call Command.Compact) (given_of plain_shape (map string_bytes words.now))) }
{
    if !is_plain(alloc, words)? {
        return Ok(None);
    }
    Ok(Some(Call {
        command: Command::Compact,
        journal: None,
    }))
}

/// What the words after the name of a command say.
fn call_named(alloc: Global, name: &str, words: &[String]) -> Result<Option<Call>, OutOfMemory>
    ensures { IfOk result (λ call. call ≡ call_named_by name.now (map string_bytes words.now)) }
{
    match name {
        "new" => new_call(alloc, words),
        "sync" => sync_call(alloc, words),
        "change" => change_call(alloc, words),
        "has" => has_call(alloc, words),
        "check" => check_call(alloc, words),
        "compact" => compact_call(alloc, words),
        _ => Ok(None),
    }
}

/// What words say behind the program's name and the name of a command.
fn call_behind(alloc: Global, words: &[String]) -> Result<Option<Call>, OutOfMemory>
    ensures { IfOk result (λ call. call ≡ call_behind (map string_bytes words.now)) }
{
    let [program, name, rest @ ..] = words else {
        return Ok(None);
    };
    if program.as_str() != "sbjournal" {
        return Ok(None);
    }
    call_named(alloc, name.as_str(), rest)
}

/// What the words of a command line say; `None` if they are none. The first is the program's name.
#[tactic(auto, unfolding(crate::specs::Command::call_of))]
pub(crate) fn call_of(alloc: Global, words: &[String]) -> Result<Option<Call>, OutOfMemory>
    ensures { IfOk result (λ call. call ≡ call_of (map string_bytes words.now)) }
{
    match asked_about(words, "sbjournal") {
        Some(about) => Ok(Some(Call {
            command: Command::Tell(about),
            journal: None,
        })),
        None => call_behind(alloc, words),
    }
}
