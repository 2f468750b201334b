ghost use Rattle.std.specs.Prelude.{◌≡◌, ◌++◌, IfOk, MatchOption, None, Some, List, map, option_map, length};
ghost use Rattle.std.specs.List.{list_any};
ghost use Rattle.sb_model.specs.declared.names.ListName.{ListName};
ghost use Rattle.sb_model.specs.Names.{same_name};
ghost use Rattle.sb_words.specs.Values.{different, few_names_of, has_each_once, lists_named, names_of};

use sb_model::{ListName, OutOfMemory, Row, read_list_name};
use std::alloc::Global;

/// The most lists that a command takes.
const MOST_LISTS: usize = 8;

/// The names that words are, or `None` where one of them is no name.
fn names_among(alloc: Global, words: &[&str]) -> Result<Option<Row<ListName>>, OutOfMemory>
    ensures { IfOk result (λ names. names ≡ names_of (map (λ s. s.now) words.now)) }
{
    let mut names = Row::new(alloc);
    for word in words {
        let Ok(name) = read_list_name(word.as_bytes()) else {
            return Ok(None);
        };
        names.push(name)?;
    }
    Ok(Some(names))
}

fn is_same(a: ListName, b: ListName) -> bool
    ensures { result ≡ same_name a b }
{
    a.threat.code() == b.threat.code()
        && a.platform.code() == b.platform.code()
        && a.entry.code() == b.entry.code()
}

/// Whether a name is among others.
fn is_among(name: ListName, names: &[ListName]) -> bool
    ensures { result ≡ list_any (same_name name) names.now }
{
    names.iter().any(|other| is_same(name, *other))
}

/// Whether no name stands twice.
fn are_different(names: &[ListName]) -> bool
    ensures { result ≡ has_each_once names.now }
{
    for (i, name) in names.iter().enumerate() {
        if is_among(*name, &names[i + 1..]) {
            return false;
        }
    }
    true
}

/// The names that words are, where there are 1 to 8 of them.
fn few_names(alloc: Global, words: &[&str]) -> Result<Option<Row<ListName>>, OutOfMemory>
    ensures { IfOk result (λ names. names ≡ few_names_of (map (λ s. s.now) words.now)) }
{
    if words.is_empty() {
        return Ok(None);
    }
    if words.len() > MOST_LISTS {
        return Ok(None);
    }
    names_among(alloc, words)
}

/// Names of which none stands twice.
fn if_different(names: Row<ListName>) -> Option<Row<ListName>>
    ensures { result ≡ different names }
{
    if are_different(names.as_slice()) {
        Some(names)
    } else {
        None
    }
}

/// The lists that words name, in their order: 1 to 8, each once. `None` comes exactly where the words name no such
/// lists.
#[tactic(auto, unfolding(crate::specs::Values::lists_named))]
pub fn lists(alloc: Global, words: &[&str]) -> Result<Option<Row<ListName>>, OutOfMemory>
    ensures { IfOk result (λ names. names ≡ lists_named (map (λ s. s.now) words.now)) }
{
    let Some(names) = few_names(alloc, words)? else {
        return Ok(None);
    };
    Ok(if_different(names))
}
