ghost use Rattle.std.specs.Prelude.{◌≡◌, ◌∷◌, [], ◌++◌, filter, IfOk, OnOk};
ghost use Rattle.std.specs.List.{flat_map};
ghost use Rattle.sb_model.specs.Names.{same_name};
ghost use Rattle.hash_messages.specs.Matches.{asks_list};
ghost use Rattle.named_answers.specs.Answers.{named_find_answer, names_asked};
ghost use Rattle.named_answers.specs.Naming.{matches_under, matches_of_list, AsksForAnyToo};

use crate::fetching::no_client;
use answering_lists::{answered_names, answered_names_are_those_of_lists, answering_list};
use delta_server::{Settings, answer_find, has_types};
use hash_messages::{FindRequest, FindResponse, Match, answers_match_what_is_asked};
use list_versions::History;
use sb_model::{ListName, OutOfMemory, PlatformType, Row, names_go_by_their_codes};
use std::alloc::Global;

// The same request, which asks for any platform too. It tells nothing of the client and of its states, at which no answer looks.
fn asking_for_any_too(alloc: Global, request: &FindRequest) -> Result<FindRequest, OutOfMemory>
    ensures { IfOk result (λ wider. AsksForAnyToo request.now wider) }
{
    let mut platforms = request.platforms.copy()?;
    platforms.push(PlatformType::AnyPlatform)?;
    Ok(FindRequest {
        client: no_client(alloc),
        states: Row::new(alloc),
        threats: request.threats.copy()?,
        platforms,
        entries: request.entries.copy()?,
        prefixes: request.prefixes.copy()?,
    })
}

// Whether the three types of a name are asked.
fn is_asked(request: &FindRequest, name: ListName) -> bool
    ensures { result ≡ asks_list request.now name }
{
    has_types(
        request.threats.as_slice(),
        request.platforms.as_slice(),
        request.entries.as_slice(),
        name,
    )
}

// Whether two names are the same.
fn is_same(first: ListName, second: ListName) -> bool
    ensures { result ≡ same_name first second }
{
    first == second
}

// Appends those matches that are of a list, under a name.
fn push_matches(
    matches: &mut Row<Match>,
    found: &[Match],
    name: ListName,
    list: ListName,
) -> Result<(), OutOfMemory>
    ensures { OnOk result (matches.new ≡ matches.old ++ matches_of_list found.now name list) }
{
    for one in found {
        if is_same(one.name, list) {
            matches.push(Match {
                name,
                hash: one.hash,
                cache: one.cache,
            })?;
        }
    }
    Ok(())
}

// Appends those matches that are of the list which answers for a name, under that name.
fn push_name(
    matches: &mut Row<Match>,
    history: &History,
    found: &[Match],
    name: ListName,
) -> Result<(), OutOfMemory>
    ensures { OnOk result (matches.new ≡ matches.old ++ matches_under history.now.versions found.now name) }
{
    match answering_list(history, name) {
        Some(list) => push_matches(matches, found, name, list),
        None => Ok(()),
    }
}

// The names that are asked and for which a list answers, in the order of names.
fn names_asked(
    alloc: Global,
    history: &History,
    request: &FindRequest,
) -> Result<Row<ListName>, OutOfMemory>
    ensures { IfOk result (λ names. names ≡ names_asked history.now.versions request.now) }
{
    let answered = answered_names(alloc, history)?;
    let mut names = Row::new(alloc);
    for name in answered.as_slice() {
        if is_asked(request, *name) {
            names.push(*name)?;
        }
    }
    Ok(names)
}

// The matches of some names, each of those that are of the list which answers for it.
fn matches_for_each(
    alloc: Global,
    history: &History,
    found: &[Match],
    names: &[ListName],
) -> Result<Row<Match>, OutOfMemory>
    ensures { IfOk result (λ matches. matches ≡ flat_map (matches_under history.now.versions found.now) names.now) }
{
    let mut matches = Row::new(alloc);
    for name in names {
        push_name(&mut matches, history, found, *name)?;
    }
    Ok(matches)
}

/// The answer to a find request (`fullHashes:find`) under the names that are asked: for each name that is asked and for which a list
/// answers, in the order of names, one match under that name for each of the newest full hashes of that list that begins with an
/// asked prefix, rising.
///
/// Each list is looked at once, however many names it answers for.
pub fn answer_named_find(
    alloc: Global,
    history: &History,
    settings: &Settings,
    request: &FindRequest,
) -> Result<FindResponse, OutOfMemory>
    ensures answer { IfOk result (λ response. response
        ≡ named_find_answer history.now.versions settings.now.find_wait settings.now.cache settings.now.negative request.now) }
{
    names_go_by_their_codes();
    answers_match_what_is_asked();
    answered_names_are_those_of_lists();
    let names = names_asked(alloc, history, request)?;
    let wider = asking_for_any_too(alloc, request)?;
    let FindResponse {
        matches: found,
        wait,
        negative,
    } = answer_find(alloc, history, settings, &wider)?;
    Ok(FindResponse {
        matches: matches_for_each(alloc, history, found.as_slice(), names.as_slice())?,
        wait,
        negative,
    })
}
