ghost use Rattle.std.specs.Prelude.{◌≡◌, ◌++◌, ◌∷◌, [], false, map, filter, Ok, Err, IfOk, OnOk, IfSome, IfNone, MatchResult};
ghost use Rattle.std.specs.List.{flat_map, list_any};
ghost use Rattle.std.specs.Option.{option_map_or};
ghost use Rattle.url_canon.specs.Url.{Url};
ghost use Rattle.url_hashes.specs.Hashes.{hashes_of};
ghost use Rattle.lookup_messages.specs.Lookups.{canonical_of_asked, lists_looked_up, match_of, matches_of_url};
ghost use Rattle.answering_lists.specs.Lists.{answering};
ghost use Rattle.sb_lookup.specs.Lookups.{is_listed, name_has_url, served_lookup};

use answering_lists::{answered_names, answering_list};
use delta_server::{Settings, has_types};
use hash_prefixes::FullHash;
use list_versions::History;
use lookup_messages::{LookupMatch, LookupRequest, LookupResponse};
use sb_model::{Duration, ListName, OutOfMemory, Row, Text};
use std::alloc::Global;
use url_canon::{UrlFault, canonical};
use url_hashes::url_hashes;

// Whether the newest full hashes of a list have one of these.
fn has_one(history: &History, list: ListName, hashes: &[FullHash]) -> bool
    ensures { result ≡ list_any (is_listed history.now.versions list) hashes.now }
{
    hashes.iter().any(|hash| history.holds(list, hash))
}

// Whether the newest full hashes of the list that answers for a name have one of these.
fn answers_one(history: &History, name: ListName, hashes: &[FullHash]) -> bool
    ensures { result ≡ option_map_or (λ list. list_any (is_listed history.now.versions list) hashes.now)
        (answering history.now.versions name) false }
{
    match answering_list(history, name) {
        Some(list) => has_one(history, list, hashes),
        None => false,
    }
}

// The names for which the list that answers has one of these full hashes.
fn names_with(
    alloc: Global,
    history: &History,
    names: &[ListName],
    hashes: &[FullHash],
) -> Result<Row<ListName>, OutOfMemory>
    ensures { IfOk result (λ found. found
        ≡ filter (λ name. option_map_or (λ list. list_any (is_listed history.now.versions list) hashes.now)
        (answering history.now.versions name) false) names.now) }
{
    let mut found = Row::new(alloc);
    for name in names {
        if answers_one(history, *name, hashes) {
            found.push(*name)?;
        }
    }
    Ok(found)
}

// Appends the match of a URL under a name.
fn push_match(
    matches: &mut Row<LookupMatch>,
    cache: u32,
    url: &Text,
    name: ListName,
) -> Result<(), OutOfMemory>
    ensures { OnOk result (matches.new ≡ matches.old ++ match_of cache url.now name ∷ []) }
{
    let url = url.copy()?;
    let cache = Duration::from_seconds(cache);
    matches.push(LookupMatch { name, url, cache })
}

// Appends the matches of a URL under some names.
fn push_matches(
    matches: &mut Row<LookupMatch>,
    cache: u32,
    url: &Text,
    names: &[ListName],
) -> Result<(), OutOfMemory>
    ensures { OnOk result (matches.new ≡ matches.old ++ map (match_of cache url.now) names.now) }
{
    for name in names {
        push_match(matches, cache, url, *name)?;
    }
    Ok(())
}

// The full hashes of a URL as it is asked. `None` comes exactly where it has no canonical form.
fn hashes_of_asked(alloc: Global, url: &Text) -> Result<Option<Row<FullHash>>, OutOfMemory>
    ensures some { IfOk result (λ found. IfSome found (λ hashes.
        (canonical : Url) × (canonical_of_asked url.now ≡ Ok canonical) × (hashes ≡ hashes_of canonical))) }
    ensures none { IfOk result (λ found. IfNone found ((fault : UrlFault) × (canonical_of_asked url.now ≡ Err fault))) }
{
    match canonical(alloc, url.as_str().as_bytes()) {
        Ok(url) => Ok(Some(url_hashes(alloc, &url)?)),
        Err(UrlFault::OutOfMemory) => Err(OutOfMemory),
        Err(UrlFault::Empty) => Ok(None),
        Err(UrlFault::NoHost) => Ok(None),
        Err(UrlFault::TooLong(_)) => Ok(None),
    }
}

// The names for which the list that answers has a URL as it is asked, in their order: none has one that has no canonical form.
fn names_having(
    alloc: Global,
    history: &History,
    names: &[ListName],
    url: &Text,
) -> Result<Row<ListName>, OutOfMemory>
    ensures { IfOk result (λ found. MatchResult (canonical_of_asked url.now)
        (λ canonical. found ≡ filter (λ name. name_has_url history.now.versions name canonical) names.now)
        (λ fault. found ≡ [])) }
{
    match hashes_of_asked(alloc, url)? {
        Some(hashes) => names_with(alloc, history, names, hashes.as_slice()),
        None => Ok(Row::new(alloc)),
    }
}

// Those of some names whose three types are asked.
fn asked_names(
    alloc: Global,
    request: &LookupRequest,
    names: &[ListName],
) -> Result<Row<ListName>, OutOfMemory>
    ensures { IfOk result (λ asked. asked ≡ lists_looked_up names.now request.now) }
{
    let mut asked = Row::new(alloc);
    for name in names {
        if has_types(
            request.threats.as_slice(),
            request.platforms.as_slice(),
            request.entries.as_slice(),
            *name,
        ) {
            asked.push(*name)?;
        }
    }
    Ok(asked)
}

// The matches of some URLs under some names.
fn matches_of(
    alloc: Global,
    history: &History,
    cache: u32,
    names: &[ListName],
    urls: &[Text],
) -> Result<Row<LookupMatch>, OutOfMemory>
    ensures { IfOk result (λ matches. matches
        ≡ flat_map (λ url. matches_of_url (name_has_url history.now.versions) names.now cache url (canonical_of_asked url)) urls.now) }
{
    let mut matches = Row::new(alloc);
    for url in urls {
        let having = names_having(alloc, history, names, url)?;
        push_matches(&mut matches, cache, url, having.as_slice())?;
    }
    Ok(matches)
}

/// The answer to a look-up (`threatMatches:find` of the Safe Browsing Lookup API, version 4): for each URL of the request, in
/// order, that has a canonical form, and each name, in the order of names, whose three types are asked and for which a list answers,
/// one match under that name if the newest full hashes of that list have the SHA-256 of one of the URL's expressions. The match has
/// the URL as it was asked, and may be kept for the cache of the settings, in seconds. Each URL is made canonical once and each
/// expression hashed once, however many names there are.
pub fn answer_lookup(
    alloc: Global,
    history: &History,
    settings: &Settings,
    request: &LookupRequest,
) -> Result<LookupResponse, OutOfMemory>
    ensures { IfOk result (λ response. response ≡ served_lookup history.now.versions settings.now.cache request.now) }
{
    let answered = answered_names(alloc, history)?;
    let names = asked_names(alloc, request, answered.as_slice())?;
    let matches = matches_of(
        alloc,
        history,
        settings.cache,
        names.as_slice(),
        request.urls.as_slice(),
    )?;
    Ok(LookupResponse { matches })
}
