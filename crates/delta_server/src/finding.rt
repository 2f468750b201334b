ghost use Rattle.std.specs.Prelude.{◌≡◌, ◌*◌, true, [], ◌∷◌, ◌++◌, map, IfOk, OnOk};
ghost use Rattle.std.specs.List.{flat_map};
ghost use Rattle.sb_model.specs.History.{declares};
ghost use Rattle.sb_model.specs.Prefixes.{set_of};
ghost use Rattle.hash_messages.specs.Matches.{asks_list, hashes_asked, matches_of, find_answer};
ghost use Rattle.delta_server.specs.Finding.{hashes_begun, match_of_hash, matches_among};

use crate::answering::{Settings, is_declared};
use crate::asked::has_types;
use crate::names::every_name;
use hash_messages::{FindRequest, FindResponse, Match};
use hash_prefixes::{FullHash, Prefix};
use list_versions::History;
use prefix_set::sets_go_by_members;
use sb_model::{Duration, ListName, OutOfMemory, Row};
use std::alloc::Global;

// Whether the three types of a list are asked.
fn is_asked(request: &FindRequest, list: ListName) -> bool
    ensures { result ≡ asks_list request.now list }
{
    has_types(
        request.threats.as_slice(),
        request.platforms.as_slice(),
        request.entries.as_slice(),
        list,
    )
}

// ---- the full hashes of a list

// Appends the bytes of full hashes.
fn push_hashes(found: &mut Vec<[u8; 32]>, hashes: &[FullHash]) -> Result<(), OutOfMemory>
    ensures { OnOk result (found.new.items ≡ found.old.items ++ map (λ hash. hash.bytes) hashes.now) }
{
    for hash in hashes {
        found.push(hash.bytes)?;
    }
    Ok(())
}

// The newest full hashes of a list that begin with some prefixes, one prefix after the other.
fn hashes_in_turn(
    alloc: Global,
    history: &History,
    list: ListName,
    prefixes: &[Prefix],
) -> Result<Vec<[u8; 32]>, OutOfMemory>
    requires { declares history.now.versions list ≡ true }
    ensures { IfOk result (λ found. found.items
        ≡ flat_map (hashes_begun history.now.versions list) prefixes.now) }
{
    let mut found = Vec::new(alloc);
    for prefix in prefixes {
        let hashes = history.full_hashes(alloc, list, history.len(), prefix)?;
        push_hashes(&mut found, hashes.as_slice())?;
    }
    Ok(found)
}

// Puts hashes into rising order, each once.
fn put_in_order(hashes: &mut Vec<[u8; 32]>)
    ensures { hashes.new.items ≡ set_of hashes.old.items }
{
    sets_go_by_members();
    hashes.sort_unstable();
    hashes.dedup();
}

// The newest full hashes of a list that begin with an asked prefix, rising.
fn hashes_asked(
    alloc: Global,
    history: &History,
    list: ListName,
    request: &FindRequest,
) -> Result<Vec<[u8; 32]>, OutOfMemory>
    requires { declares history.now.versions list ≡ true }
    ensures { IfOk result (λ hashes. hashes.items
        ≡ hashes_asked history.now.versions request.now list) }
{
    sets_go_by_members();
    let mut hashes = hashes_in_turn(alloc, history, list, request.prefixes.as_slice())?;
    put_in_order(&mut hashes);
    Ok(hashes)
}

// ---- matches

// Appends a match for each full hash of a list.
fn push_matches(
    matches: &mut Row<Match>,
    name: ListName,
    hashes: &[[u8; 32]],
    cache: Duration,
) -> Result<(), OutOfMemory>
    ensures { OnOk result (matches.new ≡ matches.old ++ map (match_of_hash name cache) hashes.now) }
{
    for bytes in hashes {
        let hash = FullHash { bytes: *bytes };
        matches.push(Match { name, hash, cache })?;
    }
    Ok(())
}

// Appends the matches of a list, where it is declared and asked.
fn push_list(
    alloc: Global,
    history: &History,
    cache: u32,
    request: &FindRequest,
    list: ListName,
    matches: &mut Row<Match>,
) -> Result<(), OutOfMemory>
    ensures { OnOk result (matches.new
        ≡ matches.old ++ matches_among history.now.versions cache request.now (list ∷ [])) }
{
    if is_declared(history, list) && is_asked(request, list) {
        let hashes = hashes_asked(alloc, history, list, request)?;
        push_matches(matches, list, &hashes, Duration::from_seconds(cache))?;
    }
    Ok(())
}

// The matches of all lists, in the order of names.
fn matches_of(
    alloc: Global,
    history: &History,
    cache: u32,
    request: &FindRequest,
) -> Result<Row<Match>, OutOfMemory>
    ensures { IfOk result (λ matches. matches ≡ matches_of history.now.versions cache request.now) }
{
    let names = every_name(alloc)?;
    let mut matches = Row::new(alloc);
    for name in names.as_slice() {
        push_list(alloc, history, cache, request, *name, &mut matches)?;
    }
    Ok(matches)
}

/// The answer to a find request (`fullHashes:find`): for each declared list whose three types are
/// asked, in the order of names, one match for each of its newest full hashes that begins with an
/// asked prefix, rising. A list or a hash that is asked more than once is told once.
pub fn answer_find(
    alloc: Global,
    history: &History,
    settings: &Settings,
    request: &FindRequest,
) -> Result<FindResponse, OutOfMemory>
    ensures { IfOk result (λ response. response
        ≡ find_answer history.now.versions settings.now.find_wait settings.now.cache settings.now.negative request.now) }
{
    Ok(FindResponse {
        matches: matches_of(alloc, history, settings.cache, request)?,
        wait: Duration::from_seconds(settings.find_wait),
        negative: Duration::from_seconds(settings.negative),
    })
}
