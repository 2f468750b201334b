ghost use Rattle.std.specs.Prelude.{◌≡◌, ◌++◌, map, IfOk, OnOk};
ghost use Rattle.std.specs.List.{flat_map, list_any};
ghost use Rattle.lookup_messages.specs.Lookups.{match_of};
ghost use Rattle.proxy_serving.specs.Told.{fate_told, leaves_url_open, matches_told};
ghost use Rattle.proxy_serving.specs.declared.told.SeenUrl.{SeenUrl as Seen};

use crate::LookFate;
use lookup_messages::{LookupMatch, LookupResponse};
use sb_model::{Duration, ListName, OutOfMemory, Row, Text};
use std::alloc::Global;
use verdict_report::Verdict;

/// A URL as it was asked, and its verdict: none if it has no canonical form.
#[derive(Debug, Drop)]
pub struct SeenUrl {
    pub url: Text,
    pub verdict: Option<Verdict>,
}

/// Whether a verdict leaves its URL open.
fn is_open(verdict: &Option<Verdict>) -> bool
    ensures { result ≡ leaves_url_open verdict.now }
{
    match verdict {
        Some(Verdict::Undecided(_)) => true,
        Some(Verdict::Safe) | Some(Verdict::Unsafe(_)) | None => false,
    }
}

/// The match of a URL, as it was asked, with a list. It may not be kept.
fn match_with(url: &Text, name: ListName) -> Result<LookupMatch, OutOfMemory>
    ensures { IfOk result (λ found. found ≡ match_of 0 url.now name) }
{
    Ok(LookupMatch {
        name,
        url: url.copy()?,
        cache: Duration::from_seconds(0),
    })
}

/// Appends the match of a URL with each of some lists.
fn push_all(
    matches: &mut Row<LookupMatch>,
    url: &Text,
    names: &[ListName],
) -> Result<(), OutOfMemory>
    ensures { OnOk result (matches.new ≡ matches.old ++ map (match_of 0 url.now) names.now) }
{
    for name in names {
        matches.push(match_with(url, *name)?)?;
    }
    Ok(())
}

/// Appends the matches of a URL by its verdict.
fn push_told(matches: &mut Row<LookupMatch>, one: &SeenUrl) -> Result<(), OutOfMemory>
    ensures { OnOk result (matches.new ≡ matches.old ++ matches_told one.now) }
{
    match &one.verdict {
        Some(Verdict::Unsafe(lists)) => push_all(matches, &one.url, lists.as_slice()),
        Some(Verdict::Safe) | Some(Verdict::Undecided(_)) | None => Ok(()),
    }
}

/// The matches of all URLs, in their order.
fn matches_of(alloc: Global, urls: &[SeenUrl]) -> Result<Row<LookupMatch>, OutOfMemory>
    ensures { IfOk result (λ matches. matches ≡ flat_map matches_told urls.now) }
{
    let mut matches = Row::new(alloc);
    for one in urls {
        push_told(&mut matches, one)?;
    }
    Ok(matches)
}

/// Whether a URL is left open.
fn is_one_open(urls: &[SeenUrl]) -> bool
    ensures { result ≡ list_any (λ (one : Seen). leaves_url_open one.verdict) urls.now }
{
    urls.iter().any(|one| is_open(&one.verdict))
}

/// What becomes of a look-up whose URLs have these verdicts: it is not answered if a URL is left open, and else its answer has a match for
/// each list that a verdict names, in the order of the URLs. A match may not be kept (`threatMatches.find` of the Safe Browsing Lookup API,
/// version 4).
pub fn fate_of(alloc: Global, urls: &[SeenUrl]) -> Result<LookFate, OutOfMemory>
    ensures { IfOk result (λ fate. fate ≡ fate_told urls.now) }
{
    if is_one_open(urls) {
        return Ok(LookFate::Unanswered);
    }
    Ok(LookFate::Answered(LookupResponse {
        matches: matches_of(alloc, urls)?,
    }))
}
