ghost use Rattle.std.specs.Prelude.{◌≡◌, ◌==◌, [], true, false, length, filter, All, IfOk, IfSome};
ghost use Rattle.std.specs.List.{list_any};
ghost use Rattle.lookup_messages.specs.Lookups.{looks_up_list};
ghost use Rattle.proxy_looks.specs.Urls.{hits_found, is_list_ready, lists_are_ready, open_hits, open_hits_of, url_asked, urls_asked, IsAskableUrl};
ghost use Rattle.sb_model.specs.Names.{threat_code, platform_code, entry_code};
ghost use Rattle.url_canon.specs.Canonical.{canonical_of};
ghost use Rattle.url_checker.specs.Hits.{AreAskable, MarksAll};
ghost use Rattle.url_checker.specs.declared.findings.Hit.{Hit as SeenHit};

use lookup_messages::LookupRequest;
use prefix_set::sets_go_by_members;
use sb_model::{EntryType, ListName, OutOfMemory, PlatformType, Row, Text, ThreatType};
use std::alloc::Global;
use update_client::{ClientLists, HeldList};
use url_checker::{CheckFault, Finding, Hit, Sizes, local_check_with};
use verdict_report::Verdict;

/// A URL of a look-up: as it was asked, its hits on the lists that are asked, none if it has no canonical form, and its verdict once it has
/// one.
#[derive(Debug, Drop)]
pub struct LookUrl {
    pub url: Text,
    pub hits: Option<Row<Hit>>,
    pub verdict: Option<Verdict>,
}

fn has_threat(asked: &[ThreatType], threat: ThreatType) -> bool
    ensures { result ≡ list_any (λ other. threat_code other == threat_code threat) asked.now }
{
    asked.iter().any(|other| other.code() == threat.code())
}

fn has_platform(asked: &[PlatformType], platform: PlatformType) -> bool
    ensures { result ≡ list_any (λ other. platform_code other == platform_code platform) asked.now }
{
    asked.iter().any(|other| other.code() == platform.code())
}

fn has_entry(asked: &[EntryType], entry: EntryType) -> bool
    ensures { result ≡ list_any (λ other. entry_code other == entry_code entry) asked.now }
{
    asked.iter().any(|other| other.code() == entry.code())
}

/// Whether the three types of a list are asked.
fn looks_up(request: &LookupRequest, list: ListName) -> bool
    ensures { result ≡ looks_up_list request.now list }
{
    has_threat(request.threats.as_slice(), list.threat)
        && has_platform(request.platforms.as_slice(), list.platform)
        && has_entry(request.entries.as_slice(), list.entry)
}

/// Whether a list may be looked at: its types are not asked, or it was fetched once.
fn is_ready(request: &LookupRequest, held: &HeldList) -> bool
    ensures { result ≡ is_list_ready request.now held.now }
{
    !looks_up(request, held.name) || !held.token.is_empty()
}

/// Whether each held list whose three types are asked was fetched once. If one was not, nothing is known of what it lists.
pub fn are_lists_ready(lists: &ClientLists, request: &LookupRequest) -> bool
    ensures { result ≡ lists_are_ready lists.now request.now }
{
    lists.lists().iter().all(|held| is_ready(request, held))
}

/// The hits on lists whose three types are asked.
fn asked_hits(alloc: Global, request: &LookupRequest, hits: &[Hit]) -> Result<Row<Hit>, OutOfMemory>
    ensures { IfOk result (λ asked. asked ≡ filter (λ (hit : SeenHit). looks_up_list request.now hit.list) hits.now) }
{
    let mut asked = Row::new(alloc);
    for hit in hits {
        if looks_up(request, hit.list) {
            asked.push(*hit)?;
        }
    }
    Ok(asked)
}

/// The hits of a URL on the lists that are asked: none if it has no canonical form.
fn hits_of(
    alloc: Global,
    lists: &ClientLists,
    sizes: &Sizes,
    request: &LookupRequest,
    url: &str,
) -> Result<Option<Row<Hit>>, OutOfMemory>
    requires marked { MarksAll sizes.now.marks lists.now }
    ensures found { IfOk result (λ hits. hits ≡ hits_found lists.now request.now (canonical_of url.entry.now)) }
    ensures askable { IfOk result (λ hits. IfSome hits AreAskable) }
{
    sets_go_by_members();
    match local_check_with(alloc, lists, sizes, 0, url.as_bytes()) {
        Ok(
            Finding {
                number: _,
                text: _,
                hits,
            },
        ) => Ok(Some(asked_hits(alloc, request, hits.as_slice())?)),
        Err(CheckFault::Url(_)) => Ok(None),
        Err(CheckFault::OutOfMemory) => Err(OutOfMemory),
    }
}

/// One URL that is asked.
fn url_of(
    alloc: Global,
    lists: &ClientLists,
    sizes: &Sizes,
    request: &LookupRequest,
    url: &Text,
) -> Result<LookUrl, OutOfMemory>
    requires marked { MarksAll sizes.now.marks lists.now }
    ensures is { IfOk result (λ one. one ≡ url_asked lists.now request.now url.now) }
    ensures askable { IfOk result IsAskableUrl }
{
    Ok(LookUrl {
        url: url.copy()?,
        hits: hits_of(alloc, lists, sizes, request, url.as_str())?,
        verdict: None,
    })
}

/// The URLs that a request asks for, in their order, with their hits on these lists, whose sizes are these. None has a verdict yet.
pub fn urls_of(
    alloc: Global,
    lists: &ClientLists,
    sizes: &Sizes,
    request: &LookupRequest,
) -> Result<Row<LookUrl>, OutOfMemory>
    requires marked { MarksAll sizes.now.marks lists.now }
    ensures are { IfOk result (λ urls. urls ≡ urls_asked lists.now request.now) }
    ensures askable { IfOk result (λ urls. All IsAskableUrl urls) }
{
    let mut urls = Row::with_capacity(alloc, request.urls.len())?;
    for url in request.urls.as_slice() {
        urls.push(url_of(alloc, lists, sizes, request, url)?)?;
    }
    Ok(urls)
}

/// Whether a URL is open: it has hits that are looked up, and no verdict yet.
pub(crate) fn is_open(one: &LookUrl) -> bool
    ensures opened { result ≡ true → length (open_hits_of one.now.hits one.now.verdict) ≡ 1 }
    ensures closed { result ≡ false → open_hits_of one.now.hits one.now.verdict ≡ [] }
{
    one.hits.is_some() && one.verdict.is_none()
}

/// How many URLs are open.
pub fn count_open(urls: &[LookUrl]) -> usize
    ensures { result ≡ length (open_hits urls.now) }
{
    let mut count = 0;
    for one in urls {
        if is_open(one) {
            count += 1;
        }
    }
    count
}
