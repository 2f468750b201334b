ghost use Rattle.std.specs.Prelude.{◌≡◌, ◌≤◌, List, length, IfOk};
ghost use Rattle.find_desk.specs.Desk.{DeskStart};
ghost use Rattle.find_desk.specs.Events.{DeskEvent};
ghost use Rattle.proxy_looks.specs.Fates.{is_one_left_open, AreTold, IsFateOf, IsToldVerdict};
ghost use Rattle.proxy_looks.specs.Settled.{AreLooksAsFar, AreLooksOf};
ghost use Rattle.proxy_looks.specs.Urls.{open_hits, open_hits_of};
ghost use Rattle.proxy_serving.specs.Told.{leaves_url_open};

use crate::LookUrl;
use crate::settling::left_after;
use find_desk::FindDesk;
use proxy_serving::{LookFate, SeenUrl, fate_of};
use sb_model::{OutOfMemory, Row};
use std::alloc::Global;
use url_checker::Looks;
use verdict_report::Verdict;

/// Whether a verdict leaves a URL open.
fn leaves_open(one: &LookUrl) -> bool
    ensures { result ≡ leaves_url_open one.now.verdict }
{
    match &one.verdict {
        Some(Verdict::Undecided(_)) => true,
        Some(Verdict::Safe) | Some(Verdict::Unsafe(_)) | None => false,
    }
}

/// Whether a verdict leaves one of the URLs open, so that the look-up has no answer.
pub fn is_left_open(urls: &[LookUrl]) -> bool
    ensures { result ≡ is_one_left_open urls.now }
{
    urls.iter().any(leaves_open)
}

/// What is told of a URL: its own verdict, or, if it is open still, that by its look, which is the first of these.
fn seen_of(
    alloc: Global,
    desk: &FindDesk,
    one: LookUrl,
    looks: &[Looks],
) -> Result<SeenUrl, OutOfMemory>
    requires { length (open_hits_of one.hits one.verdict) ≤ length looks.now }
    ensures url { IfOk result (λ seen. seen.url ≡ one.url) }
    ensures told { (start : DeskStart) (events : List DeskEvent) → AreLooksAsFar start events (open_hits_of one.hits one.verdict) looks.now
        → IfOk result (λ seen. IsToldVerdict start events one.hits one.verdict seen.verdict) }
{
    let LookUrl { url, hits, verdict } = one;
    if hits.is_none() || verdict.is_some() {
        return Ok(SeenUrl { url, verdict });
    }
    let [look, ..] = looks else { unreachable!() };
    let verdict = Some(desk.verdict_at_once(alloc, look)?);
    Ok(SeenUrl { url, verdict })
}

/// What is told of URLs.
fn all_seen(
    alloc: Global,
    desk: &FindDesk,
    urls: Row<LookUrl>,
    looks: &[Looks],
) -> Result<Row<SeenUrl>, OutOfMemory>
    requires { length looks.now ≡ length (open_hits urls) }
    ensures { (start : DeskStart) (events : List DeskEvent) → AreLooksOf start events (open_hits urls) looks.now
        → IfOk result (λ seen. AreTold start events urls seen) }
{
    let mut seen = Row::with_capacity(alloc, urls.len())?;
    let mut left = looks;
    for one in urls.into_vec() {
        let rest = left_after(&one, left);
        seen.push(seen_of(alloc, desk, one, left)?)?;
        left = rest;
    }
    Ok(seen)
}

/// What becomes of a look-up of these URLs: those that are open still get the verdict of their looks, by what was kept alone, which are these,
/// in order.
pub fn fate_of_urls(
    alloc: Global,
    desk: &FindDesk,
    urls: Row<LookUrl>,
    looks: &[Looks],
) -> Result<LookFate, OutOfMemory>
    requires { length looks.now ≡ length (open_hits urls) }
    ensures { (start : DeskStart) (events : List DeskEvent) → AreLooksOf start events (open_hits urls) looks.now
        → IfOk result (IsFateOf start events urls) }
{
    let seen = all_seen(alloc, desk, urls, looks)?;
    fate_of(alloc, seen.as_slice())
}
