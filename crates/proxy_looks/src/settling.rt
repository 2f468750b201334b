ghost use Rattle.std.specs.Prelude.{◌≡◌, ◌++◌, ◌∷◌, Bool, List, All, Option, IfOk, OnErr};
ghost use Rattle.std.specs.Option.{option_copied};
ghost use Rattle.client_line.specs.Lines.{LineView};
ghost use Rattle.find_desk.specs.Desk.{DeskStart, HasKeptDesk};
ghost use Rattle.find_desk.specs.Events.{DeskEvent, MadeFind};
ghost use Rattle.http_edge.specs.declared.messages.Target.{Target};
ghost use Rattle.proxy_looks.specs.Settled.{desk_at, asked_after, AreAskedBy, GoesOnLooking, HasAskedForAll, LooksUp, SettlesAll, SettlesHits, SettlesOne};
ghost use Rattle.proxy_looks.specs.Urls.{open_hits, open_hits_of, IsAskableUrl};
ghost use Rattle.url_checker.specs.Hits.{AreAskable};
ghost use Rattle.url_checker.specs.declared.findings.Hit.{Hit as SeenHit};

use crate::LookUrl;
use crate::urls::is_open;
use find_desk::{EndedFind, FindDesk, looks_stay, verdict_after};
use sb_model::{Moment, OutOfMemory, Row};
use std::alloc::Global;
use url_checker::{Hit, Looks};
use verdict_report::Verdict;

/// URLs that were settled: those that are open still have no verdict, and these are their looks, in order.
#[derive(Drop)]
pub struct Settled {
    pub urls: Row<LookUrl>,
    pub looks: Row<Looks>,
}

/// Looks hits up at a moment. The verdict if that leaves none open; else the look is kept.
fn look_up(
    alloc: Global,
    desk: &mut FindDesk,
    now: Moment,
    hits: &[Hit],
    looks: &mut Row<Looks>,
) -> Result<Option<Verdict>, OutOfMemory>
    requires { AreAskable hits.now }
    ensures settled { (target : Target) (need : Bool) (start : DeskStart) (events : List DeskEvent) (line : LineView) → HasKeptDesk target need start events desk.old line
        → IfOk result (λ verdict. LooksUp (desk_at target need start events now line) hits.now verdict looks.old looks.new desk.new) }
    ensures stopped { (target : Target) (need : Bool) (start : DeskStart) (events : List DeskEvent) (line : LineView) → HasKeptDesk target need start events desk.old line
        → OnErr result (GoesOnLooking (desk_at target need start events now line) desk.new) }
    ensures waits { desk.new.waits ≡ desk.old.waits }
    ensures opened { desk.new.opened ≡ desk.old.opened }
{
    let look = desk.look(alloc, now, hits)?;
    if look.asked.is_empty() {
        return Ok(Some(desk.verdict_at_once(alloc, &look)?));
    }
    looks.push(look)?;
    Ok(None)
}

/// The verdict of a URL with these hits that is open: by a find that asked for them, if one did, and else by a look.
fn settle_hits(
    alloc: Global,
    desk: &mut FindDesk,
    now: Moment,
    hits: &[Hit],
    asked: &[Looks],
    ended: Option<&EndedFind>,
    looks: &mut Row<Looks>,
) -> Result<Option<Verdict>, OutOfMemory>
    requires askable { AreAskable hits.now }
    requires all { HasAskedForAll asked.now (option_copied ended) }
    ensures settled { (target : Target) (need : Bool) (start : DeskStart) (events : List DeskEvent) (line : LineView) (by : Option MadeFind) (others : List (List SeenHit))
        → HasKeptDesk target need start events desk.old line → AreAskedBy start events (hits.now ∷ others) asked.now (option_copied ended.entry) by
        → IfOk result (λ verdict. SettlesHits (desk_at target need start events now line) by asked.now hits.now verdict looks.old looks.new desk.new) }
    ensures stopped { (target : Target) (need : Bool) (start : DeskStart) (events : List DeskEvent) (line : LineView) (by : Option MadeFind) (others : List (List SeenHit))
        → HasKeptDesk target need start events desk.old line → AreAskedBy start events (hits.now ∷ others) asked.now (option_copied ended.entry) by
        → OnErr result (GoesOnLooking (desk_at target need start events now line) desk.new) }
    ensures waits { desk.new.waits ≡ desk.old.waits }
    ensures opened { desk.new.opened ≡ desk.old.opened }
{
    let [look, ..] = asked else {
        return look_up(alloc, desk, now, hits, looks);
    };
    let Some(ended) = ended else { unreachable!() };
    Ok(Some(verdict_after(alloc, look, ended)?))
}

/// Settles one URL. A find asked for the looks that are left, the first of which is this URL's if it is open.
fn settle_one(
    alloc: Global,
    desk: &mut FindDesk,
    now: Moment,
    one: LookUrl,
    asked: &[Looks],
    ended: Option<&EndedFind>,
    looks: &mut Row<Looks>,
) -> Result<LookUrl, OutOfMemory>
    requires askable { IsAskableUrl one }
    requires all { HasAskedForAll asked.now (option_copied ended) }
    ensures settled { (target : Target) (need : Bool) (start : DeskStart) (events : List DeskEvent) (line : LineView) (by : Option MadeFind) (others : List (List SeenHit))
        → HasKeptDesk target need start events desk.old line
        → AreAskedBy start events (open_hits_of one.hits one.verdict ++ others) asked.now (option_copied ended.entry) by
        → IfOk result (λ one'. SettlesOne (desk_at target need start events now line) by asked.now one one' looks.old looks.new desk.new) }
    ensures stopped { (target : Target) (need : Bool) (start : DeskStart) (events : List DeskEvent) (line : LineView) (by : Option MadeFind) (others : List (List SeenHit))
        → HasKeptDesk target need start events desk.old line
        → AreAskedBy start events (open_hits_of one.hits one.verdict ++ others) asked.now (option_copied ended.entry) by
        → OnErr result (GoesOnLooking (desk_at target need start events now line) desk.new) }
    ensures askable { IfOk result IsAskableUrl }
    ensures waits { desk.new.waits ≡ desk.old.waits }
    ensures opened { desk.new.opened ≡ desk.old.opened }
{
    let LookUrl { url, hits, verdict } = one;
    let Some(found) = &hits else {
        return Ok(LookUrl { url, hits, verdict });
    };
    if verdict.is_some() {
        return Ok(LookUrl { url, hits, verdict });
    }
    let verdict = settle_hits(alloc, desk, now, found.as_slice(), asked, ended, looks)?;
    Ok(LookUrl { url, hits, verdict })
}

/// The looks that are left for which a find asked, after this URL.
pub(crate) fn left_after<'a>(one: &LookUrl, asked: &'a [Looks]) -> &'a [Looks]
    ensures { result.now ≡ asked_after asked.now one.now }
{
    match asked {
        [_, rest @ ..] if is_open(one) => rest,
        _ => asked,
    }
}

/// Settles URLs: each that is open and for whose look a find asked is decided by it, and each other one that is open is looked up at this
/// moment, which decides it if no hit is left open. `asked` has the looks of the first open ones, for which the find asked that was ended.
pub fn settle_urls(
    alloc: Global,
    desk: &mut FindDesk,
    now: Moment,
    urls: Row<LookUrl>,
    asked: &[Looks],
    ended: Option<&EndedFind>,
) -> Result<Settled, OutOfMemory>
    requires askable { All IsAskableUrl urls }
    requires all { HasAskedForAll asked.now (option_copied ended) }
    ensures settled { (target : Target) (need : Bool) (start : DeskStart) (events : List DeskEvent) (line : LineView) (by : Option MadeFind)
        → HasKeptDesk target need start events desk.old line → AreAskedBy start events (open_hits urls) asked.now (option_copied ended.entry) by
        → IfOk result (λ settled. SettlesAll (desk_at target need start events now line) by asked.now urls settled desk.new) }
    ensures stopped { (target : Target) (need : Bool) (start : DeskStart) (events : List DeskEvent) (line : LineView) (by : Option MadeFind)
        → HasKeptDesk target need start events desk.old line → AreAskedBy start events (open_hits urls) asked.now (option_copied ended.entry) by
        → OnErr result (GoesOnLooking (desk_at target need start events now line) desk.new) }
    ensures askable { IfOk result (λ settled. All IsAskableUrl settled.urls) }

    // Nothing else of the desk changes.
    ensures waits { desk.new.waits ≡ desk.old.waits }
    ensures opened { desk.new.opened ≡ desk.old.opened }
{
    looks_stay();
    let mut looks = Row::new(alloc);
    let mut done = Row::with_capacity(alloc, urls.len())?;
    let mut left = asked;
    for one in urls.into_vec() {
        let rest = left_after(&one, left);
        let next = settle_one(alloc, desk, now, one, left, ended, &mut looks)?;
        left = rest;
        done.push(next)?;
    }
    Ok(Settled { urls: done, looks })
}
