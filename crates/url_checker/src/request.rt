ghost use Rattle.std.specs.Prelude.{◌≡◌, ◌≤◌, ◌==◌, ◌++◌, length, map, filter, codes, IfOk, OnOk};
ghost use Rattle.std.specs.List.{list_any};
ghost use Rattle.sb_model.specs.Names.{threats, platforms, entries, threat_code, platform_code, entry_code};
ghost use Rattle.hash_messages.specs.Messages.{most_prefixes};
ghost use Rattle.url_checker.specs.Hits.{prefixes_hit};
ghost use Rattle.url_checker.specs.Resolving.{find_asked};

use crate::Hit;
use hash_messages::FindRequest;
use hash_prefixes::Prefix;
use prefix_set::PrefixSet;
use sb_model::{Bytes, EntryType, OutOfMemory, PlatformType, Row, Text, ThreatType};
use std::alloc::Global;
use update_messages::ClientInfo;

fn has_threat(hits: &[Hit], threat: ThreatType) -> bool
    ensures { result ≡ list_any (λ hit. threat_code hit.list.threat == threat_code threat) hits.now }
{
    hits.iter()
        .any(|hit| hit.list.threat.code() == threat.code())
}

fn has_platform(hits: &[Hit], platform: PlatformType) -> bool
    ensures { result ≡ list_any (λ hit. platform_code hit.list.platform == platform_code platform) hits.now }
{
    hits.iter()
        .any(|hit| hit.list.platform.code() == platform.code())
}

fn has_entry(hits: &[Hit], entry: EntryType) -> bool
    ensures { result ≡ list_any (λ hit. entry_code hit.list.entry == entry_code entry) hits.now }
{
    hits.iter().any(|hit| hit.list.entry.code() == entry.code())
}

// The threat types of the lists of hits, in the order of their codes.
fn threats_of(alloc: Global, hits: &[Hit]) -> Result<Row<ThreatType>, OutOfMemory>
    ensures { IfOk result (λ row. row ≡ filter (λ one. list_any (λ hit. threat_code hit.list.threat == threat_code one) hits.now) threats) }
{
    let mut row = Row::new(alloc);
    for one in &ThreatType::ALL {
        if has_threat(hits, *one) {
            row.push(*one)?;
        }
    }
    Ok(row)
}

// The platform types, likewise.
fn platforms_of(alloc: Global, hits: &[Hit]) -> Result<Row<PlatformType>, OutOfMemory>
    ensures { IfOk result (λ row. row ≡ filter (λ one. list_any (λ hit. platform_code hit.list.platform == platform_code one) hits.now) platforms) }
{
    let mut row = Row::new(alloc);
    for one in &PlatformType::ALL {
        if has_platform(hits, *one) {
            row.push(*one)?;
        }
    }
    Ok(row)
}

// The threat entry types, likewise.
fn entries_of(alloc: Global, hits: &[Hit]) -> Result<Row<EntryType>, OutOfMemory>
    ensures { IfOk result (λ row. row ≡ filter (λ one. list_any (λ hit. entry_code hit.list.entry == entry_code one) hits.now) entries) }
{
    let mut row = Row::new(alloc);
    for one in &EntryType::ALL {
        if has_entry(hits, *one) {
            row.push(*one)?;
        }
    }
    Ok(row)
}

/// Appends the prefixes of hits as they stand.
pub(crate) fn push_prefixes(prefixes: &mut Row<Prefix>, hits: &[Hit]) -> Result<(), OutOfMemory>
    ensures { OnOk result (prefixes.new ≡ prefixes.old ++ map (λ hit. hit.prefix) hits.now) }
{
    for hit in hits {
        prefixes.push(hit.prefix)?;
    }
    Ok(())
}

// The prefixes of hits as they stand.
fn prefixes_in(alloc: Global, hits: &[Hit]) -> Result<Row<Prefix>, OutOfMemory>
    ensures { IfOk result (λ prefixes. prefixes ≡ map (λ hit. hit.prefix) hits.now) }
{
    let mut prefixes = Row::with_capacity(alloc, hits.len())?;
    push_prefixes(&mut prefixes, hits)?;
    Ok(prefixes)
}

/// The members of a set.
pub(crate) fn set_members(alloc: Global, set: &PrefixSet) -> Result<Row<Prefix>, OutOfMemory>
    ensures { IfOk result (λ members. members ≡ set.now) }
{
    let mut members = Row::with_capacity(alloc, set.len() as usize)?;
    for place in 0..set.len() {
        members.push(set.at(place))?;
    }
    Ok(members)
}

// The prefixes of hits, rising, each once. A set refuses nothing but memory here: the prefixes are few.
fn rising_prefixes(alloc: Global, hits: &[Hit]) -> Result<Row<Prefix>, OutOfMemory>
    ensures { IfOk result (λ prefixes. prefixes ≡ prefixes_hit hits.now) }
{
    let prefixes = prefixes_in(alloc, hits)?;
    let Ok(set) = PrefixSet::from_prefixes(alloc, prefixes.as_slice()) else {
        return Err(OutOfMemory);
    };
    set_members(alloc, &set)
}

// The states once more.
fn copied(alloc: Global, states: &[Bytes]) -> Result<Row<Bytes>, OutOfMemory>
    ensures { IfOk result (λ copies. copies ≡ states.now) }
{
    let mut copies = Row::with_capacity(alloc, states.len())?;
    for state in states {
        copies.push(state.copy()?)?;
    }
    Ok(copies)
}

// Who asks: the client of the requests for updates.
fn client_info(alloc: Global) -> Result<ClientInfo, OutOfMemory>
    ensures { IfOk result (λ client. client ≡ record { id = codes "sblist"; version = codes "1" }) }
{
    let id = Text::from_str(alloc, "sblist")?;
    let version = Text::from_str(alloc, "1")?;
    Ok(ClientInfo { id, version })
}

/// The find for some hits.
pub(crate) fn find_for(
    alloc: Global,
    states: &Row<Bytes>,
    hits: &[Hit],
) -> Result<FindRequest, OutOfMemory>
    requires { length (prefixes_hit hits.now) ≤ most_prefixes }
    ensures { IfOk result (λ request. request ≡ find_asked states.now hits.now) }
{
    let client = client_info(alloc)?;
    let states = copied(alloc, states.as_slice())?;
    let threats = threats_of(alloc, hits)?;
    let platforms = platforms_of(alloc, hits)?;
    let entries = entries_of(alloc, hits)?;
    let prefixes = rising_prefixes(alloc, hits)?;
    Ok(FindRequest {
        client,
        states,
        threats,
        platforms,
        entries,
        prefixes,
    })
}
