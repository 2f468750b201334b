ghost use Rattle.std.specs.Prelude.{◌≡◌, ◌≤◌, length, IfOk};
ghost use Rattle.sb_model.specs.Prefixes.{IsRising};
ghost use Rattle.sb_model.specs.Difference.{removed_places, added_members};
ghost use Rattle.sb_model.specs.History.{IsPrefixSize};

use crate::packed::PackedPrefixes;
use crate::search::seek;
use hash_prefixes::Prefix;
use sb_model::{OutOfMemory, Row};
use std::alloc::Global;

/// What leads from one set to another: the places of the members that the newer set lacks, and the
/// members that the older one lacks, both rising.
#[derive(Debug, Drop)]
pub struct Delta {
    pub removals: Row<u32>,
    pub additions: Row<Prefix>,
}

/// The places of the members that a newer set lacks.
pub(crate) fn places_removed(
    alloc: Global,
    old: &PackedPrefixes,
    newer: &PackedPrefixes,
) -> Result<Row<u32>, OutOfMemory>
    requires old { IsRising old.now }
    requires newer { IsRising newer.now }
    requires count { length old.now ≤ 1_048_576 }
    ensures { IfOk result (λ places. places ≡ removed_places old.now newer.now) }
{
    let mut places = Row::new(alloc);
    let mut from = 0;
    for i in 0..old.len() {
        let place = seek(newer, from, old.at(i));
        if !place.is_found() {
            places.push(i as u32)?;
        }
        from = place.past;
    }
    Ok(places)
}

/// The members that an older set lacks.
pub(crate) fn members_added(
    alloc: Global,
    old: &PackedPrefixes,
    newer: &PackedPrefixes,
) -> Result<Row<Prefix>, OutOfMemory>
    requires old { IsRising old.now }
    requires newer { IsRising newer.now }
    ensures { IfOk result (λ members. members ≡ added_members old.now newer.now) }
{
    let mut members = Row::new(alloc);
    let mut from = 0;
    for i in 0..newer.len() {
        let member = newer.at(i);
        let place = seek(old, from, member);
        if !place.is_found() {
            members.push(prefix_of(member))?;
        }
        from = place.past;
    }
    Ok(members)
}

/// The prefix of these bytes.
pub(crate) fn prefix_of(bytes: &[u8]) -> Prefix
    requires { IsPrefixSize (length bytes.now) }
    ensures { result ≡ bytes.now }
{
    Prefix::from_bytes(bytes).unwrap()
}
