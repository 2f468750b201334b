ghost use Rattle.std.specs.Prelude.{◌≡◌, ◌≤◌, [], length, All};
ghost use Rattle.client_store.specs.Fields.{GivesReading};
ghost use Rattle.client_store.specs.Reading.{comes_after as comes_after_all, name_at as name_in, list_at as list_in, lists_at as lists_read, lists_in as lists_of};

use crate::fields::{Stop, byte_at, bytes_at, mark_at, name_of, token_at};
use crate::format::Format;
use crate::prefixes::set_at;
use sb_model::{ListName, Row};
use std::alloc::Global;
use update_client::{ClientLists, HeldList};

/// The most lists of a client.
const MAX_LISTS: u8 = 8;

// Whether a name comes after those of these lists.
fn comes_after(before: &[HeldList], name: ListName) -> bool
    ensures { result ≡ comes_after_all before.now name }
{
    before.iter().all(|held| held.name.compare(name).is_lt())
}

// The name of the next list.
#[tactic(auto, unfolding(crate::specs::Reading::name_at))]
fn name_at<'a>(before: &[HeldList], bytes: &'a [u8]) -> Result<(ListName, &'a [u8]), Stop>
    ensures { GivesReading (λ x. (x.0, x.1.now)) result (name_in before.now bytes.now) }
{
    let (codes, rest) = bytes_at(3, bytes)?;
    let Some(name) = name_of(codes) else {
        return Err(Stop::Broken(bytes.len()));
    };
    if !comes_after(before, name) {
        return Err(Stop::Broken(bytes.len()));
    }
    Ok((name, rest))
}

// The next list.
#[tactic(auto, unfolding(crate::specs::Reading::list_at))]
fn list_at<'a>(
    alloc: Global,
    format: Format,
    before: &[HeldList],
    bytes: &'a [u8],
) -> Result<(HeldList, &'a [u8]), Stop>
    ensures { GivesReading (λ x. (x.0, x.1.now)) result (list_in format before.now bytes.now) }
{
    let (name, rest) = name_at(before, bytes)?;
    let (resync, rest) = mark_at(rest)?;
    let (token, rest) = token_at(alloc, rest)?;
    let (set, rest) = set_at(alloc, format, rest)?;
    let held = HeldList {
        name,
        token,
        set,
        resync,
    };
    Ok((held, rest))
}

// So many lists.
fn lists_at<'a>(
    alloc: Global,
    format: Format,
    count: u8,
    bytes: &'a [u8],
) -> Result<(Row<HeldList>, &'a [u8]), Stop>
    ensures { GivesReading (λ x. (x.0, x.1.now)) result (lists_read format count [] bytes.now) }
{
    let mut lists = Row::new(alloc);
    let mut rest = bytes;
    for _ in 0..count {
        let (held, after) = list_at(alloc, format, lists.as_slice(), rest)?;
        lists.push(held)?;
        rest = after;
    }
    Ok((lists, rest))
}

/// The lists, which are all of the bytes.
#[tactic(auto, unfolding(crate::specs::Reading::lists_in))]
pub(crate) fn lists_in(alloc: Global, format: Format, bytes: &[u8]) -> Result<ClientLists, Stop>
    ensures { GivesReading (λ x. x) result (lists_of format bytes.now) }
{
    let (count, rest) = byte_at(bytes)?;
    if count > MAX_LISTS {
        return Err(Stop::Broken(bytes.len()));
    }
    let (lists, rest) = lists_at(alloc, format, count, rest)?;
    if !rest.is_empty() {
        return Err(Stop::Broken(rest.len()));
    }
    Ok(ClientLists::from_lists(lists.into_vec()))
}
