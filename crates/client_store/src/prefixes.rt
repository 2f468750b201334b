ghost use Rattle.std.specs.Prelude.{◌≡◌, ◌≢◌, ◌≤◌, [], length, true, Some, None, Ok, IfOk, IfSome};
ghost use Rattle.sb_model.specs.History.{IsPrefixSize};
ghost use Rattle.client_store.specs.Fields.{GivesReading};
ghost use Rattle.client_store.specs.Reading.{is_prefix_size, may_follow, size_at as size_in, prefix_at as prefix_in, more_prefixes_at as prefixes_in, counted_at as counted_in, sized_set_at as sized_set_in, common_size_at as common_size_in, fits_count as size_fits, even_set_at as even_set_in, set_at as set_in};

use crate::fields::{Stop, byte_at, bytes_at, u32_at};
use crate::format::Format;
use crate::gathered::Gathered;
use prefix_set::{MAX_PREFIXES, PrefixSet};
use sb_model::OutOfMemory;
use std::alloc::Global;

// Whether a prefix may have this size.
fn is_size(size: u8) -> bool
    ensures { result ≡ is_prefix_size size }
{
    4 <= size && size <= 32
}

// The size of a prefix that has none in common with the others.
#[tactic(auto, unfolding(crate::specs::Reading::size_at))]
fn own_size_at(bytes: &[u8]) -> Result<(u8, &[u8]), Stop>
    ensures value { GivesReading (λ x. (x.0, x.1.now)) result (size_in None bytes.now) }
    ensures size { IfOk result (λ x. IsPrefixSize x.0) }
{
    let (size, rest) = byte_at(bytes)?;
    if !is_size(size) {
        return Err(Stop::Broken(bytes.len()));
    }
    Ok((size, rest))
}

// The size of the next prefix.
#[tactic(auto, unfolding(crate::specs::Reading::size_at))]
fn size_at(common: Option<u8>, bytes: &[u8]) -> Result<(u8, &[u8]), Stop>
    requires { IfSome common IsPrefixSize }
    ensures value { GivesReading (λ x. (x.0, x.1.now)) result (size_in common bytes.now) }
    ensures size { IfOk result (λ x. IsPrefixSize x.0) }
{
    match common {
        Some(size) => Ok((size, bytes)),
        None => own_size_at(bytes),
    }
}

// The next prefix.
#[tactic(auto, unfolding(crate::specs::Reading::prefix_at))]
fn prefix_at<'a>(
    before: &Gathered<'a>,
    common: Option<u8>,
    bytes: &'a [u8],
) -> Result<(&'a [u8], &'a [u8]), Stop>
    requires { IfSome common IsPrefixSize }
    ensures value { GivesReading (λ x. (x.0.now, x.1.now)) result
        (prefix_in common before.now bytes.now) }
    ensures size { IfOk result (λ x. IsPrefixSize (length x.0.now)) }
    ensures follows { IfOk result (λ x. may_follow before.now x.0.now ≡ true) }
{
    let (size, rest) = size_at(common, bytes)?;
    let (prefix, after) = bytes_at(size as usize, rest)?;
    if !before.may_go_on(prefix) {
        return Err(Stop::Broken(rest.len()));
    }
    Ok((prefix, after))
}

// So many prefixes.
fn prefixes_at<'a>(
    alloc: Global,
    common: Option<u8>,
    count: u32,
    bytes: &'a [u8],
) -> Result<(Gathered<'a>, &'a [u8]), Stop>
    requires { IfSome common IsPrefixSize }
    ensures { GivesReading (λ x. (x.0, x.1.now)) result (prefixes_in common count [] bytes.now) }
{
    let mut so_far = Gathered::new(alloc);
    let mut rest = bytes;
    for _ in 0..count {
        let (prefix, after) = prefix_at(&so_far, common, rest)?;
        so_far.push(prefix)?;
        rest = after;
    }
    Ok((so_far, rest))
}

// The set of so many prefixes, after the field with their count.
fn counted_at<'a>(
    alloc: Global,
    common: Option<u8>,
    field: &[u8],
    count: u32,
    bytes: &'a [u8],
) -> Result<(PrefixSet, &'a [u8]), Stop>
    requires { IfSome common IsPrefixSize }
    ensures { GivesReading (λ x. (x.0, x.1.now)) result (counted_in common field.now (count, bytes.now)) }
{
    if u64::from(count) > MAX_PREFIXES {
        return Err(Stop::Broken(field.len()));
    }
    let (prefixes, rest) = prefixes_at(alloc, common, count, bytes)?;
    Ok((prefixes.into_set(alloc)?, rest))
}

// So many prefixes of one size, read at once. None where the bytes do not begin with a set of so
// many: what is wrong with them is found one by one.
fn whole_at(
    alloc: Global,
    size: u8,
    count: u32,
    bytes: &[u8],
) -> Result<Option<(PrefixSet, &[u8])>, OutOfMemory>
    requires { IsPrefixSize size }
    ensures { IfOk result (λ found. IfSome found (λ x. (count ≤ MAX_PREFIXES)
        × (prefixes_in (Some size) count [] bytes.now ≡ Ok (x.0, x.1.now)))) }
{
    let whole = size as usize * count as usize;
    if bytes.len() < whole {
        return Ok(None);
    }
    let (front, rest) = bytes.split_at(whole);
    match PrefixSet::from_rising_bytes(alloc, size, front)? {
        Some(set) => Ok(Some((set, rest))),
        None => Ok(None),
    }
}

// The set of so many prefixes of one size, after the field with their count.
fn even_at<'a>(
    alloc: Global,
    size: u8,
    field: &[u8],
    count: u32,
    bytes: &'a [u8],
) -> Result<(PrefixSet, &'a [u8]), Stop>
    requires { IsPrefixSize size }
    ensures { GivesReading (λ x. (x.0, x.1.now)) result
        (counted_in (Some size) field.now (count, bytes.now)) }
{
    match whole_at(alloc, size, count, bytes)? {
        Some(read) => Ok(read),
        None => counted_at(alloc, Some(size), field, count, bytes),
    }
}

// A set whose prefixes have their sizes before them.
#[tactic(auto, unfolding(crate::specs::Reading::sized_set_at))]
fn sized_set_at(alloc: Global, bytes: &[u8]) -> Result<(PrefixSet, &[u8]), Stop>
    ensures { GivesReading (λ x. (x.0, x.1.now)) result (sized_set_in bytes.now) }
{
    let (count, rest) = u32_at(bytes)?;
    counted_at(alloc, None, bytes, count, rest)
}

// The size of all prefixes of a set, or 0.
#[tactic(auto, unfolding(crate::specs::Reading::common_size_at))]
fn common_size_at(bytes: &[u8]) -> Result<(u8, &[u8]), Stop>
    ensures value { GivesReading (λ x. (x.0, x.1.now)) result (common_size_in bytes.now) }
    ensures size { IfOk result (λ x. x.0 ≢ 0 → IsPrefixSize x.0) }
{
    let (size, rest) = byte_at(bytes)?;
    if size != 0 && !is_size(size) {
        return Err(Stop::Broken(bytes.len()));
    }
    Ok((size, rest))
}

// Whether the size is 0 exactly where there are no prefixes.
fn fits_count(size: u8, count: u32) -> bool
    ensures { result ≡ size_fits size count }
{
    (size == 0) == (count == 0)
}

// A set whose prefixes have one size.
#[tactic(auto, unfolding(crate::specs::Reading::even_set_at, crate::specs::Reading::more_prefixes_at))]
fn even_set_at(alloc: Global, bytes: &[u8]) -> Result<(PrefixSet, &[u8]), Stop>
    ensures { GivesReading (λ x. (x.0, x.1.now)) result (even_set_in bytes.now) }
{
    let (size, field) = common_size_at(bytes)?;
    let (count, rest) = u32_at(field)?;
    if !fits_count(size, count) {
        return Err(Stop::Broken(bytes.len()));
    }
    if size == 0 {
        return Ok((PrefixSet::empty(alloc), rest));
    }
    even_at(alloc, size, field, count, rest)
}

/// The prefixes of a list.
pub(crate) fn set_at(
    alloc: Global,
    format: Format,
    bytes: &[u8],
) -> Result<(PrefixSet, &[u8]), Stop>
    ensures { GivesReading (λ x. (x.0, x.1.now)) result (set_in format bytes.now) }
{
    match format {
        Format::OneSize => even_set_at(alloc, bytes),
        Format::EachSize => sized_set_at(alloc, bytes),
    }
}
