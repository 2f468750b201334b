ghost use Rattle.std.specs.Prelude.{◌≡◌, [], ◌∷◌, ◌++◌, ◌==◌, nat_le, if◌then◌else◌, OnOk, ◌-◌, ◌<◌, ◌≤◌, All, length, drop, map, IfOk};
ghost use Rattle.std.specs.List.{list_any};
ghost use Rattle.url_canon.specs.Words.{is_dot};
ghost use Rattle.url_expressions.specs.Expressions.{components, hosts_of, first_occurrences};

use crate::places::push_new;
use memchr::memchr;
use sb_model::OutOfMemory;
use std::alloc::Global;

/// How many hosts a URL has at most.
const HOSTS: usize = 5;

/// How many components a host has.
fn count_components(host: &[u8]) -> usize
    ensures { result ≡ length (components host.now) }
{
    host.iter().filter(|byte| **byte == b'.').count() + 1
}

/// The place after the first dot that stands at a place or after it.
fn after_dot(host: &[u8], place: usize) -> usize
    requires { place ≤ length host.now }
    ensures within { result ≤ length host.now }
    ensures value { 1 < length (components (drop place host.now))
        → components (drop result host.now) ≡ drop 1 (components (drop place host.now)) }
{
    match memchr(b'.', &host[place..]) {
        None => place,
        Some(dot) => place + dot + 1,
    }
}

/// The place of a host's component with this number, which counts from 0.
fn component_place(host: &[u8], number: usize) -> usize
    requires { number < length (components host.now) }
    ensures within { result ≤ length host.now }
    ensures value { components (drop result host.now) ≡ drop number (components host.now) }
{
    let mut place = 0;
    for _ in 0..number {
        place = after_dot(host, place);
    }
    place
}

/// Adds the place of the last `n` components of a host that has `count`, where it has so many, and
/// answers the place of the last `n - 1`. `place` is that of the last `n`, or the host's own.
fn push_last(
    places: &mut Vec<usize>,
    host: &[u8],
    count: usize,
    n: usize,
    place: usize,
) -> Result<usize, OutOfMemory>
    requires counted { count ≡ length (components host.now) }
    requires more { 1 < n }
    requires within { place ≤ length host.now }
    requires there { components (drop place host.now) ≡ drop (count - n) (components host.now) }
    ensures within { IfOk result (λ next. next ≤ length host.now) }
    ensures next { IfOk result (λ next.
        components (drop next host.now) ≡ drop (count - (n - 1)) (components host.now)) }
    ensures places { OnOk result (places.new.items ≡ (if nat_le n count
        then (if list_any (λ p. p == place) places.old.items then places.old.items
        else places.old.items ++ place ∷ [])
        else places.old.items)) }
{
    if n > count {
        return Ok(place);
    }
    push_new(places, place)?;
    Ok(after_dot(host, place))
}

/// The places at which the hosts of a URL begin: the exact host, and unless it is an address its
/// last 5, 4, 3 and 2 components, where it has so many, each once.
pub fn host_places(alloc: Global, host: &[u8], is_address: bool) -> Result<Vec<usize>, OutOfMemory>
    ensures within { IfOk result (λ places. All (λ place. place ≤ length host.now) places.items) }
    ensures value { IfOk result (λ places. map (λ place. drop place host.now) places.items
        ≡ first_occurrences (hosts_of host.now is_address)) }
{
    let mut places = Vec::with_capacity(alloc, HOSTS)?;
    places.push(0)?;
    if is_address {
        return Ok(places);
    }
    let count = count_components(host);
    let mut place = component_place(host, count.saturating_sub(5));
    for n in [5, 4, 3, 2] {
        place = push_last(&mut places, host, count, n, place)?;
    }
    Ok(places)
}
