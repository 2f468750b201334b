ghost use Rattle.std.specs.Prelude.{◌≡◌, ◌≤◌, ◌&&◌, [], ◌∷◌, None, length, map, All, IfOk, OnOk};
ghost use Rattle.std.specs.Option.{option_copied};
ghost use Rattle.std.specs.Str.{bytes_eq};
ghost use Rattle.sb_model.specs.Names.{same_name};
ghost use Rattle.hash_messages.specs.Messages.{most_prefixes};
ghost use Rattle.url_checker.specs.Hits.{BeginsHash, AreAskable, prefixes_hit};
ghost use Rattle.url_checker.specs.Resolving.{is_ask, is_returned, is_unsafe_by, lists_hit, looked_up_pairs, hits_asked, unsafe_lists};
ghost use Rattle.url_checker.specs.Looking.{looked_of, asked_in, unsafe_in};

use crate::Hit;
use crate::naming::lists_of;
use full_hash_cache::{Cached, FullHashCache};
use hash_messages::{FindResponse, Match};
use prefix_set::sets_go_by_members;
use sb_model::{ListName, Moment, OutOfMemory, Row, names_go_by_their_codes};
use std::alloc::Global;

/// A hit, and what the kept answers say of it.
#[derive(Clone, Copy, Debug)]
pub struct Looked {
    pub hit: Hit,
    pub said: Cached,
}

/// The hits of a finding once they are looked up.
#[derive(Drop)]
pub struct Looks {
    /// Each hit with what is said of it.
    pub looked: Row<Looked>,
    /// The hits of which the server has to be asked.
    pub asked: Row<Hit>,
    /// The lists of those that the kept answers say to be unsafe, in the order of their names.
    pub told: Row<ListName>,
}

// Looks a hit up.
fn look_up(now: Moment, hit: &Hit, cache: &mut FullHashCache) -> Looked
    requires { BeginsHash hit.now }
    ensures looked { result ≡ looked_of cache.old now hit.now }
    ensures pairs { cache.new ≡ looked_up_pairs cache.old (hit.now ∷ []) }
{
    let said = cache.answer(now, hit.list, &hit.prefix, &hit.hash);
    Looked { hit: *hit, said }
}

// Looks hits up in order. What is said of each is what the kept answers said before.
fn look_up_each(
    alloc: Global,
    now: Moment,
    hits: &[Hit],
    cache: &mut FullHashCache,
) -> Result<Row<Looked>, OutOfMemory>
    requires { All BeginsHash hits.now }
    ensures looked { IfOk result (λ looked. looked ≡ map (looked_of cache.old now) hits.now) }
    ensures pairs { OnOk result (cache.new ≡ looked_up_pairs cache.old hits.now) }
{
    names_go_by_their_codes();
    let mut looked = Row::with_capacity(alloc, hits.len())?;
    for hit in hits {
        looked.push(look_up(now, hit, cache))?;
    }
    Ok(looked)
}

fn is_asked(said: Cached) -> bool
    ensures { result ≡ is_ask said }
{
    match said {
        Cached::Unsafe | Cached::Safe => false,
        Cached::Ask => true,
    }
}

// The hits of which the server has to be asked.
fn asked_hits(alloc: Global, looked: &[Looked]) -> Result<Row<Hit>, OutOfMemory>
    ensures { IfOk result (λ asked. asked ≡ asked_in looked.now) }
{
    let mut asked = Row::new(alloc);
    for one in looked {
        if is_asked(one.said) {
            asked.push(one.hit)?;
        }
    }
    Ok(asked)
}

fn is_match_of(found: &Match, hit: &Hit) -> bool
    ensures { result ≡ (same_name found.now.name hit.now.list && bytes_eq found.now.hash.bytes hit.now.hash.bytes) }
{
    found.name == hit.list && found.hash.bytes == hit.hash.bytes
}

// Whether a message has the list and the hash of a hit.
fn has_match(message: &FindResponse, hit: &Hit) -> bool
    ensures { result ≡ is_returned message.now hit.now }
{
    message.matches.iter().any(|found| is_match_of(found, hit))
}

// Whether a hit is unsafe.
fn is_unsafe(one: &Looked, message: Option<&FindResponse>) -> bool
    ensures { result ≡ is_unsafe_by (option_copied message.entry) one.now.said one.now.hit }
{
    match one.said {
        Cached::Unsafe => true,
        Cached::Safe => false,
        Cached::Ask => match message {
            Some(message) => has_match(message, &one.hit),
            None => false,
        },
    }
}

// The hits that are unsafe.
fn unsafe_hits(
    alloc: Global,
    looked: &[Looked],
    message: Option<&FindResponse>,
) -> Result<Row<Hit>, OutOfMemory>
    ensures { IfOk result (λ hits. hits ≡ unsafe_in (option_copied message.entry) looked.now) }
{
    let mut hits = Row::new(alloc);
    for one in looked {
        if is_unsafe(one, message) {
            hits.push(one.hit)?;
        }
    }
    Ok(hits)
}

/// The lists of the hits that are unsafe, in the order of their names.
pub(crate) fn unsafe_names(
    alloc: Global,
    looked: &[Looked],
    message: Option<&FindResponse>,
) -> Result<Row<ListName>, OutOfMemory>
    ensures { IfOk result (λ names. names ≡ lists_hit (unsafe_in (option_copied message.entry) looked.now)) }
{
    let hits = unsafe_hits(alloc, looked, message)?;
    lists_of(alloc, hits.as_slice())
}

/// Looks the hits of a finding up in the kept answers, as they stand at a moment.
pub fn look(
    alloc: Global,
    now: Moment,
    hits: &[Hit],
    cache: &mut FullHashCache,
) -> Result<Looks, OutOfMemory>
    requires { AreAskable hits.now }
    ensures looked { IfOk result (λ looks. looks.looked ≡ map (looked_of cache.old now) hits.now) }
    ensures asked { IfOk result (λ looks. looks.asked ≡ hits_asked cache.old now hits.now) }
    ensures told { IfOk result (λ looks. looks.told ≡ unsafe_lists cache.old now None hits.now) }
    ensures few { IfOk result (λ looks. length (prefixes_hit looks.asked) ≤ most_prefixes) }
    ensures pairs { OnOk result (cache.new ≡ looked_up_pairs cache.old hits.now) }
{
    sets_go_by_members();
    let looked = look_up_each(alloc, now, hits, cache)?;
    let asked = asked_hits(alloc, looked.as_slice())?;
    let told = unsafe_names(alloc, looked.as_slice(), None)?;
    Ok(Looks {
        looked,
        asked,
        told,
    })
}
