//! Answers that are kept, and what they say of hashes.
use crate::steps::{
    duration_of, hash_of, hash_with, list_of, prefix_of, request_for, response_with,
};
use crate::words::{cut, low_word, number};
use full_hash_cache::{Cached, FullHashCache};
use hash_messages::Match;
use hash_prefixes::Prefix;
use sb_model::{Bytes, ListName, Moment, OutOfMemory, Row};
use std::alloc::Global;

/// The next answer.
#[derive(Drop)]
struct Answer {
    lists: Row<ListName>,
    prefixes: Row<Prefix>,
    matches: Row<Match>,
}

impl Answer {
    fn new(alloc: Global) -> Self {
        Answer {
            lists: Row::new(alloc),
            prefixes: Row::new(alloc),
            matches: Row::new(alloc),
        }
    }

    fn clear(&mut self) {
        self.lists.clear();
        self.prefixes.clear();
        self.matches.clear();
    }
}

/// Has a cache take answers, and prints what it says of hashes.
pub fn call(alloc: Global, name: &[u8], text: &[u8], out: &mut Bytes) -> Result<bool, OutOfMemory> {
    if name != b"kept".as_slice() {
        return Ok(false);
    }
    run(alloc, text, out)?;
    Ok(true)
}

/// Makes the steps of a row, which spaces part.
fn run(alloc: Global, text: &[u8], out: &mut Bytes) -> Result<(), OutOfMemory> {
    out.append(b"says")?;
    let mut cache = FullHashCache::new(alloc)?;
    let mut answer = Answer::new(alloc);
    for word in text.split(|byte| *byte == b' ') {
        step(alloc, &mut cache, &mut answer, word, out)?;
    }
    Ok(())
}

/// Makes a step: its name, a colon, and what follows.
fn step(
    alloc: Global,
    cache: &mut FullHashCache,
    answer: &mut Answer,
    word: &[u8],
    out: &mut Bytes,
) -> Result<(), OutOfMemory> {
    let (name, rest) = cut(word, b':');
    match name {
        b"list" => answer.lists.push(list_of(rest)),
        b"prefix" => answer.prefixes.push(prefix_of(rest)),
        b"match" => answer.matches.push(match_of(rest)),
        b"take" => take(alloc, cache, number(rest), answer),
        b"fill" => fill(alloc, cache, low_word(rest)),
        b"clear" => {
            cache.clear();
            Ok(())
        }
        _ => ask(cache, number(name), rest, out),
    }
}

/// A match: the word of a platform, a hash and a duration, which commas part.
fn match_of(text: &[u8]) -> Match {
    let (platform, rest) = cut(text, b',');
    let (hash, time) = cut(rest, b',');
    Match {
        name: list_of(platform),
        hash: hash_of(hash),
        cache: duration_of(time),
    }
}

/// Takes the answer at a moment, and leaves an empty one.
fn take(
    alloc: Global,
    cache: &mut FullHashCache,
    at: u64,
    answer: &mut Answer,
) -> Result<(), OutOfMemory> {
    let response = response_with(answer.matches.copy()?);
    let request = request_for(alloc, answer.prefixes.as_slice())?;
    let lists = answer.lists.as_slice();
    cache.take(alloc, Moment(at), lists, &request, &response)?;
    answer.clear();
    Ok(())
}

/// Takes at the moment 0 an answer for the prefix of a number, without a match.
fn take_none(alloc: Global, cache: &mut FullHashCache, number: u32) -> Result<(), OutOfMemory> {
    let request = request_for(alloc, &[hash_with(number, 0).prefix(4)])?;
    let response = response_with(Row::new(alloc));
    let lists = [list_of(b"WINDOWS")];
    cache.take(alloc, Moment(0), &lists, &request, &response)
}

/// Takes such an answer for each number below this one.
fn fill(alloc: Global, cache: &mut FullHashCache, count: u32) -> Result<(), OutOfMemory> {
    for number in 0..count {
        take_none(alloc, cache, number)?;
    }
    Ok(())
}

/// Prints what is said at a moment of a hash: its list, a comma, and the hash.
fn ask(
    cache: &mut FullHashCache,
    now: u64,
    text: &[u8],
    out: &mut Bytes,
) -> Result<(), OutOfMemory> {
    let (platform, word) = cut(text, b',');
    let prefix = prefix_of(word);
    let hash = hash_of(match word {
        [b'+', rest @ ..] => rest,
        _ => word,
    });
    if !prefix.begins(&hash) {
        return out.append(b" no prefix");
    }
    match cache.answer(Moment(now), list_of(platform), &prefix, &hash) {
        Cached::Unsafe => out.append(b" unsafe"),
        Cached::Safe => out.append(b" safe"),
        Cached::Ask => out.append(b" ask"),
    }
}
