ghost use Rattle.std.specs.Prelude.{◌≡◌, ◌+◌, ◌<◌, ◌^◌, ◌++◌, ◌||◌, [], false, length, map, is_some, option_to_list, IfOk, OnOk};
ghost use Rattle.std.specs.Str.Lines.{lines};
ghost use Rattle.sb_journal.specs.Feed.{edit_said_by, hash_line_for, is_sign as is_sign_byte, refused, takes_out as takes_out_line, told, url_behind_sign};
ghost use Rattle.sb_journal.specs.Changes.{edits_in};
ghost use Rattle.sb_journal.specs.Refusals.{refusal_at, refusals};
ghost use Rattle.sb_journal.specs.Refusals.{has_refused, refused_edits_in};

use crate::HashLine;
use crate::feed::{is_mute, push_refused};
use crate::input::next_line;
use crate::urls::hash_of_url;
use sb_model::{Added, Bytes, OutOfMemory};
use std::alloc::Global;
use url_canon::UrlFault;

/// What the lines of an input say, each of which may have a sign.
#[derive(Debug, Drop)]
pub struct Edits {
    /// The hash lines that they become, in their order.
    pub lines: Vec<HashLine>,
    /// A numbered line for each URL that is refused.
    pub refusals: Bytes,
    pub has_refused: bool,
}

/// Whether a line takes the hash of its URL out.
fn takes_out(line: &[u8]) -> bool
    ensures { result ≡ takes_out_line line.now }
{
    match line {
        [] => false,
        [first, ..] => *first == b'-',
    }
}

fn is_sign(byte: u8) -> bool
    ensures { result ≡ is_sign_byte byte }
{
    byte == b'+' || byte == b'-'
}

/// The URL of a line.
fn url_of(line: &[u8]) -> &[u8]
    ensures { result.now ≡ url_behind_sign line.now }
{
    match line {
        [first, url @ ..] if is_sign(*first) => url,
        _ => line,
    }
}

/// The hash line that a hash becomes.
fn hash_line(size: u8, out: bool, hash: [u8; 32]) -> HashLine
    ensures { result ≡ hash_line_for size out hash }
{
    if out {
        return HashLine::Remove(hash);
    }
    HashLine::Add(Added { hash, size })
}

impl Edits {
    fn new(alloc: Global) -> Edits
        ensures lines { result.lines.items ≡ [] }
        ensures refusals { result.refusals ≡ [] }
        ensures none { result.has_refused ≡ false }
    {
        Edits {
            lines: Vec::new(alloc),
            refusals: Bytes::new(alloc),
            has_refused: false,
        }
    }

    /// Takes what a line says.
    fn take(&mut self, alloc: Global, size: u8, number: u64, line: &[u8]) -> Result<(), OutOfMemory>
        ensures lines { OnOk result (self.new.lines.items
            ≡ self.old.lines.items ++ option_to_list (told (edit_said_by size line.now))) }
        ensures refusals { OnOk result (self.new.refusals
            ≡ self.old.refusals ++ refusal_at number (refused (edit_said_by 4 line.now))) }
        ensures any { OnOk result (self.new.has_refused
            ≡ (self.old.has_refused || is_some (refused (edit_said_by 4 line.now)))) }
    {
        if is_mute(line) {
            return Ok(());
        }
        match hash_of_url(alloc, url_of(line)) {
            Ok(hash) => {
                self.lines.push(hash_line(size, takes_out(line), hash))?;
                Ok(())
            }
            Err(UrlFault::OutOfMemory) => Err(OutOfMemory),
            Err(fault) => {
                self.has_refused = true;
                push_refused(&mut self.refusals, number, fault)
            }
        }
    }
}

/// What the lines of an input say. What they put in has this size.
#[tactic(auto, unfolding(crate::specs::Refusals::refusals))]
pub fn read_edits(alloc: Global, size: u8, input: &[u8]) -> Result<Edits, OutOfMemory>
    requires { length input.now < 2 ^ 32 }
    ensures lines { IfOk result (λ edits. edits.lines.items ≡ edits_in size input.now) }
    ensures refusals { IfOk result (λ edits. edits.refusals ≡ refusals (refused_edits_in input.now)) }
    ensures any { IfOk result (λ edits. edits.has_refused ≡ has_refused (refused_edits_in input.now)) }
{
    let mut edits = Edits::new(alloc);
    let mut number = 1;
    let mut rest = input;
    while !rest.is_empty() {
        let (line, tail) = next_line(rest);
        edits.take(alloc, size, number, line)?;
        number += 1;
        rest = tail;
    }
    Ok(edits)
}
